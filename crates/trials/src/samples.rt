// The sample hours: their names, and their bytes.
use anyhow::{Context, Result};
use std::fs;

/// Those that break a rule, by what is wrong with them.
pub const REFUSED: [&str; 54] = [
    "empty",
    "one_byte",
    "cut_in_the_count_of_buys",
    "cut_after_the_count_of_buys",
    "cut_in_the_count_of_sells",
    "cut_after_the_count_of_sells",
    "cut_in_the_count_of_lines",
    "no_zones",
    "zones_33",
    "zones_255_alone",
    "buys_1001",
    "sells_1001",
    "lines_129",
    "too_many_buys_and_lines",
    "too_many_sells_and_lines",
    "no_zones_and_too_many_buys",
    "one_byte_more",
    "one_byte_less",
    "head_alone",
    "buys_1000_in_few_bytes",
    "buy_0_zone",
    "sell_0_zone",
    "sell_1_zone",
    "buy_0_price",
    "buy_0_amount_0",
    "buy_0_amount_too_large",
    "buy_0_zone_price_amount",
    "buy_0_price_amount",
    "sell_0_price",
    "sell_0_amount_0",
    "sell_0_amount_too_large",
    "sell_0_zone_price_amount",
    "sell_0_price_amount",
    "sell_1_price",
    "sell_1_amount_0",
    "sell_1_amount_too_large",
    "sell_1_zone_price_amount",
    "sell_1_price_amount",
    "line_0_from",
    "line_0_to",
    "line_0_from_to",
    "line_0_capacity",
    "line_0_to_capacity",
    "line_1_from",
    "line_1_to",
    "line_1_from_to",
    "line_1_capacity",
    "line_1_to_capacity",
    "sell_1_zone_and_line_0_from",
    "line_0_from_and_line_1_capacity",
    "buy_0_price_and_sell_0_zone",
    "buy_0_zone_and_one_byte_more",
    "buys_1001_cut",
    "sells_1001_cut",
];

pub const WORKED: [&str; 9] = ["A", "A1", "B", "C", "D", "E", "F", "G", "takeback"];

pub const ODD: [&str; 9] = [
    "nobids",
    "onebuy",
    "onesell",
    "oneline",
    "emptyzones",
    "zeroline",
    "selfline",
    "parallel",
    "alternating",
];

/// The bytes of a sample of one kind, which lies in a folder of that name; no clause can say what a file gives.
pub fn sample(rt: &HostRuntime, kind: &str, name: &str) -> Result<Vec<u8>> {
    let path = format!(in rt.alloc(); "{kind}/{name}.bin")?;
    fs::read(rt, path.as_str()).context(format_args!("cannot read {path:?}"))
}
