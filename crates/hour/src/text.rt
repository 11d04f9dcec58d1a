// An hour as text: a row for the zones, and one for each buy, sell and line; or the row of its refusal.
ghost use Rattle.std.specs.Prelude.{◌≡◌, ◌<◌, IfOk, string_bytes};
ghost use Rattle.hour.specs.Market.{count_of};
ghost use Rattle.hour.specs.Seen.{market_seen};
ghost use Rattle.hour.specs.Text.{Adds, bid_row, line_row, nth_row, sort_rows, market_rows, listing_of};

use crate::items::{Bid, Line};
use crate::money::Price;
use crate::refusals::Sort;
use crate::view::Hour;
use std::alloc::{AllocError, Global};

// The k-th bid of its sort.
fn bid_row(text: &mut String, sort: Sort, k: usize, bid: Bid) -> Result<(), AllocError>
    ensures { Adds result text.old (bid_row sort k bid) text.new }
{
    let Bid {
        zone,
        price,
        amount,
    } = bid;
    let price = Price(price);
    writeln!(text, "{sort} {k} zone {zone} price {price} amount {amount}")
}

fn line_row(text: &mut String, k: usize, line: Line) -> Result<(), AllocError>
    ensures { Adds result text.old (line_row k line) text.new }
{
    let Line {
        from,
        to,
        capacity,
        ..
    } = line;
    writeln!(text, "line {k} from {from} to {to} capacity {capacity}")
}

fn nth_row(text: &mut String, hour: Hour<'_>, sort: Sort, k: usize) -> Result<(), AllocError>
    requires { k < count_of (market_seen hour) sort }
    ensures { Adds result text.old (nth_row (market_seen hour.entry) sort k) text.new }
{
    match sort {
        Sort::Buy => bid_row(text, sort, k, hour.buy(k)),
        Sort::Sell => bid_row(text, sort, k, hour.sell(k)),
        Sort::Line => line_row(text, k, hour.line(k)),
    }
}

#[tactic(auto, using(crate::proofs::Rows::row_added))]
fn sort_rows(text: &mut String, hour: Hour<'_>, sort: Sort) -> Result<(), AllocError>
    ensures { Adds result text.old (sort_rows (market_seen hour.entry) sort) text.new }
{
    for k in 0..hour.count(sort) {
        nth_row(text, hour, sort, k)?;
    }
    Ok(())
}

fn market_rows(text: &mut String, hour: Hour<'_>) -> Result<(), AllocError>
    ensures { Adds result text.old (market_rows (market_seen hour.entry)) text.new }
{
    let zones = hour.zones();
    writeln!(text, "zones {zones}")?;
    sort_rows(text, hour, Sort::Buy)?;
    sort_rows(text, hour, Sort::Sell)?;
    sort_rows(text, hour, Sort::Line)
}

fn write_listing(text: &mut String, bytes: &[u8]) -> Result<(), AllocError>
    ensures { Adds result text.old (listing_of bytes.now) text.new }
{
    match Hour::try_from(bytes) {
        Ok(hour) => market_rows(text, hour),
        Err(refusal) => writeln!(text, "{refusal}"),
    }
}

/// The text of any bytes; an error is want of memory.
pub fn listing(heap: Global, bytes: &[u8]) -> Result<String, AllocError>
    ensures { IfOk result (λ t. string_bytes t ≡ listing_of bytes.now) }
{
    let mut text = String::new(heap);
    write_listing(&mut text, bytes)?;
    Ok(text)
}
