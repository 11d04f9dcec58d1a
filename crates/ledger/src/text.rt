// What is published of an hour, as text.
ghost use Rattle.std.specs.Prelude.{◌≡◌, length, IfOk, string_bytes};
ghost use Rattle.hour.specs.Text.{Adds};
ghost use Rattle.ledger.specs.Text.{worth_row, zone_row, zone_rows, wording, item_row, item_rows};
ghost use Rattle.ledger.specs.Cleared.{LedgerIn, Room, text_in, text_from};

use crate::cleared::Cleared;
use crate::worth::worth_in;
use hour::{Price, Sort};
use std::alloc::{AllocError, Global};

fn worth_row(text: &mut String, worth: i64, pushes: u64) -> Result<(), AllocError>
    ensures { Adds result text.old (worth_row worth pushes) text.new }
{
    writeln!(text, "worth {worth} pushes {pushes}")
}

fn zone_row(text: &mut String, zone: usize, price: u64) -> Result<(), AllocError>
    ensures { Adds result text.old (zone_row zone price) text.new }
{
    let price = Price(price);
    writeln!(text, "zone {zone} price {price}")
}

fn zone_rows(text: &mut String, prices: &[u64]) -> Result<(), AllocError>
    ensures { Adds result text.old (zone_rows (length prices.now) prices.now) text.new }
{
    for (zone, price) in prices.iter().enumerate() {
        zone_row(text, zone, *price)?;
    }
    Ok(())
}

// One row: what it says goes together nowhere else, so each is a parameter.
fn item_row(
    text: &mut String,
    sort: Sort,
    k: usize,
    amount: u64,
    money: i64,
) -> Result<(), AllocError>
    ensures { Adds result text.old (item_row (wording sort) k amount money) text.new }
{
    match sort {
        Sort::Buy => writeln!(text, "buy {k} has {amount} pays {money}"),
        Sort::Sell => writeln!(text, "sell {k} has {amount} gets {money}"),
        Sort::Line => writeln!(text, "line {k} carries {amount} earns {money}"),
    }
}

// The rows of one sort, with their amounts, and their money in as many rows of the ledger. The money is read by number: over both
// lists side by side it is not proved that the rows so far are those of the definition.
#[tactic(auto, using(crate::proofs::Saying::item_added))]
fn item_rows(
    text: &mut String,
    sort: Sort,
    amounts: &[u64],
    ledger: &[u64],
) -> Result<(), AllocError>
    requires { length ledger.now ≡ length amounts.now }
    ensures { Adds
        result text.old
        (item_rows (wording sort) (length amounts.now) amounts.now ledger.now 0)
        text.new }
{
    for (k, amount) in amounts.iter().enumerate() {
        item_row(text, sort, k, *amount, ledger[k].cast_signed())?;
    }
    Ok(())
}

// All rows of an hour, with each money as a ledger has it.
fn result_rows(
    text: &mut String,
    cleared: Cleared<'_, '_, '_>,
    pushes: u64,
    ledger: &[u64],
) -> Result<(), AllocError>
    requires { Room cleared ledger.now }
    ensures { Adds result text.old (text_from cleared.entry pushes ledger.now) text.new }
{
    let hour = cleared.hour;
    let o = cleared.amounts;
    let zones = hour.zones() as usize;
    let buys = hour.buys();
    let sells = hour.sells();
    let lines = hour.lines();
    let (buy_rows, rest) = ledger.split_at(buys);
    let (sell_rows, rest) = rest.split_at(sells);
    worth_row(text, worth_in(hour, o), pushes)?;
    zone_rows(text, &cleared.prices[..zones])?;
    item_rows(text, Sort::Buy, &o.bought[..buys], buy_rows)?;
    item_rows(text, Sort::Sell, &o.sold[..sells], sell_rows)?;
    item_rows(text, Sort::Line, &o.flow[..lines], &rest[..lines])
}

// The text of an hour whose ledger was written: each amount and each money is that of the hour's own bids and lines. An error is want of
// memory.
#[tactic(auto, using(crate::proofs::Saying::ledger_says))]
pub fn result_text(
    heap: Global,
    cleared: Cleared<'_, '_, '_>,
    pushes: u64,
    ledger: &[u64],
) -> Result<String, AllocError>
    requires room { Room cleared ledger.now }
    requires ledger { LedgerIn cleared ledger.now }
    ensures of_ledger { IfOk result (λ t. string_bytes t ≡ text_from cleared.entry pushes ledger.now) }
    ensures of_outcome { IfOk result (λ t. string_bytes t ≡ text_in cleared.entry pushes) }
{
    let mut text = String::new(heap);
    result_rows(&mut text, cleared, pushes, ledger)?;
    Ok(text)
}
