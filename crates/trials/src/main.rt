// Prints what becomes of sample hours: of those that break a rule the refusal, and of the worked and the odd ones what they say and come
// to, whether they are written back as they were read, whether their sums close, what the checker says of what is published and of
// results that differ from it by one unit, and whether the same comes of their tables; then hours at the limits and the largest sums,
// with the checker's answer; and what is refused and changes nothing: slices that are too short, and tables that break a rule.
#![tactic(auto)]

mod changed;
mod copies;
mod lending;
mod limits;
mod samples;
mod sums;
mod tables;

use crate::changed::changed_by_one;
use crate::copies::written_back;
use crate::lending::{closing_word, one_short};
use crate::limits::{Counts, hour_of};
use crate::samples::{ODD, REFUSED, WORKED, sample};
use crate::sums::largest_hour;
use crate::tables::{one_buy, same_on_tables};
use anyhow::Result;
use checker::report_on;
use hour::{Hour, listing};
use ledger::published;
use lent::Slice;
use std::alloc::{AllocError, Global};

const LIMITS: [Counts; 6] = [
    Counts {
        zones: 32,
        buys: 1_000,
        sells: 1_000,
        lines: 128,
    },
    Counts {
        zones: 32,
        buys: 0,
        sells: 0,
        lines: 0,
    },
    Counts {
        zones: 1,
        buys: 0,
        sells: 0,
        lines: 0,
    },
    Counts {
        zones: 1,
        buys: 1_000,
        sells: 0,
        lines: 0,
    },
    Counts {
        zones: 1,
        buys: 0,
        sells: 1_000,
        lines: 0,
    },
    Counts {
        zones: 1,
        buys: 0,
        sells: 0,
        lines: 128,
    },
];

// Buys and sells of the largest hours: all are served at the lowest price, or one buy too many holds the highest.
const LARGEST: [(usize, usize); 2] = [(1_000, 1_000), (1_000, 999)];

fn copy_word(written_back: bool) -> &'static str {
    if written_back {
        "written back"
    } else {
        "not written back"
    }
}

fn tables_word(same: bool) -> &'static str {
    if same {
        "the same on tables"
    } else {
        "not the same on tables"
    }
}

// What is published of each hour that breaks a rule, and whether its listing is another.
fn refused_hours(rt: &HostRuntime) -> Result<()> {
    let heap = rt.alloc();
    for name in REFUSED {
        let bytes = sample(rt, "refused", name)?;
        let told = published(heap, bytes.as_slice())?.text;
        let listed = listing(heap, bytes.as_slice())?;
        print!(rt; "{name} {told}")?;
        if listed.as_str() != told.as_str() {
            print!(rt; "{name} is listed as {listed}")?;
        }
    }
    Ok(())
}

// What sample hours of one kind say and come to, whether they are written back as they were read, and whether their sums close; what the
// checker says of what is published, and of results that differ from it by one unit; whether their tables come to the same.
fn sample_hours(rt: &HostRuntime, kind: &str, names: &[&str]) -> Result<()> {
    let heap = rt.alloc();
    for name in names {
        let bytes = sample(rt, kind, name)?;
        let listed = listing(heap, bytes.as_slice())?;
        let copied = copy_word(written_back(heap, bytes.as_slice())?);
        let result = published(heap, bytes.as_slice())?.text;
        let closes = closing_word(heap, bytes.as_slice())?;
        let report = report_on(heap, bytes.as_slice(), result.as_str().as_bytes())?;
        let changed = changed_by_one(heap, bytes.as_slice())?;
        let tables = tables_word(same_on_tables(heap, bytes.as_slice())?);
        println!(rt;
            "{kind} {name}\n{listed}{copied}\n{result}{closes}\n{report}\n{changed}\n{tables}"
        )?;
    }
    Ok(())
}

fn counts_read(heap: Global, bytes: &[u8]) -> std::result::Result<String, AllocError> {
    match Hour::try_from(bytes) {
        Ok(hour) => {
            let zones = hour.zones();
            let buys = hour.buys();
            let sells = hour.sells();
            let lines = hour.lines();
            format!(in heap; "zones {zones} buys {buys} sells {sells} lines {lines}\n")
        }
        Err(refusal) => format!(in heap; "{refusal}\n"),
    }
}

// Only the first two rows of what is published, the worth and a price, since of these hours the others are thousands; whether the sums
// close, and what the checker says of all rows.
fn write_large(rt: &HostRuntime, bytes: &[u8]) -> Result<()> {
    let heap = rt.alloc();
    let result = published(heap, bytes)?.text;
    let closes = closing_word(heap, bytes)?;
    let report = report_on(heap, bytes, result.as_str().as_bytes())?;
    for row in result.as_str().lines().take(2) {
        println!(rt; "{row}")?;
    }
    println!(rt; "{closes}\n{report}")?;
    Ok(())
}

fn hours_at_limits(rt: &HostRuntime) -> Result<()> {
    let heap = rt.alloc();
    for counts in LIMITS {
        let bytes = hour_of(heap, counts)?;
        let text = counts_read(heap, bytes.as_slice())?;
        let copied = copy_word(written_back(heap, bytes.as_slice())?);
        println!(rt; "{text}{copied}")?;
        write_large(rt, bytes.as_slice())?;
    }
    Ok(())
}

fn largest_hours(rt: &HostRuntime) -> Result<()> {
    let heap = rt.alloc();
    for (buys, sells) in LARGEST {
        let bytes = largest_hour(heap, buys, sells)?;
        println!(rt; "buys {buys} sells {sells}")?;
        write_large(rt, bytes.as_slice())?;
    }
    Ok(())
}

fn short_slices(rt: &HostRuntime) -> Result<()> {
    let heap = rt.alloc();
    let bytes = sample(rt, "worked", "E")?;
    for number in 0..Slice::ALL.len() {
        let said = one_short(heap, bytes.as_slice(), number)?;
        print!(rt; "slice {number} short {said}")?;
    }
    Ok(())
}

// A table that has a number too many, and a bid of nothing.
fn refused_tables(rt: &HostRuntime) -> Result<()> {
    let heap = rt.alloc();
    let ragged = one_buy(heap, &[0, 30, 10, 0])?;
    print!(rt; "table of 4 {ragged}")?;
    let nothing = one_buy(heap, &[0, 30, 0])?;
    print!(rt; "table of a bid of 0 {nothing}")?;
    Ok(())
}

fn main(rt: HostRuntime) -> Result<()> {
    refused_hours(&rt)?;
    sample_hours(&rt, "worked", &WORKED)?;
    sample_hours(&rt, "odd", &ODD)?;
    hours_at_limits(&rt)?;
    largest_hours(&rt)?;
    short_slices(&rt)?;
    refused_tables(&rt)
}
