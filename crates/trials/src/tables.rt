// Hours laid into tables by hand and cleared by `prices::clear`, in slices that are longer than needed, beside what `ledger::clear`
// leaves in slices that are just long enough.
use crate::copies::{buys_of, lines_of, sells_of};
use crate::lending::refused_word;
use hour::{Bid, Head, Hour, Line, Refusal, read_head};
use lent::{Lent, MARK, Sizes, Slice};
use prices::clear;
use std::alloc::{AllocError, Global};

// A market in tables: zone, price and amount of each bid, and from, to and capacity of each line.
#[derive(Drop)]
struct Tables {
    zones: u64,
    buys: Vec<u64>,
    sells: Vec<u64>,
    lines: Vec<u64>,
}

fn bids_laid(heap: Global, bids: &[Bid]) -> Result<Vec<u64>, AllocError> {
    bids.iter()
        .flat_map(|bid| [bid.zone, bid.price, bid.amount])
        .collect(heap)
}

fn lines_laid(heap: Global, lines: &[Line]) -> Result<Vec<u64>, AllocError> {
    lines
        .iter()
        .flat_map(|line| [line.from, line.to, line.capacity])
        .collect(heap)
}

impl Tables {
    fn laid(heap: Global, hour: Hour<'_>) -> Result<Tables, AllocError> {
        let buys = buys_of(heap, hour)?;
        let sells = sells_of(heap, hour)?;
        let lines = lines_of(heap, hour)?;
        Ok(Tables {
            zones: hour.zones(),
            buys: bids_laid(heap, buys.as_slice())?,
            sells: bids_laid(heap, sells.as_slice())?,
            lines: lines_laid(heap, lines.as_slice())?,
        })
    }

    fn clear(&self, lent: &mut Lent) -> Result<u64, Refusal> {
        clear(
            self.zones,
            self.buys.as_slice(),
            self.sells.as_slice(),
            self.lines.as_slice(),
            lent.bought.as_mut_slice(),
            lent.sold.as_mut_slice(),
            lent.flow.as_mut_slice(),
            lent.price.as_mut_slice(),
            lent.work.as_mut_slice(),
        )
    }
}

// All but the last number, where that is as it was lent.
fn before_mark(numbers: &[u64]) -> Option<&[u64]> {
    match numbers.split_last() {
        Some((last, front)) if *last == MARK => Some(front),
        _ => None,
    }
}

// Whether a slice that is longer by one number holds what the other does, and behind it what was lent.
fn is_same(longer: &[u64], usual: &[u64]) -> bool {
    before_mark(longer).is_some_and(|front| front == usual)
}

fn result_same(longer: &Lent, usual: &Lent) -> bool {
    Slice::RESULT
        .iter()
        .all(|slice| is_same(longer.of(*slice), usual.of(*slice)))
}

// Whether the work slice is zeros, and behind them what was lent.
fn work_wiped(lent: &Lent) -> bool {
    before_mark(lent.of(Slice::Work)).is_some_and(|front| front.iter().all(|number| *number == 0))
}

// Whether the hour's tables are cleared as its bytes are.
pub fn same_on_tables(heap: Global, bytes: &[u8]) -> Result<bool, AllocError> {
    let Ok(hour) = Hour::try_from(bytes) else {
        return Ok(false);
    };
    let Ok(head) = read_head(bytes) else {
        return Ok(false);
    };
    let sizes = Sizes::for_head(head);
    let mut usual = Lent::new(heap, sizes)?;
    let mut longer = Lent::new(heap, sizes.one_longer())?;
    let pushes = usual.clear(bytes);
    let pushes_too = Tables::laid(heap, hour)?.clear(&mut longer);
    Ok(
        pushes.is_ok()
            && pushes == pushes_too
            && result_same(&longer, &usual)
            && work_wiped(&longer),
    )
}

// What is said of one zone with one buy, whose table holds these numbers, and whether any number of any slice changed.
pub fn one_buy(heap: Global, numbers: &[u64]) -> Result<String, AllocError> {
    let head = Head {
        zones: 1,
        buys: 1,
        sells: 0,
        lines: 0,
    };
    let tables = Tables {
        zones: 1,
        buys: numbers.iter().copied().collect(heap)?,
        sells: Vec::new(heap),
        lines: Vec::new(heap),
    };
    let mut lent = Lent::new(heap, Sizes::for_head(head).one_longer())?;
    let ended = tables.clear(&mut lent);
    refused_word(heap, ended, &lent)
}
