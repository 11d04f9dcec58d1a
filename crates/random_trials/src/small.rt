// Small hours, drawn, and as bytes.
use crate::draws::Draws;
use hour::{Bid, Book, Head, Line};
use lent::written;
use std::alloc::{AllocError, Global};

const MOST_ZONES: u64 = 3;

const MOST_BIDS: u64 = 4;

const MOST_LINES: u64 = 3;

const LARGEST_AMOUNT: u64 = 5;

const HIGHEST_PRICE: u64 = 9;

#[derive(Drop)]
pub struct Small {
    pub zones: u64,
    pub buys: Vec<Bid>,
    pub sells: Vec<Bid>,
    pub lines: Vec<Line>,
}

fn drawn_bid(draws: &mut Draws, zones: u64) -> Bid {
    Bid {
        zone: draws.below(zones),
        price: draws.between(0, HIGHEST_PRICE),
        amount: draws.between(1, LARGEST_AMOUNT),
    }
}

// The zones of a line are drawn apart, so that it may join a zone with itself, or two that another joins.
fn drawn_line(draws: &mut Draws, zones: u64) -> Line {
    Line {
        from: draws.below(zones),
        to: draws.below(zones),
        capacity: draws.between(0, LARGEST_AMOUNT),
        cost: 0,
    }
}

// The larger of two drawn numbers, so that hours with little in them are few.
fn drawn_count(draws: &mut Draws, most: u64) -> u64 {
    let one = draws.between(0, most);
    one.max(draws.between(0, most))
}

impl Small {
    pub fn drawn(heap: Global, draws: &mut Draws) -> Result<Small, AllocError> {
        let mut small = Small {
            zones: draws.between(1, MOST_ZONES),
            buys: Vec::new(heap),
            sells: Vec::new(heap),
            lines: Vec::new(heap),
        };
        for _ in 0..drawn_count(draws, MOST_BIDS) {
            let bid = drawn_bid(draws, small.zones);
            if draws.below(2) == 0 {
                small.buys.push(bid)?;
            } else {
                small.sells.push(bid)?;
            }
        }
        for _ in 0..drawn_count(draws, MOST_LINES) {
            let line = drawn_line(draws, small.zones);
            small.lines.push(line)?;
        }
        Ok(small)
    }

    /// The hour as its bytes.
    pub fn bytes(&self, heap: Global) -> Result<Vec<u8>, AllocError> {
        let book = Book {
            zones: self.zones,
            buys: self.buys.as_slice(),
            sells: self.sells.as_slice(),
            lines: self.lines.as_slice(),
        };
        written(heap, book)
    }
}

// The counts of the hour.
impl From<&Small> for Head {
    fn from(small: &Small) -> Head {
        Head {
            zones: small.zones,
            buys: small.buys.len() as u64,
            sells: small.sells.len() as u64,
            lines: small.lines.len() as u64,
        }
    }
}
