//! What an hour is made of: bids to buy or to sell, and lines; and what a unit of each costs and brings at the zones' prices.
ghost use Rattle.std.specs.Prelude.{◌≡◌};
ghost use Rattle.hour.specs.Items.{item};

use crate::refusals::Sort;

/// A bid: where, at what price at most (to buy) or at least (to sell), and how much at most.
/// A price p stands for p - 50,000 hundredths of the money unit; all comparisons are made with p.
#[derive(Clone, Copy, Debug, PartialEq, Eq)]
pub struct Bid {
    pub zone: u64,
    pub price: u64,
    pub amount: u64,
}

/// A line carries one way, from one zone to another or the same one; a cable that carries both ways is two lines.
/// It carries at most its capacity, and each unit costs so many hundredths; an hour's bytes say no cost, and what they say is 0.
#[derive(Clone, Copy, Debug, PartialEq, Eq)]
pub struct Line {
    pub from: u64,
    pub to: u64,
    pub capacity: u64,
    pub cost: u64,
}

/// An item of a market, by its number among its own sort: a bid to buy, a bid to sell, or a line.
#[derive(Clone, Copy, Debug, PartialEq, Eq)]
pub enum Item {
    Buy(usize),
    Sell(usize),
    Line(usize),
}

impl Item {
    /// The k-th of a sort.
    pub fn of(sort: Sort, k: usize) -> Item
        ensures { result ≡ item sort k }
    {
        match sort {
            Sort::Buy => Item::Buy(k),
            Sort::Sell => Item::Sell(k),
            Sort::Line => Item::Line(k),
        }
    }
}

/// An item at the zones' prices: how much it takes at most, and what a unit costs it and brings it.
#[derive(Clone, Copy, Debug, PartialEq, Eq)]
pub struct Terms {
    pub limit: u64,
    pub cost: u64,
    pub value: u64,
}
