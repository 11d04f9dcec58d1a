// Why an hour is refused: each case holds what it refuses, and where that stands.
ghost use Rattle.std.specs.Prelude.{◌≡◌, Some};
ghost use Rattle.hour.specs.Refusals.{count_place, number_of, place_of};
ghost use Rattle.hour.specs.Text.{refused, sort_word};

use std::error::Error;
use std::fmt;

/// The three sorts of an hour's entries.
#[derive(Clone, Copy, Debug, PartialEq, Eq)]
pub enum Sort {
    Buy,
    Sell,
    Line,
}

impl Sort {
    // The byte at which an hour has the count of a sort.
    pub(crate) fn count_place(self) -> usize
        ensures { result ≡ count_place self }
    {
        match self {
            Sort::Buy => 1,
            Sort::Sell => 3,
            Sort::Line => 5,
        }
    }
}

// A sort's word in a listing.
impl fmt::Display for Sort {
    ghost output = { λ sort. Some (sort_word sort) };

    fn fmt<W: fmt::Write>(&self, f: &mut fmt::Formatter<W>) -> fmt::Result {
        match self {
            Sort::Buy => write!(f, "buy"),
            Sort::Sell => write!(f, "sell"),
            Sort::Line => write!(f, "line"),
        }
    }
}

#[derive(Clone, Copy, Debug, PartialEq, Eq)]
pub enum Refusal {
    // Fewer bytes than the counts say, or more.
    Length { came: usize },
    // No zone, or too many.
    Zones { zones: u64 },
    // Too many buys, sells or lines.
    TooMany { sort: Sort, count: u64 },
    // A bid's zone is none of the hour's.
    BidZone { at: usize, zone: u64 },
    // A bid's price is too high.
    BidPrice { at: usize, price: u64 },
    // A bid's amount is 0 or too large.
    BidAmount { at: usize, amount: u64 },
    // A line's zone is none of the hour's.
    LineZone { at: usize, zone: u64 },
    // A line's capacity is too large.
    LineCapacity { at: usize, capacity: u64 },
    // A lent slice is too short.
    Lent { slice: usize },
}

impl Refusal {
    /// The number by which the office publishes the rule that is broken.
    pub fn number(&self) -> u64
        ensures { result ≡ number_of self.now }
    {
        match self {
            Refusal::Length { .. } => 1,
            Refusal::Zones { .. } => 2,
            Refusal::TooMany { .. } => 3,
            Refusal::BidZone { .. } => 4,
            Refusal::BidPrice { .. } => 5,
            Refusal::BidAmount { .. } => 6,
            Refusal::LineZone { .. } => 7,
            Refusal::LineCapacity { .. } => 8,
            Refusal::Lent { .. } => 9,
        }
    }

    /// The byte at which it is broken, the length that came, or the number of the lent slice.
    pub fn place(&self) -> usize
        ensures { result ≡ place_of self.now }
    {
        match *self {
            Refusal::Length { came } => came,
            Refusal::Zones { .. } => 0,
            Refusal::TooMany { sort, .. } => sort.count_place(),
            Refusal::BidZone { at, .. } => at,
            Refusal::BidPrice { at, .. } => at,
            Refusal::BidAmount { at, .. } => at,
            Refusal::LineZone { at, .. } => at,
            Refusal::LineCapacity { at, .. } => at,
            Refusal::Lent { slice } => slice,
        }
    }
}

// A refusal as the office publishes it.
impl fmt::Display for Refusal {
    ghost output = { λ r. Some (refused r) };

    fn fmt<W: fmt::Write>(&self, f: &mut fmt::Formatter<W>) -> fmt::Result {
        let number = self.number();
        let place = self.place();
        write!(f, "refused {number} at {place}")
    }
}

impl Error for Refusal {}
