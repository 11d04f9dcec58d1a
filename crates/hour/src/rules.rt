// The limits of an hour, and the rules that each bid and each line keeps.
ghost use Rattle.std.specs.Prelude.{◌≡◌, ◌+◌, ◌^◌, ◌<◌};
ghost use Rattle.std.specs.Result.{result_err};
ghost use Rattle.hour.specs.Rules.{most_of, zones_fault, count_fault, counts_fault, lent_fault, results_fault};
ghost use Rattle.hour.specs.Rules.{bid_fault, line_fault};

use crate::items::{Bid, Line};
use crate::refusals::{Refusal, Sort};

pub const MAX_ZONES: u64 = 32;

pub const MAX_BIDS: u64 = 1_000;

pub const MAX_LINES: u64 = 128;

pub const MAX_PRICE: u64 = 400_000;

pub const MAX_AMOUNT: u64 = 1_000_000;

/// How many bytes the longest hour has that there can be.
pub const LONGEST_HOUR: usize = (7 + 7 * (MAX_BIDS + MAX_BIDS) + 5 * MAX_LINES) as usize;

impl Sort {
    // How many entries of a sort an hour has at most.
    fn most(self) -> u64
        ensures { result ≡ most_of self }
    {
        match self {
            Sort::Buy | Sort::Sell => MAX_BIDS,
            Sort::Line => MAX_LINES,
        }
    }
}

/// The rule on the number of zones.
pub fn check_zones(zones: u64) -> Result<(), Refusal>
    ensures { result_err result ≡ zones_fault zones }
{
    if zones == 0 || zones > MAX_ZONES {
        return Err(Refusal::Zones { zones });
    }
    Ok(())
}

/// The rule on the number of entries of a sort.
pub fn check_count(sort: Sort, count: u64) -> Result<(), Refusal>
    ensures { result_err result ≡ count_fault sort count }
{
    if count > sort.most() {
        return Err(Refusal::TooMany { sort, count });
    }
    Ok(())
}

/// The first of these rules that is broken.
pub fn check_counts(zones: u64, buys: u64, sells: u64, lines: u64) -> Result<(), Refusal>
    ensures { result_err result ≡ counts_fault zones buys sells lines }
{
    check_zones(zones)?;
    check_count(Sort::Buy, buys)?;
    check_count(Sort::Sell, sells)?;
    check_count(Sort::Line, lines)
}

/// The rule on a lent slice: it has a number among those that are lent, by which it is published, and needs some length.
pub fn check_lent(slice: usize, has: usize, needed: usize) -> Result<(), Refusal>
    ensures { result_err result ≡ lent_fault slice has needed }
{
    if has < needed {
        return Err(Refusal::Lent { slice });
    }
    Ok(())
}

/// How long slices are that hold a result: amounts bought and sold, flows and prices.
#[derive(Clone, Copy, Debug, PartialEq, Eq)]
pub struct Lengths {
    pub bought: usize,
    pub sold: usize,
    pub flow: usize,
    pub prices: usize,
}

/// The first of these slices that is shorter than needed, by its number from 0.
pub fn check_results(has: Lengths, needed: Lengths) -> Result<(), Refusal>
    ensures { result_err result ≡ results_fault has needed }
{
    check_lent(0, has.bought, needed.bought)?;
    check_lent(1, has.sold, needed.sold)?;
    check_lent(2, has.flow, needed.flow)?;
    check_lent(3, has.prices, needed.prices)
}

/// The first rule that a bid breaks, of which the first byte stands at `place` in the written hour.
pub fn check_bid(zones: u64, place: usize, bid: Bid) -> Result<(), Refusal>
    requires { place + 4 < 2 ^ 64 }
    ensures { result_err result ≡ bid_fault zones place bid }
{
    if bid.zone >= zones {
        return Err(Refusal::BidZone {
            at: place,
            zone: bid.zone,
        });
    }
    if bid.price > MAX_PRICE {
        return Err(Refusal::BidPrice {
            at: place + 1,
            price: bid.price,
        });
    }
    if bid.amount == 0 || bid.amount > MAX_AMOUNT {
        return Err(Refusal::BidAmount {
            at: place + 4,
            amount: bid.amount,
        });
    }
    Ok(())
}

/// The first rule that a line breaks, of which the first byte stands at `place` in the written hour.
pub fn check_line(zones: u64, place: usize, line: Line) -> Result<(), Refusal>
    requires { place + 2 < 2 ^ 64 }
    ensures { result_err result ≡ line_fault zones place line }
{
    if line.from >= zones {
        return Err(Refusal::LineZone {
            at: place,
            zone: line.from,
        });
    }
    if line.to >= zones {
        return Err(Refusal::LineZone {
            at: place + 1,
            zone: line.to,
        });
    }
    if line.capacity > MAX_AMOUNT {
        return Err(Refusal::LineCapacity {
            at: place + 2,
            capacity: line.capacity,
        });
    }
    Ok(())
}
