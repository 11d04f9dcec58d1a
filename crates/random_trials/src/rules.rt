// What makes a result stand, said once more, plainly and with no word of how clearing goes about it: which outcomes can be carried
// out, what they are worth, and which prices settle them.
use crate::small::Small;
use hour::{Bid, Line};
use std::alloc::{AllocError, Global};

// An amount of each buy and each sell, and a flow on each line.
#[derive(Clone, Drop)]
pub struct Outcome {
    pub bought: Vec<u64>,
    pub sold: Vec<u64>,
    pub flow: Vec<u64>,
}

fn amounts_of(heap: Global, bids: &[Bid]) -> Result<Vec<u64>, AllocError> {
    bids.iter().map(|bid| bid.amount).collect(heap)
}

impl Outcome {
    pub fn nothing(heap: Global, small: &Small) -> Result<Outcome, AllocError> {
        Ok(Outcome {
            bought: vec![in heap; 0u64; small.buys.len()]?,
            sold: vec![in heap; 0u64; small.sells.len()]?,
            flow: vec![in heap; 0u64; small.lines.len()]?,
        })
    }

    // The most that each could have.
    pub fn most(heap: Global, small: &Small) -> Result<Outcome, AllocError> {
        Ok(Outcome {
            bought: amounts_of(heap, small.buys.as_slice())?,
            sold: amounts_of(heap, small.sells.as_slice())?,
            flow: small.lines.iter().map(|line| line.capacity).collect(heap)?,
        })
    }
}

// The amounts together of those that are in a place.
fn total_in<T, F: Fn(&T) -> bool>(entries: &[T], amounts: &[u64], in_place: F) -> u64
    requires { F.IsAlwaysCallable in_place }
{
    let mut sum: u64 = 0;
    for (entry, amount) in entries.iter().zip(amounts.iter()) {
        if in_place(entry) {
            sum = sum.saturating_add(*amount);
        }
    }
    sum
}

// In a zone, what is sold and comes in is what is bought and goes out.
fn balanced_in(small: &Small, o: &Outcome, zone: u64) -> bool {
    let sold = total_in(small.sells.as_slice(), o.sold.as_slice(), |sell| {
        sell.zone == zone
    });
    let bought = total_in(small.buys.as_slice(), o.bought.as_slice(), |buy| {
        buy.zone == zone
    });
    let comes = total_in(small.lines.as_slice(), o.flow.as_slice(), |line| {
        line.to == zone
    });
    let goes = total_in(small.lines.as_slice(), o.flow.as_slice(), |line| {
        line.from == zone
    });
    sold.saturating_add(comes) == bought.saturating_add(goes)
}

// Whether each has an amount that it is content with.
fn each_content<T, F: Fn(&T, u64) -> bool>(entries: &[T], amounts: &[u64], content: F) -> bool
    requires { F.IsAlwaysCallable content }
{
    entries
        .iter()
        .zip(amounts.iter())
        .all(|(entry, amount)| content(entry, *amount))
}

fn bids_within(bids: &[Bid], amounts: &[u64]) -> bool {
    each_content(bids, amounts, |bid, amount| amount <= bid.amount)
}

fn lines_within(lines: &[Line], flow: &[u64]) -> bool {
    each_content(lines, flow, |line, amount| amount <= line.capacity)
}

// Nobody has more than the bid says, no line carries more than it can, and every zone balances.
pub fn carried_out(small: &Small, o: &Outcome) -> bool {
    bids_within(small.buys.as_slice(), o.bought.as_slice())
        && bids_within(small.sells.as_slice(), o.sold.as_slice())
        && lines_within(small.lines.as_slice(), o.flow.as_slice())
        && (0..small.zones).all(|zone| balanced_in(small, o, zone))
}

fn at_own_price(bids: &[Bid], amounts: &[u64]) -> i64 {
    bids.iter()
        .zip(amounts.iter())
        .fold(0u64, |sum, (bid, amount)| {
            sum.saturating_add(bid.price.saturating_mul(*amount))
        })
        .cast_signed()
}

// What is bought at the buyers' prices, less what is sold at the sellers'.
pub fn worth(small: &Small, o: &Outcome) -> i64 {
    let bought = at_own_price(small.buys.as_slice(), o.bought.as_slice());
    let sold = at_own_price(small.sells.as_slice(), o.sold.as_slice());
    bought.wrapping_sub(sold)
}

fn price_in(prices: &[u64], zone: u64) -> u64 {
    prices.get(zone as usize).copied().unwrap_or(0)
}

// Who gains by every unit wants all of them, who loses by every unit wants none, and who does neither takes any amount.
fn content(cost: u64, value: u64, amount: u64, most: u64) -> bool {
    if value > cost {
        amount == most
    } else if value < cost {
        amount == 0
    } else {
        true
    }
}

fn buys_content(buys: &[Bid], bought: &[u64], prices: &[u64]) -> bool {
    each_content(buys, bought, |buy, amount| {
        content(price_in(prices, buy.zone), buy.price, amount, buy.amount)
    })
}

fn sells_content(sells: &[Bid], sold: &[u64], prices: &[u64]) -> bool {
    each_content(sells, sold, |sell, amount| {
        content(sell.price, price_in(prices, sell.zone), amount, sell.amount)
    })
}

// A line buys where it begins and sells where it ends.
fn lines_content(lines: &[Line], flow: &[u64], prices: &[u64]) -> bool {
    each_content(lines, flow, |line, amount| {
        let cost = price_in(prices, line.from);
        let value = price_in(prices, line.to);
        content(cost, value, amount, line.capacity)
    })
}

pub fn settled(small: &Small, o: &Outcome, prices: &[u64]) -> bool {
    buys_content(small.buys.as_slice(), o.bought.as_slice(), prices)
        && sells_content(small.sells.as_slice(), o.sold.as_slice(), prices)
        && lines_content(small.lines.as_slice(), o.flow.as_slice(), prices)
}
