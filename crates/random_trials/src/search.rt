// A slow search of a small hour: every outcome, and with each that can be carried out every list of prices.
use crate::draws::Draws;
use crate::rules::{Outcome, carried_out, settled, worth};
use crate::small::Small;
use std::alloc::{AllocError, Global};

// One more than the highest price that a small hour's bids have, so that no price of interest is left out.
pub const TOP_PRICE: u64 = 10;

// An outcome with prices.
#[derive(Clone, Drop)]
pub struct Pair {
    pub outcome: Outcome,
    pub prices: Vec<u64>,
}

// What the search found.
#[derive(Drop)]
pub struct Found {
    // The highest worth of all outcomes that can be carried out.
    pub best: i64,
    // For each zone, the lowest price of all lists that settle an outcome that can be carried out.
    pub lowest: Vec<u64>,
    // How many pairs there are of an outcome that can be carried out and a list that settles it.
    pub pairs: u64,
    // One of those pairs; each is as likely as any other.
    pub pick: Pair,
}

// Counts on, the first digit fastest; whether there was a next list of digits, or else they are all 0 again.
fn advance(digits: &mut [u64], most: &[u64]) -> bool {
    for (digit, most) in digits.iter_mut().zip(most.iter()) {
        if *digit < *most {
            *digit += 1;
            return true;
        }
        *digit = 0;
    }
    false
}

fn next_outcome(o: &mut Outcome, most: &Outcome) -> bool {
    advance(o.bought.as_mut_slice(), most.bought.as_slice())
        || advance(o.sold.as_mut_slice(), most.sold.as_slice())
        || advance(o.flow.as_mut_slice(), most.flow.as_slice())
}

// How many lists of digits there are.
fn lists(most: &[u64]) -> u64 {
    most.iter().fold(
        1u64,
        |count, most| count.saturating_mul(most.saturating_add(1)),
    )
}

fn outcomes(most: &Outcome) -> u64 {
    lists(most.bought.as_slice())
        .saturating_mul(lists(most.sold.as_slice()))
        .saturating_mul(lists(most.flow.as_slice()))
}

// Each number becomes the smaller of itself and of the other in its place.
fn lower_to(lowest: &mut [u64], prices: &[u64]) {
    for (low, price) in lowest.iter_mut().zip(prices.iter()) {
        *low = (*low).min(*price);
    }
}

impl Found {
    fn nothing(heap: Global, small: &Small) -> Result<Found, AllocError> {
        let zones = small.zones as usize;
        Ok(Found {
            best: i64::MIN,
            lowest: vec![in heap; u64::MAX; zones]?,
            pairs: 0,
            pick: Pair {
                outcome: Outcome::nothing(heap, small)?,
                prices: vec![in heap; 0u64; zones]?,
            },
        })
    }

    fn note(
        &mut self,
        draws: &mut Draws,
        o: &Outcome,
        prices: &Vec<u64>,
    ) -> Result<(), AllocError> {
        lower_to(self.lowest.as_mut_slice(), prices.as_slice());
        self.pairs = self.pairs.saturating_add(1);
        if draws.below(self.pairs) == 0 {
            self.pick = Pair {
                outcome: o.clone()?,
                prices: prices.clone()?,
            };
        }
        Ok(())
    }

    // Every list of prices beside one outcome.
    fn try_prices(
        &mut self,
        heap: Global,
        draws: &mut Draws,
        small: &Small,
        o: &Outcome,
    ) -> Result<(), AllocError> {
        let zones = small.zones as usize;
        let top = vec![in heap; TOP_PRICE; zones]?;
        let mut prices = vec![in heap; 0u64; zones]?;
        for _ in 0..lists(top.as_slice()) {
            if settled(small, o, prices.as_slice()) {
                self.note(draws, o, &prices)?;
            }
            let _ = advance(prices.as_mut_slice(), top.as_slice());
        }
        Ok(())
    }
}

pub fn search(heap: Global, draws: &mut Draws, small: &Small) -> Result<Found, AllocError> {
    let mut found = Found::nothing(heap, small)?;
    let most = Outcome::most(heap, small)?;
    let mut o = Outcome::nothing(heap, small)?;
    for _ in 0..outcomes(&most) {
        if carried_out(small, &o) {
            found.best = found.best.max(worth(small, &o));
            found.try_prices(heap, draws, small, &o)?;
        }
        let _ = next_outcome(&mut o, &most);
    }
    Ok(found)
}
