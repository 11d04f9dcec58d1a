// Other results of an hour, some that stand and some that do not, for the checker to judge. Nothing here sees to it that they differ: a
// number 0 made less by one stays 0, an empty list has no number to change, and what is drawn may be what is published. Which of them
// stand is looked at by the rules, and not by how they were made.
use crate::draws::Draws;
use crate::rules::Outcome;
use crate::search::{Found, Pair, TOP_PRICE};
use crate::small::Small;
use std::alloc::{AllocError, Global};

// What a result is made of: a pair that settles, the published result, or what is drawn; as it is, with one number changed, or the
// outcome of one beside the prices of another.
#[derive(Clone, Copy)]
pub enum Kind {
    Settled,
    SettledNudged,
    PublishedNudged,
    PublishedAtSettled,
    PublishedAtDrawn,
    SettledAtPublished,
    Drawn,
}

impl Kind {
    pub const ALL: [Kind; 7] = [
        Kind::Settled,
        Kind::SettledNudged,
        Kind::PublishedNudged,
        Kind::PublishedAtSettled,
        Kind::PublishedAtDrawn,
        Kind::SettledAtPublished,
        Kind::Drawn,
    ];
}

// Amounts that may be one too large.
fn drawn_amounts(draws: &mut Draws, most: &mut [u64]) {
    for amount in most.iter_mut() {
        *amount = draws.between(0, amount.saturating_add(1));
    }
}

fn drawn_outcome(heap: Global, draws: &mut Draws, small: &Small) -> Result<Outcome, AllocError> {
    let mut o = Outcome::most(heap, small)?;
    drawn_amounts(draws, o.bought.as_mut_slice());
    drawn_amounts(draws, o.sold.as_mut_slice());
    drawn_amounts(draws, o.flow.as_mut_slice());
    Ok(o)
}

fn drawn_prices(heap: Global, draws: &mut Draws, small: &Small) -> Result<Vec<u64>, AllocError> {
    (0..small.zones)
        .map(|_| draws.between(0, TOP_PRICE))
        .collect(heap)
}

// One of the numbers becomes larger by one, or smaller by one if it is not 0; none where there are none.
fn nudge(draws: &mut Draws, numbers: &mut [u64]) {
    let k = draws.below(numbers.len() as u64) as usize;
    let up = draws.below(2) == 0;
    if let Some(number) = numbers.get_mut(k) {
        *number = if up {
            number.saturating_add(1)
        } else {
            number.saturating_sub(1)
        };
    }
}

fn nudged(draws: &mut Draws, pair: &Pair) -> Result<Pair, AllocError> {
    let mut outcome = pair.outcome.clone()?;
    let mut prices = pair.prices.clone()?;
    // A drawn number picks one, and says no more.
    match draws.below(4) {
        0 => nudge(draws, outcome.bought.as_mut_slice()),
        1 => nudge(draws, outcome.sold.as_mut_slice()),
        2 => nudge(draws, outcome.flow.as_mut_slice()),
        _ => nudge(draws, prices.as_mut_slice()),
    }
    Ok(Pair { outcome, prices })
}

// A result of a kind.
pub fn other(
    heap: Global,
    draws: &mut Draws,
    small: &Small,
    published: &Pair,
    found: &Found,
    kind: Kind,
) -> Result<Pair, AllocError> {
    let settled = &found.pick;
    match kind {
        Kind::Settled => settled.clone(),
        Kind::SettledNudged => nudged(draws, settled),
        Kind::PublishedNudged => nudged(draws, published),
        Kind::PublishedAtSettled => Ok(Pair {
            outcome: published.outcome.clone()?,
            prices: settled.prices.clone()?,
        }),
        Kind::PublishedAtDrawn => Ok(Pair {
            outcome: published.outcome.clone()?,
            prices: drawn_prices(heap, draws, small)?,
        }),
        Kind::SettledAtPublished => Ok(Pair {
            outcome: settled.outcome.clone()?,
            prices: published.prices.clone()?,
        }),
        Kind::Drawn => Ok(Pair {
            outcome: drawn_outcome(heap, draws, small)?,
            prices: drawn_prices(heap, draws, small)?,
        }),
    }
}
