// One small hour: what is published of it and what the checker says, held beside what the slow search found.
use crate::draws::Draws;
use crate::others::{Kind, other};
use crate::rules::{Outcome, carried_out, settled, worth};
use crate::search::{Found, Pair, search};
use crate::small::Small;
use checker::{Objection, check, lowest};
use hour::read_head;
use ledger::published;
use lent::{Lent, Sizes, Slices};
use std::alloc::{AllocError, Global};

// What a mark is before the checker writes it, of which a small hour needs three at most.
const UNTOUCHED: u64 = 7;

const LENT: [u64; 3] = [UNTOUCHED; 3];

/// What of an hour is as the slow search has it.
/// By default nothing is: so of an hour that is refused.
#[derive(Clone, Copy, Default)]
pub struct Alike {
    // Something can be bought and sold for more than nothing: of other hours the trial shows less.
    pub trades: bool,
    // The published worth is the highest of all outcomes that can be carried out.
    pub worth: bool,
    // The published prices are the lowest, zone by zone, of all lists that settle an outcome that can be carried out.
    pub prices: bool,
    // The checker accepts what is published, and says that its prices are the lowest.
    pub accepted: bool,
    pub lowest: bool,
    // The sums of the ledger close.
    pub closes: bool,
    // How many other results the checker judged as the slow search does, and how many of these stand.
    pub judged: u64,
    pub stand: u64,
}

impl Alike {
    pub fn all(self) -> bool {
        self.worth
            && self.prices
            && self.accepted
            && self.lowest
            && self.closes
            && self.judged == Kind::ALL.len() as u64
    }
}

// The published result, and whether its ledger closes; nothing where the hour is refused.
fn clear_small(heap: Global, bytes: &[u8]) -> Result<Option<(Pair, bool)>, AllocError> {
    let Ok(head) = read_head(bytes) else {
        return Ok(None);
    };
    let mut lent = Lent::new(heap, Sizes::for_head(head))?;
    if lent.clear(bytes).is_err() {
        return Ok(None);
    }
    let closes = lent.closes();
    let Slices {
        bought,
        sold,
        flow,
        price,
        ledger: _,
        work: _,
    } = lent;
    let pair = Pair {
        outcome: Outcome { bought, sold, flow },
        prices: price,
    };
    Ok(Some((pair, closes)))
}

// Both the text and the amounts say the worth.
fn worth_alike(
    heap: Global,
    bytes: &[u8],
    small: &Small,
    o: &Outcome,
    best: i64,
) -> Result<bool, AllocError> {
    let text = published(heap, bytes)?.text;
    let start = format!(in heap; "worth {best} pushes ")?;
    Ok(text.as_str().starts_with(start.as_str()) && worth(small, o) == best)
}

fn accepts(bytes: &[u8], pair: &Pair) -> bool {
    let answer = check(
        bytes,
        pair.outcome.bought.as_slice(),
        pair.outcome.sold.as_slice(),
        pair.outcome.flow.as_slice(),
        pair.prices.as_slice(),
    );
    answer.is_ok()
}

// What the checker answers, and what it leaves in the marks.
fn rank(bytes: &[u8], pair: &Pair) -> (Result<Option<usize>, Objection>, [u64; 3]) {
    let mut marks = LENT;
    let answer = lowest(
        bytes,
        pair.outcome.bought.as_slice(),
        pair.outcome.sold.as_slice(),
        pair.outcome.flow.as_slice(),
        pair.prices.as_slice(),
        &mut marks,
    );
    (answer, marks)
}

// The first zone whose price is above the lowest of the lists that settle.
fn first_above(prices: &[u64], lowest: &[u64]) -> Option<usize> {
    prices
        .iter()
        .zip(lowest.iter())
        .position(|(price, low)| *price > *low)
}

// Whether each zone has the mark 1 where its price is the lowest, and else 0.
fn marked_alike(marks: &[u64], prices: &[u64], lowest: &[u64]) -> bool {
    prices
        .iter()
        .zip(lowest.iter())
        .zip(marks.iter())
        .all(|((price, low), mark)| *mark == u64::from(*price == *low))
}

// Whether the marks behind so many zones are as they were lent.
fn left_behind(marks: &[u64], zones: usize) -> bool {
    marks.iter().skip(zones).all(|mark| *mark == UNTOUCHED)
}

// Whether the checker says of a result that stands, and of no other, which zone is the first that could be lower, with marks that say it
// of each zone.
fn ranked_alike(bytes: &[u8], pair: &Pair, stands: bool, found: &Found) -> bool {
    let prices = pair.prices.as_slice();
    let above = first_above(prices, found.lowest.as_slice());
    let (answer, marks) = rank(bytes, pair);
    match answer {
        Ok(lower) => {
            stands
                && above == lower
                && marked_alike(&marks, prices, found.lowest.as_slice())
                && left_behind(&marks, prices.len())
        }
        Err(Objection::Broken(_)) => !stands && left_behind(&marks, 0),
        Err(Objection::Refused(_)) => false,
    }
}

fn stands_in(small: &Small, pair: &Pair) -> bool {
    carried_out(small, &pair.outcome) && settled(small, &pair.outcome, pair.prices.as_slice())
}

fn judge_others(
    heap: Global,
    draws: &mut Draws,
    small: &Small,
    bytes: &[u8],
    res: &Pair,
    found: &Found,
) -> Result<(u64, u64), AllocError> {
    let mut judged: u64 = 0;
    let mut stand: u64 = 0;
    for kind in Kind::ALL {
        let pair = other(heap, draws, small, res, found, kind)?;
        let stands = stands_in(small, &pair);
        if accepts(bytes, &pair) == stands && ranked_alike(bytes, &pair, stands, found) {
            judged = judged.saturating_add(1);
            if stands {
                stand = stand.saturating_add(1);
            }
        }
    }
    Ok((judged, stand))
}

pub fn try_hour(
    heap: Global,
    draws: &mut Draws,
    small: &Small,
    bytes: &[u8],
) -> Result<Alike, AllocError> {
    let found = search(heap, draws, small)?;
    let Some((result, closes)) = clear_small(heap, bytes)? else {
        return Ok(Alike::default());
    };
    let (judged, stand) = judge_others(heap, draws, small, bytes, &result, &found)?;
    Ok(Alike {
        trades: found.best > 0,
        worth: worth_alike(heap, bytes, small, &result.outcome, found.best)?,
        prices: result.prices.as_slice() == found.lowest.as_slice(),
        accepted: stands_in(small, &result) && accepts(bytes, &result),
        lowest: ranked_alike(bytes, &result, true, &found),
        closes,
        judged,
        stand,
    })
}
