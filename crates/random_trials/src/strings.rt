// Byte strings that are hardly hours. Looked at is that a refusal changes no number of the lent slices, and that the ledger closes of what
// is cleared: not which strings are refused, nor with what number and place, and not what the others come to.
use crate::draws::Draws;
use crate::small::Small;
use hour::{Head, read_head};
use lent::{Lent, Sizes, Slice};
use std::alloc::{AllocError, Global};
use std::fmt;

const LONGEST: u64 = 48;

const HEAD: usize = 7;

#[derive(Clone, Copy, Default)]
pub struct Strings {
    pub refused: u64,
    // Refused, and a lent number is another than before.
    pub changed: u64,
    pub cleared: u64,
    // Cleared, and the ledger's sums do not close.
    pub open: u64,
}

fn push_drawn(draws: &mut Draws, bytes: &mut Vec<u8>, count: u64) -> Result<(), AllocError> {
    for _ in 0..count {
        bytes.push(draws.byte())?;
    }
    Ok(())
}

fn change_one(draws: &mut Draws, bytes: &mut [u8]) {
    let k = draws.below(bytes.len() as u64) as usize;
    let drawn = draws.byte();
    if let Some(byte) = bytes.get_mut(k) {
        *byte = drawn;
    }
}

// A head as it was, and bids and lines of small bytes: zones that there are or not, prices and amounts within the rules or 0.
fn redraw_items(draws: &mut Draws, bytes: &mut [u8]) {
    for byte in bytes.iter_mut().skip(HEAD) {
        *byte = draws.byte() % 3;
    }
}

// An hour with one byte changed, cut, lengthened or drawn anew, or any bytes.
fn drawn_string(heap: Global, draws: &mut Draws, small: &Small) -> Result<Vec<u8>, AllocError> {
    let mut bytes = small.bytes(heap)?;
    // A drawn number picks one, and says no more.
    match draws.below(5) {
        0 => change_one(draws, bytes.as_mut_slice()),
        1 => bytes.truncate(draws.below(bytes.len() as u64) as usize),
        2 => {
            let more = draws.between(1, LONGEST);
            push_drawn(draws, &mut bytes, more)?;
        }
        3 => redraw_items(draws, bytes.as_mut_slice()),
        _ => {
            bytes.clear();
            let count = draws.between(0, LONGEST);
            push_drawn(draws, &mut bytes, count)?;
        }
    }
    Ok(bytes)
}

// Slices for what the string says, or for the hour that it was made of where it says nothing; one time in four one is shorter by one
// number, if it has any.
fn drawn_sizes(draws: &mut Draws, small: &Small, bytes: &[u8]) -> Sizes {
    let sizes = Sizes::for_head(read_head(bytes).unwrap_or(Head::from(small)));
    match draws.one_of(&Slice::ALL) {
        Some(slice) if draws.below(4) == 0 => sizes.one_short(slice),
        _ => sizes,
    }
}

impl Strings {
    // Whether none was other than it should be.
    pub fn right(self) -> bool {
        self.changed == 0 && self.open == 0
    }

    pub fn try_one(&mut self, heap: Global, draws: &mut Draws) -> Result<(), AllocError> {
        let small = Small::drawn(heap, draws)?;
        let bytes = drawn_string(heap, draws, &small)?;
        let mut lent = Lent::new(heap, drawn_sizes(draws, &small, bytes.as_slice()))?;
        match lent.clear(bytes.as_slice()) {
            Err(_) => {
                self.refused = self.refused.saturating_add(1);
                if !lent.unchanged() {
                    self.changed = self.changed.saturating_add(1);
                }
            }
            Ok(_) => {
                self.cleared = self.cleared.saturating_add(1);
                if !lent.closes() {
                    self.open = self.open.saturating_add(1);
                }
            }
        }
        Ok(())
    }
}

impl fmt::Display for Strings {
    fn fmt<W: fmt::Write>(&self, f: &mut fmt::Formatter<W>) -> fmt::Result {
        let Strings {
            refused,
            changed,
            cleared,
            open,
        } = *self;
        write!(
            f,
            "{refused} refused, {changed} of them changed a slice; {cleared} cleared, {open} of them do not close"
        )
    }
}
