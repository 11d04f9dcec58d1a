// Results that differ from a published one in one number, by one unit, held before the checker.
use checker::lowest;
use hour::read_head;
use lent::{Lent, Sizes, Slice};
use std::alloc::{AllocError, Global};
use std::fmt;

// How many such results there are, and how many of them are accepted with the lowest prices.
#[derive(Clone, Copy, Default)]
pub struct Changed {
    tried: u64,
    stand: u64,
}

impl fmt::Display for Changed {
    fn fmt<W: fmt::Write>(&self, f: &mut fmt::Formatter<W>) -> fmt::Result {
        let Changed { tried, stand } = *self;
        write!(f, "{tried} changed by one, {stand} of them stand")
    }
}

fn stands(bytes: &[u8], lent: &Lent, marks: &mut [u64]) -> bool {
    let lower = lowest(
        bytes,
        lent.bought.as_slice(),
        lent.sold.as_slice(),
        lent.flow.as_slice(),
        lent.price.as_slice(),
        marks,
    );
    lower == Ok(None)
}

// One number of a slice, and back again.
fn try_number(
    bytes: &[u8],
    lent: &mut Lent,
    slice: Slice,
    k: usize,
    number: u64,
    marks: &mut [u64],
) -> bool {
    let before = lent.put(slice, k, number);
    let stood = stands(bytes, lent, marks);
    lent.put(slice, k, before);
    stood
}

fn try_changes(bytes: &[u8], lent: &mut Lent, marks: &mut [u64]) -> Changed {
    let mut changed = Changed::default();
    for slice in Slice::RESULT {
        for k in 0..lent.len(slice) {
            let number = lent.number(slice, k);
            for other in [number.checked_add(1), number.checked_sub(1)] {
                let Some(other) = other else { continue };
                changed.tried = changed.tried.saturating_add(1);
                if try_number(bytes, lent, slice, k, other, marks) {
                    changed.stand = changed.stand.saturating_add(1);
                }
            }
        }
    }
    changed
}

// Of the published result of an hour; none where it is refused.
pub fn changed_by_one(heap: Global, bytes: &[u8]) -> Result<Changed, AllocError> {
    let Ok(head) = read_head(bytes) else {
        return Ok(Changed::default());
    };
    let mut lent = Lent::new(heap, Sizes::for_head(head))?;
    if lent.clear(bytes).is_err() {
        return Ok(Changed::default());
    }
    let mut marks = vec![in heap; 0u64; head.zones as usize]?;
    Ok(try_changes(bytes, &mut lent, marks.as_mut_slice()))
}
