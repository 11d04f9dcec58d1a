// Hours cleared in slices that are just long enough, or one number too short.
use hour::{Refusal, read_head};
use lent::{Lent, Sizes, Slice};
use std::alloc::{AllocError, Global};

// Whether the hour's ledger closes.
pub fn closing_word(heap: Global, bytes: &[u8]) -> Result<&'static str, AllocError> {
    let Ok(head) = read_head(bytes) else {
        return Ok("refused");
    };
    let mut lent = Lent::new(heap, Sizes::for_head(head))?;
    match lent.clear(bytes) {
        Err(_) => Ok("refused"),
        Ok(_) => {
            if lent.closes() {
                Ok("closes")
            } else {
                Ok("does not close")
            }
        }
    }
}

// What a clearing ended with that should be refused, and whether any number of any slice changed.
pub fn refused_word(
    heap: Global,
    ended: Result<u64, Refusal>,
    lent: &Lent,
) -> Result<String, AllocError> {
    let word = if lent.unchanged() {
        "unchanged"
    } else {
        "changed"
    };
    match ended {
        Err(refusal) => format!(in heap; "{refusal} {word}\n"),
        Ok(_) => format!(in heap; "not refused {word}\n"),
    }
}

// The same of an hour where one of the six slices, named or by its number, is too short by one number.
pub fn one_short<S: Into<Slice> + Drop>(
    heap: Global,
    bytes: &[u8],
    slice: S,
) -> Result<String, AllocError> {
    let Ok(head) = read_head(bytes) else {
        return format!(in heap; "no hour\n");
    };
    let mut lent = Lent::new(heap, Sizes::for_head(head).one_short(slice))?;
    let ended = lent.clear(bytes);
    refused_word(heap, ended, &lent)
}
