//! Clearing an hour from a reader to a writer.
ghost use Rattle.std.specs.Prelude.{◌≡◌, ℕ, List, cond, None, IfOk, IfErr, IfSome, take, string_bytes};
ghost use Rattle.office.specs.Clearing.{PublicationOf, HourAnswered, Routed, ClearedTo, NoAnswer, Faulted};
ghost use Rattle.office.specs.Hints.{hour_hint};
ghost use Rattle.office.specs.Reading.{HourSaid};
ghost use Rattle.office.specs.Writing.{taken};

use crate::faults::Fault;
use crate::hints::{Hint, hour_hint};
use crate::reading::{Came, read_hour};
use crate::writing::deliver;
use hour::HEAD_SIZE;
use ledger::{Publication, published, published_refusal};
use std::alloc::{AllocError, Global};
use std::io;
use std::io::{Read, Write};

/// What a program has answered.
#[derive(Clone, Copy, Debug, PartialEq, Eq)]
pub struct Answer {
    /// Whether the hour was cleared, or the result stands.
    pub good: bool,
    /// Whether the answer was taken whole; otherwise whoever reads it has gone.
    pub whole: bool,
    /// What may be wrong with the input.
    pub hint: Option<Hint>,
}

// What is published of an hour, and what may be wrong with it.
#[derive(Drop)]
struct Said {
    publication: Publication,
    hint: Option<Hint>,
}

// The bytes that an hour's head may take.
pub(crate) fn head_of(bytes: &[u8]) -> &[u8]
    ensures { result.now ≡ take 7 bytes.now }
{
    if bytes.len() <= HEAD_SIZE {
        bytes
    } else {
        &bytes[..HEAD_SIZE]
    }
}

// What is published of an hour of which so much came.
fn publication_of(heap: Global, came: &Came) -> Result<Publication, AllocError>
    ensures { IfOk result (λ publication. (bs : List ℕ) → HourSaid bs came.now.refusal came.now.bytes.items →
        PublicationOf bs (string_bytes publication.text) publication.cleared) }
{
    match came.refusal {
        Some(refusal) => published_refusal(heap, refusal),
        None => published(heap, came.bytes.as_slice()),
    }
}

fn hint_unless(cleared: bool, bytes: &[u8]) -> Option<Hint>
    ensures { result ≡ cond cleared None (hour_hint (take 7 bytes.now)) }
{
    if cleared {
        None
    } else {
        hour_hint(head_of(bytes))
    }
}

// What is published of the hour that a reader has.
fn publish_from<R: Read>(heap: Global, hour: &mut R) -> Result<Said, Fault>
    ensures said { IfOk result (λ said. IfSome (R.remaining hour.old) (λ bs.
        HourAnswered bs (R.remaining hour.new) (string_bytes said.publication.text) said.publication.cleared said.hint)) }
    ensures fault { IfErr result NoAnswer }
{
    let came = match read_hour(heap, hour) {
        Ok(came) => came,
        Err(error) => return Err(Fault::Hour(error)),
    };
    let publication = publication_of(heap, &came)?;
    let hint = hint_unless(publication.cleared, came.bytes.as_slice());
    Ok(Said { publication, hint })
}

// Writes a result to the first writer, a refusal to the second.
fn route<W: Write, V: Write>(
    cleared: bool,
    text: &[u8],
    results: &mut W,
    refusals: &mut V,
) -> io::Result<bool>
    ensures { Routed cleared text.now (taken result) (W.contents results.old) (W.contents results.new) (V.contents refusals.old) (V.contents refusals.new) }
{
    if cleared {
        deliver(results, text)
    } else {
        deliver(refusals, text)
    }
}

/// Clears the hour that a reader has: what is published of it is written, a result to `results` and a refusal to `refusals`.
pub fn clear_hour<R: Read, W: Write, V: Write>(
    heap: Global,
    hour: &mut R,
    results: &mut W,
    refusals: &mut V,
) -> Result<Answer, Fault>
    ensures answered { IfOk result (λ answer. ClearedTo (R.remaining hour.old) (R.remaining hour.new) answer
        (W.contents results.old) (W.contents results.new) (V.contents refusals.old) (V.contents refusals.new)) }
    ensures fault { IfErr result (λ fault. Faulted (R.remaining hour.old) fault
        (W.contents results.old) (W.contents results.new) (V.contents refusals.old) (V.contents refusals.new)) }
{
    let said = publish_from(heap, hour)?;
    let cleared = said.publication.cleared;
    let text = said.publication.text.as_bytes();
    match route(cleared, text, results, refusals) {
        Ok(whole) => Ok(Answer {
            good: cleared,
            whole,
            hint: said.hint,
        }),
        Err(error) => Err(Fault::Answer(error)),
    }
}
