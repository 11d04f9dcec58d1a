// What is published of an hour, from its bytes to its text.
ghost use Rattle.std.specs.Prelude.{◌≡◌, [], ◌∷◌, false, is_none, IfOk, Ok, string_bytes};
ghost use Rattle.hour.specs.Bytes.{head_read, refusal_of};
ghost use Rattle.hour.specs.Text.{row, refused};
ghost use Rattle.ledger.specs.Published.{Published};

use crate::cleared::Cleared;
use crate::entry::clear;
use crate::text::result_text;
use hour::{Head, Hour, Refusal, read_head};
use network::Amounts;
use std::alloc::{AllocError, Global};

/// What is published of an hour's bytes.
#[derive(Drop)]
pub struct Publication {
    /// The result of the hour, or the row of its refusal.
    pub text: String,
    /// Whether the hour was cleared; otherwise it was refused.
    pub cleared: bool,
}

/// What is published of bytes that are refused. An error is want of memory.
pub fn published_refusal(heap: Global, refusal: Refusal) -> Result<Publication, AllocError>
    ensures text { IfOk result (λ p. string_bytes p.text ≡ row (refused refusal ∷ [])) }
    ensures cleared { IfOk result (λ p. p.cleared ≡ false) }
{
    let text = format!(in heap; "{refusal}\n")?;
    Ok(Publication {
        text,
        cleared: false,
    })
}

// What is published of an hour whose head is sound, cleared in slices that are just long enough.
fn published_whole(heap: Global, bytes: &[u8], head: Head) -> Result<Publication, AllocError>
    requires { head_read bytes.now ≡ Ok head }
    ensures text { IfOk result (λ p. Published bytes.now (string_bytes p.text)) }
    ensures cleared { IfOk result (λ p. p.cleared ≡ is_none (refusal_of bytes.now)) }
{
    let items = (head.buys + head.sells + head.lines) as usize;
    let mut bought = vec![in heap; 0u64; head.buys as usize]?;
    let mut sold = vec![in heap; 0u64; head.sells as usize]?;
    let mut flow = vec![in heap; 0u64; head.lines as usize]?;
    let mut price = vec![in heap; 0u64; head.zones as usize]?;
    let mut ledger = vec![in heap; 0u64; items + 3]?;
    let mut work = vec![in heap; 0u64; 64 * items]?;
    let cleared = clear(
        bytes,
        bought.as_mut_slice(),
        sold.as_mut_slice(),
        flow.as_mut_slice(),
        price.as_mut_slice(),
        ledger.as_mut_slice(),
        work.as_mut_slice(),
    );
    match cleared {
        Err(refusal) => published_refusal(heap, refusal),
        Ok(pushes) => {
            let cleared = Cleared {
                hour: Hour::of(bytes),
                amounts: Amounts {
                    bought: bought.as_slice(),
                    sold: sold.as_slice(),
                    flow: flow.as_slice(),
                },
                prices: price.as_slice(),
            };
            let text = result_text(heap, cleared, pushes, ledger.as_slice())?;
            Ok(Publication {
                text,
                cleared: true,
            })
        }
    }
}

/// What is published of any bytes: the row of their refusal, or the result of the hour that they say. An error is want of memory.
pub fn published(heap: Global, bytes: &[u8]) -> Result<Publication, AllocError>
    ensures text { IfOk result (λ p. Published bytes.now (string_bytes p.text)) }
    ensures cleared { IfOk result (λ p. p.cleared ≡ is_none (refusal_of bytes.now)) }
{
    match read_head(bytes) {
        Ok(head) => published_whole(heap, bytes, head),
        Err(refusal) => published_refusal(heap, refusal),
    }
}
