// An hour's bids and lines, written as bytes.
ghost use Rattle.std.specs.Prelude.{◌≡◌, ◌*◌, ◌^◌, ◌<◌, ◌≤◌, false, ◌++◌, length, drop, is_some, slice_index_or};
ghost use Rattle.std.proofs.Math.Seq.{paste};
ghost use Rattle.std.specs.List.{flat_map};
ghost use Rattle.std.specs.Result.{result_err};
ghost use Rattle.hour.specs.Bytes.{head_bytes, bytes_of};
ghost use Rattle.hour.specs.First.{first};
ghost use Rattle.hour.specs.Rules.{shape_fault, item_fault};
ghost use Rattle.hour.specs.Books.{market_in, size_of, write_fault, written, left_by};

use crate::books::Book;
use crate::bytes::put_low;
use crate::entries::Entry;
use crate::items::Line;
use crate::refusals::Refusal;
use crate::rules::{check_counts, check_lent};

// Each of a list, behind so many bids.
fn put_each<E: Entry>(out: &mut [u8], bids: usize, list: &[E])
    requires { E.place bids (length list.now) ≤ length out.old }
    ensures { out.new ≡ paste out.old (E.place bids 0) (flat_map E.written list.now) (E.size * length list.now) }
{
    for (k, entry) in list.iter().enumerate() {
        entry.put(out, E::place(bids, k));
    }
}

fn put_head(out: &mut [u8], book: Book<'_>)
    requires { 7 ≤ length out.old }
    ensures { out.new ≡ paste out.old 0 (head_bytes (market_in book.entry)) 7 }
{
    put_low(out, 0, 1, book.zones);
    put_low(out, 1, 2, book.buys.len() as u64);
    put_low(out, 3, 2, book.sells.len() as u64);
    put_low(out, 5, 2, book.lines.len() as u64);
}

// The first rule that one of a list breaks, behind so many bids, as of entries in bytes in reading.rt.
fn check_each<E: Entry>(zones: u64, bids: usize, list: &[E]) -> Result<(), Refusal>
    requires { E.place bids (length list.now) < 2 ^ 64 }
    ensures { result_err result ≡ first (length list.now) (λ k. E.fault zones (E.place bids k) (slice_index_or list.now k E.absent)) }
{
    for (k, entry) in list.iter().enumerate() {
        entry.check(zones, E::place(bids, k))?;
    }
    Ok(())
}

// The first rule on the numbers of zones, buys, sells and lines that is broken.
fn check_shape(book: Book<'_>) -> Result<(), Refusal>
    ensures { result_err result ≡ shape_fault (market_in book.entry) }
{
    check_counts(
        book.zones,
        book.buys.len() as u64,
        book.sells.len() as u64,
        book.lines.len() as u64,
    )
}

// The first rule that a bid or a line breaks, of an hour that is not too large.
fn check_items(book: Book<'_>) -> Result<(), Refusal>
    requires { is_some (shape_fault (market_in book)) ≡ false }
    ensures { result_err result ≡ item_fault (market_in book.entry) }
{
    let buys = book.buys.len();
    let bids = buys + book.sells.len();
    check_each(book.zones, 0, book.buys)?;
    check_each(book.zones, buys, book.sells)?;
    check_each(book.zones, bids, book.lines)
}

// Why an hour is not written into a slice of so many bytes, in the order in which a reader would look: the shape, then the
// lent slice, which has number 0, then the bids and lines.
fn check_book(book: Book<'_>, lent: usize) -> Result<(), Refusal>
    ensures { result_err result ≡ write_fault (market_in book.entry) lent }
{
    check_shape(book)?;
    let bids = book.buys.len() + book.sells.len();
    check_lent(0, lent, Line::place(bids, book.lines.len()))?;
    check_items(book)
}

// The bytes of an hour at the start of a slice that has room for them.
fn put_hour(out: &mut [u8], book: Book<'_>) -> usize
    requires { size_of (market_in book) ≤ length out.old }
    ensures size { result ≡ size_of (market_in book.entry) }
    ensures bytes { out.new ≡ bytes_of (market_in book.entry) ++ drop (size_of (market_in book.entry)) out.old }
{
    let buys = book.buys.len();
    let bids = buys + book.sells.len();
    put_head(out, book);
    put_each(out, 0, book.buys);
    put_each(out, buys, book.sells);
    put_each(out, bids, book.lines);
    Line::place(bids, book.lines.len())
}

// Writes an hour that keeps the rules, and answers how many bytes it has. Nothing is written on a refusal.
pub fn write(book: Book<'_>, out: &mut [u8]) -> Result<usize, Refusal>
    ensures answer { result ≡ written (market_in book.entry) (length out.old) }
    ensures bytes { out.new ≡ left_by (market_in book.entry) result out.old }
{
    check_book(book, out.len())?;
    Ok(put_hour(out, book))
}
