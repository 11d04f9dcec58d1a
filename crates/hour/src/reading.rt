// The first rule that an hour's bytes break, section by section: the head with the length, the bids, the lines.
ghost use Rattle.std.specs.Prelude.{◌≡◌, ◌+◌, ◌<◌, ◌≤◌, length, Ok, MatchOption};
ghost use Rattle.std.specs.Result.{result_err};
ghost use Rattle.hour.specs.First.{first};
ghost use Rattle.hour.specs.Refusals.{count_place};
ghost use Rattle.hour.specs.Rules.{count_fault, item_fault};
ghost use Rattle.hour.specs.Bytes.{two, in_first, limits_fault, head_read, items_read, needed_by, market_of, refusal_of};

use crate::bytes::two_bytes;
use crate::entries::Entry;
use crate::items::{Bid, Line};
use crate::refusals::{Refusal, Sort};
use crate::rules::{Lengths, check_count, check_zones};

/// How many bytes an hour's head has.
pub const HEAD_SIZE: usize = 7;

/// The counts of an hour, as its first seven bytes say.
#[derive(Clone, Copy, Debug, PartialEq, Eq)]
pub struct Head {
    pub zones: u64,
    pub buys: u64,
    pub sells: u64,
    pub lines: u64,
}

// How long slices have to be that hold the result of an hour with this head.
impl From<Head> for Lengths {
    ghost from_gives = { λ head lengths. lengths ≡ needed_by head };

    fn from(head: Head) -> Lengths {
        Lengths {
            bought: head.buys as usize,
            sold: head.sells as usize,
            flow: head.lines as usize,
            prices: head.zones as usize,
        }
    }
}

// The count in the two bytes from `i` on, or nothing where the bytes end before.
fn count_at(bytes: &[u8], i: usize) -> Option<u64>
    requires { i ≤ 5 }
    ensures { MatchOption result (length bytes.now < i + 2) (λ n. (i + 2 ≤ length bytes.now) × (n ≡ two bytes.now i)) }
{
    if bytes.len() < i + 2 {
        return None;
    }
    Some(two_bytes(bytes, i))
}

// The rule on the number of entries of a sort, looked at where the bytes of that number have come.
fn check_count_of(bytes: &[u8], sort: Sort) -> Result<(), Refusal>
    ensures { result_err result ≡ in_first (count_place sort + 2) bytes.now (count_fault sort (two bytes.now (count_place sort))) }
{
    match count_at(bytes, sort.count_place()) {
        Some(count) => check_count(sort, count),
        None => Ok(()),
    }
}

/// The first rule that the numbers of zones, buys, sells and lines break. Of a head that is cut short, what is there is looked at.
/// Whatever stands behind the head has no bearing on this.
pub fn check_limits(bytes: &[u8]) -> Result<(), Refusal>
    ensures { result_err result ≡ limits_fault bytes.now }
{
    if let Some(zones) = bytes.first() {
        check_zones(u64::from(*zones))?;
    }
    check_count_of(bytes, Sort::Buy)?;
    check_count_of(bytes, Sort::Sell)?;
    check_count_of(bytes, Sort::Line)
}

/// The head and the length, or the first rule that they break.
pub fn read_head(bytes: &[u8]) -> Result<Head, Refusal>
    ensures { result ≡ head_read bytes.now }
{
    check_limits(bytes)?;
    let cut = Refusal::Length { came: bytes.len() };
    if bytes.len() < HEAD_SIZE {
        return Err(cut);
    }
    let head = Head {
        zones: u64::from(bytes[0]),
        buys: two_bytes(bytes, 1),
        sells: two_bytes(bytes, 3),
        lines: two_bytes(bytes, 5),
    };
    if bytes.len() as u64 != 7 + 7 * (head.buys + head.sells) + 5 * head.lines {
        return Err(cut);
    }
    Ok(head)
}

// The first rule that one of `count` entries breaks, which stand behind so many bids. Entries in a list have the same loop in
// writing.rt, and rows of tables in a crate above: a closure that gives the k-th of either would need a clause as long as the loop.
fn check_each<E: Entry>(bytes: &[u8], zones: u64, bids: usize, count: usize) -> Result<(), Refusal>
    requires { E.place bids count ≤ length bytes.now }
    ensures { result_err result ≡ first count (λ k. E.fault zones (E.place bids k) (E.said bytes.now (E.place bids k))) }
{
    for k in 0..count {
        let place = E::place(bids, k);
        E::read(bytes, place).check(zones, place)?;
    }
    Ok(())
}

// The first rule that a bid or a line breaks where it stands, of bytes with this head.
fn check_each_sort(bytes: &[u8], head: Head) -> Result<(), Refusal>
    requires { head_read bytes.now ≡ Ok head }
    ensures { result_err result ≡ items_read bytes.now head }
{
    let buys = head.buys as usize;
    let sells = head.sells as usize;
    let lines = head.lines as usize;
    check_each::<Bid>(bytes, head.zones, 0, buys)?;
    check_each::<Bid>(bytes, head.zones, buys, sells)?;
    check_each::<Line>(bytes, head.zones, buys + sells, lines)
}

/// The first rule that a bid or a line breaks, of bytes with this head.
#[tactic(auto, using(crate::proofs::Heads::items_stand))]
pub fn check_items(bytes: &[u8], head: Head) -> Result<(), Refusal>
    requires { head_read bytes.now ≡ Ok head }
    ensures { result_err result ≡ item_fault (market_of bytes.now) }
{
    check_each_sort(bytes, head)
}

/// The first rule that the bytes break.
pub fn check_bytes(bytes: &[u8]) -> Result<(), Refusal>
    ensures { result_err result ≡ refusal_of bytes.now }
{
    let head = read_head(bytes)?;
    check_items(bytes, head)
}

/// The same, or nothing: then they are an hour. For a caller that wants the refusal and not the hour; it is public, and stays so.
pub fn refusal(bytes: &[u8]) -> Option<Refusal>
    ensures { result ≡ refusal_of bytes.now }
{
    check_bytes(bytes).err()
}
