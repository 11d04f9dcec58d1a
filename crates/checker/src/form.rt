// Reading a published text, row by row.
ghost use Rattle.std.specs.Prelude.{◌≡◌, ◌+◌, ◌^◌, ◌<◌};
ghost use Rattle.std.specs.declared.alloc.AllocError.{AllocError};
ghost use Rattle.checker.specs.declared.form.Stop.TheVariants.{Memory};
ghost use Rattle.checker.specs.Reading.{seen};
ghost use Rattle.checker.specs.Form.{phrasing, phrased, worth_at, zone_at, row_at, item_at, zones_at, items_at};
ghost use Rattle.checker.specs.Form.{rows_of, first_line, last_line, text_at, prices_seen, table_seen, said_seen, AnswersAs};

use crate::reading::{after, amount, index, price, whole};
use hour::{MAX_BIDS, MAX_LINES, MAX_ZONES, Sort};
use std::alloc::{AllocError, AllocFailed, Global};

// No row in the form has more bytes. A row of a line has the longest words, of 5, 9 and 7; the number of the line and its amount
// have at most 20 digits each, its money a minus and 39; and there is the line break.
const LONGEST_ROW: usize = 5 + 20 + 9 + 20 + 7 + 40 + 1;

/// No text in the form has more bytes, of any hour. What is read of a longer text is what is read of any front of it that is also
/// longer than this, so nobody has to read on.
pub const LONGEST_TEXT: usize = LONGEST_ROW
    * (1 + MAX_ZONES as usize + MAX_BIDS as usize + MAX_BIDS as usize + MAX_LINES as usize);

/// What stands around the numbers in a row of a sort.
#[derive(Clone, Copy)]
pub struct Phrases<'a> {
    pub sort: &'a str,
    pub has: &'a str,
    pub pays: &'a str,
}

fn phrases_of(sort: Sort) -> Phrases<'static>
    ensures { phrased result ≡ phrasing sort }
{
    match sort {
        Sort::Buy => Phrases {
            sort: "buy ",
            has: " has ",
            pays: " pays ",
        },
        Sort::Sell => Phrases {
            sort: "sell ",
            has: " has ",
            pays: " gets ",
        },
        Sort::Line => Phrases {
            sort: "line ",
            has: " carries ",
            pays: " earns ",
        },
    }
}

fn worth_row<'a>(bytes: &'a [u8]) -> Option<((i128, u64), &'a [u8])>
    ensures { seen result ≡ worth_at bytes.now }
{
    let rest = after("worth ", bytes)?;
    let (worth, rest) = whole(rest)?;
    let rest = after(" pushes ", rest)?;
    let (pushes, rest) = amount(rest)?;
    let rest = after("\n", rest)?;
    Some(((worth, pushes), rest))
}

fn zone_row<'a>(zone: usize, bytes: &'a [u8]) -> Option<(u64, &'a [u8])>
    ensures { seen result ≡ zone_at zone bytes.now }
{
    let rest = after("zone ", bytes)?;
    let rest = index(zone, rest)?;
    let rest = after(" price ", rest)?;
    let (price, rest) = price(rest)?;
    let rest = after("\n", rest)?;
    Some((price, rest))
}

fn phrased_row<'a>(words: Phrases<'_>, k: usize, bytes: &'a [u8]) -> Option<((u64, i128), &'a [u8])>
    ensures { seen result ≡ row_at (phrased words.entry) k bytes.now }
{
    let rest = after(words.sort, bytes)?;
    let rest = index(k, rest)?;
    let rest = after(words.has, rest)?;
    let (amount, rest) = amount(rest)?;
    let rest = after(words.pays, rest)?;
    let (money, rest) = whole(rest)?;
    let rest = after("\n", rest)?;
    Some(((amount, money), rest))
}

fn item_row<'a>(sort: Sort, k: usize, bytes: &'a [u8]) -> Option<((u64, i128), &'a [u8])>
    ensures { seen result ≡ item_at sort k bytes.now }
{
    phrased_row(phrases_of(sort), k, bytes)
}

/// Why a text is not read: memory is wanting, or this line is not in the form.
#[derive(Clone, Copy)]
pub enum Stop {
    Memory(AllocError),
    Line(usize),
}

impl<T: Drop> From<AllocFailed<T>> for Stop {
    ghost from_gives = { λ _ stop. (error : AllocError) × (stop ≡ Memory error) };

    fn from(failed: AllocFailed<T>) -> Stop {
        Stop::Memory(AllocError::from(failed))
    }
}

/// What the rows of the zones say, and the text behind them.
#[derive(Drop)]
pub struct Zones<'a> {
    pub prices: Vec<u64>,
    pub rest: &'a [u8],
}

/// What the rows of a sort say, and the text behind them. Amounts are a list of their own, since a claim takes them alone.
#[derive(Drop)]
pub struct Rows<'a> {
    pub amounts: Vec<u64>,
    pub moneys: Vec<i128>,
    pub rest: &'a [u8],
}

/// How many of each an hour has.
#[derive(Clone, Copy)]
pub struct Counts {
    pub zones: usize,
    pub buys: usize,
    pub sells: usize,
    pub lines: usize,
}

impl Counts {
    fn rows(self, sort: Sort) -> usize
        ensures { result ≡ rows_of self sort }
    {
        match sort {
            Sort::Buy => self.buys,
            Sort::Sell => self.sells,
            Sort::Line => self.lines,
        }
    }

    /// The line at which the rows of a sort begin.
    pub fn first_line(self, sort: Sort) -> usize
        requires { first_line self sort < 2 ^ 64 }
        ensures { result ≡ first_line self sort }
    {
        match sort {
            Sort::Buy => 2 + self.zones,
            Sort::Sell => 2 + self.zones + self.buys,
            Sort::Line => 2 + self.zones + self.buys + self.sells,
        }
    }
}

// The rows of n zones, the first of them at the second line. One list is filled here and two for a sort: in a function for both,
// what is filled would be a parameter and its contract longer than the loop.
fn zone_rows<'a>(heap: Global, n: usize, bytes: &'a [u8]) -> Result<Zones<'a>, Stop>
    requires { 2 + n < 2 ^ 64 }
    ensures { AnswersAs result prices_seen (zones_at 2 n bytes.now) }
{
    let mut prices = Vec::new(heap);
    let mut rest = bytes;
    for zone in 0..n {
        let (price, behind) = zone_row(zone, rest).ok_or(Stop::Line(2 + zone))?;
        prices.push(price)?;
        rest = behind;
    }
    Ok(Zones { prices, rest })
}

// The rows of a sort.
fn item_rows<'a>(heap: Global, sort: Sort, n: Counts, bytes: &'a [u8]) -> Result<Rows<'a>, Stop>
    requires { first_line n sort + rows_of n sort < 2 ^ 64 }
    ensures { AnswersAs result table_seen (items_at sort (first_line n sort) (rows_of n sort) bytes.now) }
{
    let line = n.first_line(sort);
    let mut amounts = Vec::new(heap);
    let mut moneys = Vec::new(heap);
    let mut rest = bytes;
    for k in 0..n.rows(sort) {
        let ((amount, money), behind) = item_row(sort, k, rest).ok_or(Stop::Line(line + k))?;
        amounts.push(amount)?;
        moneys.push(money)?;
        rest = behind;
    }
    Ok(Rows {
        amounts,
        moneys,
        rest,
    })
}

/// All that a text says.
#[derive(Drop)]
pub struct Said<'a> {
    pub worth: i128,
    pub pushes: u64,
    pub zones: Zones<'a>,
    pub buys: Rows<'a>,
    pub sells: Rows<'a>,
    pub lines: Rows<'a>,
}

/// What a published text says of an hour with so many zones, buys, sells and lines; or its first line that is not in the form.
pub fn read_text<'a>(heap: Global, n: Counts, bytes: &'a [u8]) -> Result<Said<'a>, Stop>
    requires { last_line n < 2 ^ 64 }
    ensures { AnswersAs result said_seen (text_at n bytes.now) }
{
    let ((worth, pushes), rest) = worth_row(bytes).ok_or(Stop::Line(1))?;
    let zones = zone_rows(heap, n.zones, rest)?;
    let buys = item_rows(heap, Sort::Buy, n, zones.rest)?;
    let sells = item_rows(heap, Sort::Sell, n, buys.rest)?;
    let lines = item_rows(heap, Sort::Line, n, sells.rest)?;
    if !lines.rest.is_empty() {
        return Err(Stop::Line(n.first_line(Sort::Line) + n.lines));
    }
    Ok(Said {
        worth,
        pushes,
        zones,
        buys,
        sells,
        lines,
    })
}
