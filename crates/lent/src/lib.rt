// What a trial lends to clearing: six slices filled with one number, so that whatever is written into them shows; whether the sums of
// a ledger close; and an hour as its bytes.
#![tactic(auto)]

ghost use Rattle.std.specs.Prelude.{◌≡◌, ◌↔◌, IsTrue, IfOk, drop, length, replicate, slice_index, slice_set, take};
ghost use Rattle.std.specs.List.{All};
ghost use Rattle.hour.specs.Books.{market_in, size_of, left_by, written};
ghost use Rattle.hour.specs.Bytes.{bytes_of};
ghost use Rattle.hour.specs.Rules.{KeepsRules};
ghost use Rattle.ledger.specs.Entry.{Answer};
ghost use Rattle.lent.specs.Lending.{part_of, sizes_for, slice_numbered, shorter_at, longer, held, marked, put_at, Unchanged, sum_of, Closes};

use hour::{Book, Head, Lengths, Refusal, write};
use ledger::clear;
use std::alloc::{AllocError, Global};

/// What lent slices hold before anything is written. No amount, price or money of an hour is so large.
pub const MARK: u64 = 0xa5a5_a5a5_a5a5_a5a5;

/// The six slices, in the order in which they are lent.
#[derive(Clone, Copy)]
pub enum Slice {
    Bought,
    Sold,
    Flow,
    Price,
    Ledger,
    Work,
}

impl Slice {
    /// All six.
    pub const ALL: [Slice; 6] = [
        Slice::Bought,
        Slice::Sold,
        Slice::Flow,
        Slice::Price,
        Slice::Ledger,
        Slice::Work,
    ];

    /// Those that make a result.
    pub const RESULT: [Slice; 4] = [Slice::Bought, Slice::Sold, Slice::Flow, Slice::Price];
}

// By its number: 0 bought, 1 sold, 2 flow, 3 price, 4 ledger, and above that work.
impl From<usize> for Slice {
    ghost from_gives = { λ number slice. slice ≡ slice_numbered number };

    fn from(number: usize) -> Slice {
        match number {
            0 => Slice::Bought,
            1 => Slice::Sold,
            2 => Slice::Flow,
            3 => Slice::Price,
            4 => Slice::Ledger,
            _ => Slice::Work,
        }
    }
}

/// Something of each of the six.
#[derive(Clone, Copy, Drop)]
pub struct Slices<T> {
    pub bought: T,
    pub sold: T,
    pub flow: T,
    pub price: T,
    pub ledger: T,
    pub work: T,
}

/// How long each is.
pub type Sizes = Slices<usize>;

/// Their numbers.
pub type Lent = Slices<Vec<u64>>;

impl Slices<usize> {
    /// Just long enough for an hour with this head.
    pub fn for_head(head: Head) -> Sizes
        ensures { result ≡ sizes_for head }
    {
        let Lengths {
            bought,
            sold,
            flow,
            prices,
        } = Lengths::from(head);
        let items = bought.saturating_add(sold).saturating_add(flow);
        Slices {
            bought,
            sold,
            flow,
            price: prices,
            ledger: items.saturating_add(3),
            work: items.saturating_mul(64),
        }
    }

    /// The same with one of the slices shorter by one number, where it has any. `slice` is a `Slice`, or a slice's number.
    pub fn one_short<S: Into<Slice>>(self, slice: S) -> Sizes
        ensures { (short : _) × S.converts slice short × (result ≡ shorter_at short self) }
    {
        self.short_of(slice.into())
    }

    fn short_of(mut self, slice: Slice) -> Sizes
        ensures { result ≡ shorter_at slice self }
    {
        match slice {
            Slice::Bought => self.bought = self.bought.saturating_sub(1),
            Slice::Sold => self.sold = self.sold.saturating_sub(1),
            Slice::Flow => self.flow = self.flow.saturating_sub(1),
            Slice::Price => self.price = self.price.saturating_sub(1),
            Slice::Ledger => self.ledger = self.ledger.saturating_sub(1),
            Slice::Work => self.work = self.work.saturating_sub(1),
        }
        self
    }

    /// The same with each of the slices longer by one number.
    pub fn one_longer(self) -> Sizes
        ensures { result ≡ longer self }
    {
        Slices {
            bought: self.bought.saturating_add(1),
            sold: self.sold.saturating_add(1),
            flow: self.flow.saturating_add(1),
            price: self.price.saturating_add(1),
            ledger: self.ledger.saturating_add(1),
            work: self.work.saturating_add(1),
        }
    }
}

impl Slices<Vec<u64>> {
    /// The numbers of a slice.
    pub fn of(&self, slice: Slice) -> &[u64]
        ensures { result.now ≡ (part_of slice self.now).items }
    {
        match slice {
            Slice::Bought => self.bought.as_slice(),
            Slice::Sold => self.sold.as_slice(),
            Slice::Flow => self.flow.as_slice(),
            Slice::Price => self.price.as_slice(),
            Slice::Ledger => self.ledger.as_slice(),
            Slice::Work => self.work.as_slice(),
        }
    }

    /// How long a slice is.
    pub fn len(&self, slice: Slice) -> usize
        ensures { result ≡ length (part_of slice self.now).items }
    {
        self.of(slice).len()
    }

    /// Number `k` of a slice, or 0 behind its end.
    pub fn number(&self, slice: Slice, k: usize) -> u64
        ensures { result ≡ slice_index (part_of slice self.now).items k }
    {
        number_in(self.of(slice), k)
    }

    /// Another number in its place, where there is one. Answers what stood there, or 0 behind the slice's end.
    pub fn put(&mut self, slice: Slice, k: usize, number: u64) -> u64
        ensures before { result ≡ slice_index (part_of slice self.old).items k }
        ensures after { held self.new ≡ put_at slice k number (held self.old) }
    {
        match slice {
            Slice::Bought => put_in(self.bought.as_mut_slice(), k, number),
            Slice::Sold => put_in(self.sold.as_mut_slice(), k, number),
            Slice::Flow => put_in(self.flow.as_mut_slice(), k, number),
            Slice::Price => put_in(self.price.as_mut_slice(), k, number),
            Slice::Ledger => put_in(self.ledger.as_mut_slice(), k, number),
            Slice::Work => put_in(self.work.as_mut_slice(), k, number),
        }
    }

    /// Slices of these sizes, with nothing written yet.
    pub fn new(heap: Global, sizes: Sizes) -> Result<Lent, AllocError>
        ensures { IfOk result (λ lent. held lent ≡ marked sizes) }
    {
        Ok(Slices {
            bought: vec![in heap; MARK; sizes.bought]?,
            sold: vec![in heap; MARK; sizes.sold]?,
            flow: vec![in heap; MARK; sizes.flow]?,
            price: vec![in heap; MARK; sizes.price]?,
            ledger: vec![in heap; MARK; sizes.ledger]?,
            work: vec![in heap; MARK; sizes.work]?,
        })
    }

    /// Clears an hour in these slices. Answers how many pushes there were, or why it is refused.
    pub fn clear(&mut self, bytes: &[u8]) -> Result<u64, Refusal>
        ensures { Answer bytes.now (held self.old) result (held self.new) }
    {
        clear(
            bytes,
            self.bought.as_mut_slice(),
            self.sold.as_mut_slice(),
            self.flow.as_mut_slice(),
            self.price.as_mut_slice(),
            self.ledger.as_mut_slice(),
            self.work.as_mut_slice(),
        )
    }

    /// Whether every number of every slice is as it was lent.
    pub fn unchanged(&self) -> bool
        ensures { IsTrue result ↔ Unchanged self.now }
    {
        all_marked(self.bought.as_slice())
            && all_marked(self.sold.as_slice())
            && all_marked(self.flow.as_slice())
            && all_marked(self.price.as_slice())
            && all_marked(self.ledger.as_slice())
            && all_marked(self.work.as_slice())
    }

    /// Of slices that are just long enough for an hour, cleared: whether the ledger's rows close, so that what the buys pay is what
    /// the sells get and the lines earn, and whether the three sums behind the rows are the sums of the rows.
    pub fn closes(&self) -> bool
        ensures { IsTrue result ↔ Closes (length self.now.bought.items) (length self.now.sold.items) (length self.now.flow.items) self.now.ledger.items }
    {
        closes_for(
            self.bought.len(),
            self.sold.len(),
            self.flow.len(),
            self.ledger.as_slice(),
        )
    }
}

// Number k, or 0 behind the end.
fn number_in(numbers: &[u64], k: usize) -> u64
    ensures { result ≡ slice_index numbers.now k }
{
    numbers.get(k).copied().unwrap_or(0)
}

// The same, and another number in its place, where there is one.
fn put_in(numbers: &mut [u64], k: usize, number: u64) -> u64
    ensures before { result ≡ slice_index numbers.old k }
    ensures after { numbers.new ≡ slice_set numbers.old k number }
{
    let before = number_in(numbers, k);
    if k < numbers.len() {
        numbers[k] = number;
    }
    before
}

// Whether nothing else was written here.
fn all_marked(numbers: &[u64]) -> bool
    ensures { IsTrue result ↔ All (λ n. n ≡ MARK) numbers.now }
{
    numbers.iter().all(|number| *number == MARK)
}

// The first so many numbers, or all where there are fewer, and those behind them.
fn split(numbers: &[u64], count: usize) -> (&[u64], &[u64])
    ensures first { result.0.now ≡ take count numbers.now }
    ensures behind { result.1.now ≡ drop count numbers.now }
{
    numbers.split_at(count.min(numbers.len()))
}

// The sum, which wraps, as that of the i64 does that the same bits say.
fn sum_of(numbers: &[u64]) -> u64
    ensures { result ≡ sum_of numbers.now }
{
    let mut sum = 0u64;
    for money in numbers {
        sum = sum.wrapping_add(*money);
    }
    sum
}

// Whether the rows of so many buys, sells and lines close, and the three sums behind them are theirs.
fn closes_for(buys: usize, sells: usize, lines: usize, ledger: &[u64]) -> bool
    ensures { IsTrue result ↔ Closes buys sells lines ledger.now }
{
    let (of_buys, behind_buys) = split(ledger, buys);
    let (of_sells, behind_sells) = split(behind_buys, sells);
    let (of_lines, sums) = split(behind_sells, lines);
    let paid = sum_of(of_buys);
    let got = sum_of(of_sells);
    let earned = sum_of(of_lines);
    paid == got.wrapping_add(earned)
        && number_in(sums, 0) == paid
        && number_in(sums, 1) == got
        && number_in(sums, 2) == earned
}

// How many bytes an hour has.
fn size_of(book: Book<'_>) -> usize
    ensures { result ≡ size_of (market_in book.entry) }
{
    7 + 7 * (book.buys.len() + book.sells.len()) + 5 * book.lines.len()
}

/// The bytes of an hour, in a vector of the right size. They are zeros, which are refused, where it breaks a rule.
pub fn written(heap: Global, book: Book<'_>) -> Result<Vec<u8>, AllocError>
    ensures whole { IfOk result (λ bytes. KeepsRules (market_in book.entry) → bytes.items ≡ bytes_of (market_in book.entry)) }
    ensures exact { IfOk result (λ bytes. bytes.items ≡ left_by (market_in book.entry) (written (market_in book.entry) (size_of (market_in book.entry))) (replicate (size_of (market_in book.entry)) 0)) }
{
    let mut bytes = vec![in heap; 0u8; size_of(book)]?;
    let _ = write(book, bytes.as_mut_slice());
    Ok(bytes)
}
