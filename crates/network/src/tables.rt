// A market and an outcome in tables of numbers: what it is worth, and each zone's balance.
// A table has a row of three numbers for each item: zone, price, amount of a bid; from, to, capacity of a line. It is lent as a
// flat list of numbers, and so are amounts and flows, of which there may be fewer than rows.
ghost use Rattle.std.specs.Prelude.{◌≡◌, ℕ, length, ◌+◌, ◌-◌, ◌*◌, ◌^◌, ◌<◌, ◌≤◌, MatchOption};
ghost use Rattle.std.specs.Option.{SomeIff};
ghost use Rattle.hour.specs.Market.{at, in_zone, into, out_of, worth};
ghost use Rattle.network.specs.Given.{outcome_given};
ghost use Rattle.network.specs.Network.{carried, nth};
ghost use Rattle.network.specs.Tables.{items, triples, of_numbers, nth_row, bids_in, lines_in, zone_total, column_no};

pub use hour::number_at;
use hour::{Bid, Item, Line};

#[derive(Clone, Copy)]
pub struct Tables<'a> {
    pub zones: u64,
    pub buys: &'a [u64],
    pub sells: &'a [u64],
    pub lines: &'a [u64],
}

/// An amount for each bid and a flow for each line; a number that a list lacks is 0.
#[derive(Clone, Copy)]
pub struct Amounts<'a> {
    pub bought: &'a [u64],
    pub sold: &'a [u64],
    pub flow: &'a [u64],
}

impl Amounts<'_> {
    /// How much an item carries.
    pub fn of(self, item: Item) -> u64
        ensures { result ≡ carried (outcome_given self.entry) item }
    {
        match item {
            Item::Buy(k) => number_at(self.bought, k),
            Item::Sell(k) => number_at(self.sold, k),
            Item::Line(k) => number_at(self.flow, k),
        }
    }
}

// A table's rows; one or two numbers at its end that make no row do not count.
#[tactic(auto, using(crate::proofs::Triples::cut_in_triples))]
fn rows(table: &[u64]) -> &[[u64; 3]]
    ensures each { result.now ≡ triples table.now }
    ensures count { length result.now ≡ items table.now }
{
    table.as_chunks::<3>().0
}

/// How many rows a table has.
pub fn row_count(table: &[u64]) -> usize
    ensures { result ≡ items table.now }
{
    rows(table).len()
}

/// What a row of a table says, made of its three numbers.
pub trait Row: Sized {
    ghost made: { ℕ → ℕ → ℕ → Self };

    fn of(first: u64, second: u64, third: u64) -> Self
        ensures { result ≡ made first second third };
}

impl Row for Bid {
    ghost made = { λ zone price amount. record { zone = zone; price = price; amount = amount } };

    fn of(zone: u64, price: u64, amount: u64) -> Bid {
        Bid {
            zone,
            price,
            amount,
        }
    }
}

impl Row for Line {
    ghost made = { λ from to capacity. record { from = from; to = to; capacity = capacity; cost = 0 } };

    fn of(from: u64, to: u64, capacity: u64) -> Line {
        Line {
            from,
            to,
            capacity,
            cost: 0,
        }
    }
}

fn row_of<R: Row>(row: [u64; 3]) -> R
    ensures { result ≡ of_numbers R.made row }
{
    let [first, second, third] = row;
    R::of(first, second, third)
}

/// The k-th row of a table.
#[tactic(auto, using(crate::proofs::Triples::row_made))]
pub fn row_in<R: Row>(table: &[u64], k: usize) -> R
    requires { k < items table.now }
    ensures { result ≡ nth_row R.made table.now k }
{
    row_of(rows(table)[k])
}

/// Past the end of the table all three numbers are 0.
#[tactic(auto, using(crate::proofs::Triples::row_made))]
pub fn row_at<R: Row>(table: &[u64], k: usize) -> R
    ensures { result ≡ nth_row R.made table.now k }
{
    row_of(rows(table).get(k).copied().unwrap_or([0; 3]))
}

/// Item k of all: buys first, then sells, then lines.
pub fn item_at(t: Tables, k: usize) -> Item
    ensures { result ≡ nth (items t.entry.buys.now) (items t.entry.sells.now) k }
{
    let buys = row_count(t.buys);
    let sells = row_count(t.sells);
    if k < buys {
        Item::Buy(k)
    } else if k - buys < sells {
        Item::Sell(k - buys)
    } else {
        Item::Line(k - buys - sells)
    }
}

pub fn item_count(t: Tables) -> usize
    ensures { result ≡ items t.entry.buys.now + items t.entry.sells.now + items t.entry.lines.now }
{
    row_count(t.buys) + row_count(t.sells) + row_count(t.lines)
}

/// What amounts are worth at the prices of their bids; none where that is too large for 128 bits.
#[tactic(auto, using(crate::proofs::Rows::worth_turn))]
pub fn bids_worth(bids: &[u64], amounts: &[u64]) -> Option<u128>
    ensures { SomeIff
        result
        (worth (bids_in bids.now) amounts.now < 2 ^ 128)
        (worth (bids_in bids.now) amounts.now) }
{
    let mut sum: u128 = 0;
    for (k, row) in rows(bids).iter().enumerate() {
        let bid: Bid = row_of(*row);
        sum = sum.checked_add(u128::from(bid.price) * u128::from(number_at(amounts, k)))?;
    }
    Some(sum)
}

/// What an outcome is worth: `gained` less `spent`.
#[derive(Clone, Copy)]
pub struct Worth {
    pub gained: u128,
    pub spent: u128,
}

/// None where what is bought or what is sold is worth too much for 128 bits.
pub fn worth_of(t: Tables, o: Amounts) -> Option<Worth>
    ensures { MatchOption
        result
        (worth (bids_in t.entry.buys.now) o.entry.bought.now < 2 ^ 128 →
        worth (bids_in t.entry.sells.now) o.entry.sold.now < 2 ^ 128 → ⊥)
        (λ w.
        (w.gained ≡ worth (bids_in t.entry.buys.now) o.entry.bought.now)
        × (w.spent ≡ worth (bids_in t.entry.sells.now) o.entry.sold.now)) }
{
    Some(Worth {
        gained: bids_worth(t.buys, o.bought)?,
        spent: bids_worth(t.sells, o.sold)?,
    })
}

// A column that holds zones: that of a bid, or those where a line begins and ends.
#[derive(Clone, Copy)]
enum Column {
    Zone,
    From,
    To,
}

impl Column {
    fn of(self, row: &[u64; 3]) -> u64
        ensures { result ≡ at row.now (column_no self) }
    {
        match (self, row) {
            (Column::Zone, [zone, _, _]) => *zone,
            (Column::From, [from, _, _]) => *from,
            (Column::To, [_, to, _]) => *to,
        }
    }
}

// The amounts, together, of those items that have the zone in a column.
#[tactic(auto, using(crate::proofs::Triples::cell_in))]
fn zone_total(table: &[u64], column: Column, zone: u64, amounts: &[u64]) -> u128
    ensures value { result ≡ zone_total table.now (column_no column) zone amounts.now }
    ensures small { result ≤ (2 ^ 64 - 1) * items table.now }
{
    let mut sum: u128 = 0;
    for (k, row) in rows(table).iter().enumerate() {
        if column.of(row) == zone {
            sum += u128::from(number_at(amounts, k));
        }
    }
    sum
}

/// What is sold in a zone and flows in, and what is bought there and flows out.
#[derive(Clone, Copy)]
pub struct Balance {
    pub comes: u128,
    pub goes: u128,
}

#[tactic(auto, using(crate::proofs::Rows::in_zone_in, crate::proofs::Rows::into_in, crate::proofs::Rows::out_of_in))]
pub fn balance_at(t: Tables, o: Amounts, zone: u64) -> Balance
    ensures comes { result.comes
        ≡ in_zone zone (bids_in t.entry.sells.now) o.entry.sold.now
        + into zone (lines_in t.entry.lines.now) o.entry.flow.now }
    ensures goes { result.goes
        ≡ in_zone zone (bids_in t.entry.buys.now) o.entry.bought.now
        + out_of zone (lines_in t.entry.lines.now) o.entry.flow.now }
{
    let comes = zone_total(t.sells, Column::Zone, zone, o.sold)
        + zone_total(t.lines, Column::To, zone, o.flow);
    let goes = zone_total(t.buys, Column::Zone, zone, o.bought)
        + zone_total(t.lines, Column::From, zone, o.flow);
    Balance { comes, goes }
}
