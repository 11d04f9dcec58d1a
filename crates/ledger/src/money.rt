// The money of one item: what a buyer pays, a seller gets, a line earns.
ghost use Rattle.std.specs.Prelude.{◌≡◌, ◌≤◌};
ghost use Rattle.hour.specs.Rules.{max_price, max_amount};
ghost use Rattle.network.specs.Network.{Among};
ghost use Rattle.hour.specs.Seen.{market_seen};
ghost use Rattle.ledger.specs.Money.{above, base, owed, asked};
ghost use Rattle.ledger.specs.Cleared.{money_in};

use crate::cleared::Cleared;
use hour::{Hour, Item, ZERO_PRICE};

// So many units at one price less another.
#[tactic(auto, using(crate::proofs::Product::product_fits, crate::proofs::Product::product_back))]
fn owed(above: u64, base: u64, amount: u64) -> i64
    requires { (above ≤ max_price) × ((base ≤ max_price) × (amount ≤ max_amount)) }
    ensures { result ≡ owed above base amount }
{
    (above as i64 - base as i64) * amount as i64
}

/// The zone's price for a bid, and for a line what a unit brings it. Here and below an item has to be one of the hour's: that is a bound
/// on its number, as a slice asks of an index.
pub fn price_above(hour: Hour<'_>, prices: &[u64], item: Item) -> u64
    requires { Among (market_seen hour) item }
    ensures { result ≡ above (market_seen hour.entry) prices.now item }
{
    let terms = hour.terms(prices, item);
    match item {
        Item::Buy(_) => terms.cost,
        Item::Sell(_) | Item::Line(_) => terms.value,
    }
}

/// No money for a bid, and for a line what a unit costs it.
pub fn price_below(hour: Hour<'_>, prices: &[u64], item: Item) -> u64
    requires { Among (market_seen hour) item }
    ensures { result ≡ base (market_seen hour.entry) prices.now item }
{
    match item {
        Item::Buy(_) | Item::Sell(_) => ZERO_PRICE,
        Item::Line(_) => hour.terms(prices, item).cost,
    }
}

/// The price that a bid has itself; the cost of a line.
pub fn price_asked(hour: Hour<'_>, item: Item) -> u64
    requires { Among (market_seen hour) item }
    ensures { result ≡ asked (market_seen hour.entry) item }
{
    match item {
        Item::Buy(k) => hour.buy(k).price,
        Item::Sell(k) => hour.sell(k).price,
        Item::Line(k) => hour.line(k).cost,
    }
}

impl Cleared<'_, '_, '_> {
    pub fn money_of(self, item: Item) -> i64
        requires { Among (market_seen self.hour) item }
        ensures { result ≡ money_in self.entry item }
    {
        owed(
            price_above(self.hour, self.prices, item),
            price_below(self.hour, self.prices, item),
            self.amounts.of(item),
        )
    }
}
