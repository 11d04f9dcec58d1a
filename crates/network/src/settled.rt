//! Whether prices settle an outcome, on tables.
ghost use Rattle.std.specs.Prelude.{◌≡◌, Decides};
ghost use Rattle.hour.specs.Market.{Content, Settled, terms};
ghost use Rattle.network.specs.Given.{market_given, outcome_given};
ghost use Rattle.network.specs.Network.{ContentItem, nth};
ghost use Rattle.network.specs.Tables.{items};

use crate::tables::{Amounts, Tables, item_at, item_count, row_at};
use hour::{Bid, Item, Line, Terms, number_at};

/// Whether an amount is the whole limit where a unit brings more than it costs, and nothing where it brings less.
pub fn content(terms: Terms, amount: u64) -> bool
    ensures { Decides result (Content terms amount) }
{
    if terms.cost < terms.value {
        return amount == terms.limit;
    }
    if terms.value < terms.cost {
        return amount == 0;
    }
    true
}

// The terms of an item at the zones' prices.
#[tactic(auto, using(crate::proofs::Rows::row_costless))]
fn terms_at(t: Tables, prices: &[u64], item: Item) -> Terms
    ensures { result ≡ terms (market_given t.entry) prices.now item }
{
    match item {
        Item::Buy(k) => {
            let buy: Bid = row_at(t.buys, k);
            Terms {
                limit: buy.amount,
                cost: number_at(prices, buy.zone as usize),
                value: buy.price,
            }
        }
        Item::Sell(k) => {
            let sell: Bid = row_at(t.sells, k);
            Terms {
                limit: sell.amount,
                cost: sell.price,
                value: number_at(prices, sell.zone as usize),
            }
        }
        Item::Line(k) => {
            let line: Line = row_at(t.lines, k);
            Terms {
                limit: line.capacity,
                cost: number_at(prices, line.from as usize) + line.cost,
                value: number_at(prices, line.to as usize),
            }
        }
    }
}

// Item k of all.
fn content_item(t: Tables, o: Amounts, prices: &[u64], k: usize) -> bool
    ensures { Decides
        result
        (ContentItem
        (market_given t.entry)
        (outcome_given o.entry)
        prices.now
        (nth (items t.entry.buys.now) (items t.entry.sells.now) k)) }
{
    let item = item_at(t, k);
    content(terms_at(t, prices, item), o.of(item))
}

/// Whether prices settle an outcome.
pub fn settles(t: Tables, o: Amounts, prices: &[u64]) -> bool
    ensures { Decides
        result
        (Settled (market_given t.entry) (outcome_given o.entry) prices.now) }
{
    (0..item_count(t)).all(|k| content_item(t, o, prices, k))
}
