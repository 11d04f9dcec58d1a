// The best bid of each zone that can take power, and the best that can give it.
ghost use Rattle.std.specs.Prelude.{◌≡◌, ◌+◌, ◌^◌, ◌<◌};
ghost use Rattle.network.specs.Tables.{items};
ghost use Rattle.paths.specs.Search.{Looks, Looked};
ghost use Rattle.paths.specs.Ways.{taker_noted, giver_noted};

use crate::given::Given;
use crate::ways::Way;
use hour::Bid;
use network::{row_count, row_in};

// A zone's best taker yields to a dearer one, and its best giver to a cheaper one; so the first among equals stays.
impl Way {
    fn note_taker(&mut self, takes: bool, price: u64, number: u64)
        requires { (price < 2 ^ 32) × (number < 2 ^ 34) }
        ensures { self.new ≡ taker_noted takes price number self.old }
    {
        if takes && self.worth <= price {
            self.worth = price + 1;
            self.out = number + 1;
        }
    }

    fn note_giver(&mut self, gives: bool, price: u64, number: u64)
        requires { (price < 2 ^ 32) × (number < 2 ^ 34) }
        ensures { self.new ≡ giver_noted gives price number self.old }
    {
        if gives && (self.ask == 0 || price + 1 < self.ask) {
            self.ask = price + 1;
            self.giver = number + 1;
        }
    }
}

// The bid with a number among all, in its zone. What is seen of a bid goes one call deep, so it is no type of its own.
fn look(given: Given, number: u64, bid: Bid, takes: bool, gives: bool, ways: &mut [Way])
    requires looks { Looks given.tables given.amounts number bid takes gives }
    requires looked { Looked given.tables given.amounts number ways.old }
    ensures { Looked given.entry.tables given.entry.amounts (number + 1) ways.new }
{
    let way = &mut ways[bid.zone as usize];
    way.note_taker(takes, bid.price, number);
    way.note_giver(gives, bid.price, number);
}

// Buys take what they have room for, and give what they have. The number of a bid is what is noted of it, so bids are counted.
pub fn look_at_buys(given: Given, ways: &mut [Way])
    requires { Looked given.tables given.amounts 0 ways.old }
    ensures { Looked given.entry.tables given.entry.amounts (items given.entry.tables.buys.now) ways.new }
{
    for k in 0..row_count(given.tables.buys) {
        let bid: Bid = row_in(given.tables.buys, k);
        let has = given.amounts.bought[k];
        look(given, k as u64, bid, has < bid.amount, 0 < has, ways);
    }
}

// Sells take back what they have, and give what they have left. One loop for both sorts would take as parameters the table, the
// amounts, the first number and which of the two tests is which.
pub fn look_at_sells(given: Given, ways: &mut [Way])
    requires { Looked given.tables given.amounts (items given.tables.buys.now) ways.old }
    ensures { Looked given.entry.tables given.entry.amounts (items given.entry.tables.buys.now + items given.entry.tables.sells.now) ways.new }
{
    let buys = row_count(given.tables.buys);
    for k in 0..row_count(given.tables.sells) {
        let bid: Bid = row_in(given.tables.sells, k);
        let has = given.amounts.sold[k];
        look(
            given,
            (buys + k) as u64,
            bid,
            0 < has,
            has < bid.amount,
            ways,
        );
    }
}
