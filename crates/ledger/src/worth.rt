// What an outcome is worth by the bids' own prices and the lines' own costs.
ghost use Rattle.std.specs.Prelude.{◌≡◌, ◌*◌, ◌<◌, ◌≤◌};
ghost use Rattle.hour.specs.Market.{Feasible, count_of};
ghost use Rattle.network.specs.Network.{carried};
ghost use Rattle.hour.specs.Seen.{market_seen};
ghost use Rattle.network.specs.Given.{outcome_given, item};
ghost use Rattle.ledger.specs.Money.{asked, worth_of, worth_by};

use crate::money::price_asked;
use hour::{Hour, Sort};
use network::{Amounts, Item};

// An hour with an outcome that can be carried out: less than what is cleared, or stands for the checker, holds.
#[derive(Clone, Copy)]
struct Carried<'h, 'o> {
    hour: Hour<'h>,
    amounts: Amounts<'o>,
    ghost feasible: { Feasible (market_seen hour) (outcome_given amounts) },
}

impl Carried<'_, '_> {
    // The k-th item of a sort at its own price or cost.
    #[tactic(auto, using(crate::proofs::Limits::worth_fits, crate::proofs::Limits::rules_of))]
    fn item_worth(self, sort: Sort, k: usize) -> u64
        requires { k < count_of (market_seen self.hour) sort }
        ensures value { result ≡ asked (market_seen self.entry.hour) (item sort k) * carried (outcome_given self.entry.amounts) (item sort k) }
        ensures small { result ≤ 400000000000 }
    {
        let item = Item::of(sort, k);
        price_asked(self.hour, item) * self.amounts.of(item)
    }

    // The items of one sort at their own prices or costs.
    fn worth_of(self, sort: Sort) -> u64
        ensures value { result ≡ worth_of (market_seen self.entry.hour) (outcome_given self.entry.amounts) sort }
        ensures small { result ≤ 400000000000000 }
    {
        (0..self.hour.count(sort))
            .map(|k| self.item_worth(sort, k))
            .sum()
    }
}

/// What is bought is worth, less what is sold and what flows cost. Its callers hold the fact that it asks for, each in a type of its own.
pub fn worth_in(hour: Hour<'_>, o: Amounts<'_>) -> i64
    requires { Feasible (market_seen hour) (outcome_given o) }
    ensures { result ≡ worth_by (market_seen hour.entry) (outcome_given o.entry) }
{
    let carried = Carried { hour, amounts: o };
    let costs = carried.worth_of(Sort::Sell) + carried.worth_of(Sort::Line);
    carried.worth_of(Sort::Buy) as i64 - costs as i64
}
