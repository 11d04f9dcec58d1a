// Whether the worth and the money of each row follow from the amounts and the prices.
ghost use Rattle.std.specs.Prelude.{◌≡◌, ◌<◌, ◌≤◌};
ghost use Rattle.std.specs.Result.{result_err};
ghost use Rattle.hour.specs.Market.{count_of};
ghost use Rattle.hour.specs.Seen.{market_seen};
ghost use Rattle.hour.specs.Rules.{max_amount};
ghost use Rattle.network.specs.Network.{Among};
ghost use Rattle.network.specs.Given.{item, outcome_given};
ghost use Rattle.ledger.specs.Money.{owed, money};
ghost use Rattle.checker.specs.Acceptance.{claimed};
ghost use Rattle.checker.specs.Follows.{money_at, figure_wrong, row_wrong, rows_wrong, worth_wrong, counts_in};

use crate::claim::Claim;
use crate::form::Counts;
use crate::reports::Wrong;
use crate::standing::Standing;
use hour::{Hour, Sort};
use ledger::{price_above, price_below, worth_in};
use network::Item;

// As `network::number_at`, for signed numbers: one for both would take the type, and do no more than this line of the library's.
fn money_at(moneys: &[i128], k: usize) -> i128
    ensures { result ≡ money_at moneys.now k }
{
    moneys.get(k).copied().unwrap_or(0)
}

// So many units at one price less another. Prices may be any numbers of 64 bits here, so money wants more bits than the ledger's.
#[tactic(auto, using(crate::proofs::Product::product_fits, crate::proofs::Product::product_back))]
fn owed(above: u64, base: u64, amount: u64) -> i128
    requires { amount ≤ max_amount }
    ensures { result ≡ owed above base amount }
{
    (i128::from(above) - i128::from(base)) * i128::from(amount)
}

// A number that is written where another follows.
fn check_figure(
    line: usize,
    figure: Option<Sort>,
    follows: i128,
    written: i128,
) -> Result<(), Wrong>
    ensures { result_err result ≡ figure_wrong line figure follows written }
{
    if follows == written {
        return Ok(());
    }
    Err(Wrong {
        line,
        figure,
        follows,
        written,
    })
}

impl Standing<'_> {
    #[tactic(auto, using(crate::proofs::Breaches::carried_standing))]
    fn money_due(self, item: Item) -> i128
        requires { Among (market_seen self.claim.hour) item }
        ensures { result ≡ claimed money self.entry.claim item }
    {
        let Claim {
            hour,
            amounts,
            prices,
        } = self.claim;
        owed(
            price_above(hour, prices, item),
            price_below(hour, prices, item),
            amounts.of(item),
        )
    }

    #[tactic(auto, using(crate::proofs::Breaches::feasible_standing))]
    pub fn check_worth(self, written: i128) -> Result<(), Wrong>
        ensures { result_err result
            ≡ worth_wrong (market_seen self.entry.claim.hour) (outcome_given self.entry.claim.amounts) written }
    {
        check_figure(
            1,
            None,
            i128::from(worth_in(self.claim.hour, self.claim.amounts)),
            written,
        )
    }

    // The money of the k-th of a sort.
    fn check_money(self, sort: Sort, moneys: &[i128], k: usize) -> Result<(), Wrong>
        requires { k < count_of (market_seen self.claim.hour) sort }
        ensures { result_err result ≡ claimed row_wrong self.entry.claim sort moneys.now k }
    {
        let line = Counts::from(self.claim.hour).first_line(sort) + k;
        let follows = self.money_due(Item::of(sort, k));
        check_figure(line, Some(sort), follows, money_at(moneys, k))
    }

    // The first row of a sort whose money does not follow.
    pub fn check_moneys(self, sort: Sort, moneys: &[i128]) -> Result<(), Wrong>
        ensures { result_err result ≡ claimed rows_wrong self.entry.claim sort moneys.now }
    {
        for k in 0..self.claim.hour.count(sort) {
            self.check_money(sort, moneys, k)?;
        }
        Ok(())
    }
}

impl From<Hour<'_>> for Counts {
    ghost from_gives = { λ hour counts. counts ≡ counts_in (market_seen hour) };

    fn from(hour: Hour<'_>) -> Counts {
        Counts {
            zones: hour.zones() as usize,
            buys: hour.buys(),
            sells: hour.sells(),
            lines: hour.lines(),
        }
    }
}
