// The first rule that a published result breaks.
ghost use Rattle.std.specs.Prelude.{◌≡◌, ◌<◌, IfOk, Ok};
ghost use Rattle.std.specs.Result.{result_err};
ghost use Rattle.hour.specs.Market.{count_of};
ghost use Rattle.hour.specs.Seen.{market_seen};
ghost use Rattle.network.specs.Tables.{outcome_in};
ghost use Rattle.checker.specs.Acceptance.{claimed, terms_broken, item_broken, first_broken, broken_of};
ghost use Rattle.checker.specs.Acceptance.{verdict_of, Stands, Exactly};

use crate::claim::Claim;
use crate::lent::hour_to_check;
use crate::standing::Standing;
use crate::verdict::{Broken, Objection};
use hour::{Item, Sort, Terms};
use network::Amounts;
use network::settled::content;

// The rule that the k-th of a sort breaks, with these terms and this amount.
fn check_terms(sort: Sort, number: usize, terms: Terms, amount: u64) -> Result<(), Broken>
    ensures { result_err result ≡ terms_broken sort number terms amount }
{
    if amount > terms.limit {
        return Err(Broken::TooLarge { sort, number });
    }
    if !content(terms, amount) {
        return Err(Broken::NotAllowed { sort, number });
    }
    Ok(())
}

impl<'a> Claim<'a> {
    #[tactic(auto, using(ledger::proofs::Limits::among_item))]
    fn check_item(self, sort: Sort, k: usize) -> Result<(), Broken>
        requires { k < count_of (market_seen self.hour) sort }
        ensures { result_err result ≡ claimed item_broken self.entry sort k }
    {
        let item = Item::of(sort, k);
        let terms = self.hour.terms(self.prices, item);
        check_terms(sort, k, terms, self.amounts.of(item))
    }

    // The first rule that one of a sort breaks.
    fn check_sort(self, sort: Sort) -> Result<(), Broken>
        ensures { result_err result ≡ claimed first_broken self.entry sort }
    {
        for k in 0..self.hour.count(sort) {
            self.check_item(sort, k)?;
        }
        Ok(())
    }

    /// That it breaks no rule, or the first rule broken: buys, sells, lines, zones, each by number.
    pub fn check(self) -> Result<Standing<'a>, Broken>
        ensures broken { result_err result ≡ claimed broken_of self.entry }
        ensures same { IfOk result (λ standing. standing.claim ≡ self.entry) }
    {
        self.check_sort(Sort::Buy)?;
        self.check_sort(Sort::Sell)?;
        self.check_sort(Sort::Line)?;
        self.check_zones()?;
        Ok(Standing { claim: self })
    }
}

/// Whether a published result stands: its amounts and flows can be carried out, and its prices settle them. Slices may be longer
/// than needed; nothing is assumed of what they hold.
pub fn check<'a>(
    bytes: &[u8],
    bought: &'a [u64],
    sold: &'a [u64],
    flow: &'a [u64],
    prices: &[u64],
) -> Result<(), Objection>
    ensures answer { result
        ≡ verdict_of
        bytes.now
        (outcome_in bought.now sold.now flow.now)
        prices.now }
    ensures accepted { Exactly
        (result ≡ Ok tt)
        (Stands
        bytes.now
        (outcome_in bought.now sold.now flow.now)
        prices.now) }
{
    let amounts = Amounts { bought, sold, flow };
    let hour = hour_to_check(bytes, amounts, prices)?;
    let claim = Claim {
        hour,
        amounts,
        prices,
    };
    claim.check()?;
    Ok(())
}
