// Whether the prices of a published result are the lowest that settle.
ghost use Rattle.std.specs.Prelude.{◌≡◌, ℕ, ◌≤◌, length, None, Some, Ok};
ghost use Rattle.hour.specs.Seen.{market_seen};
ghost use Rattle.network.specs.Tables.{outcome_in};
ghost use Rattle.checker.specs.Acceptance.{claimed, broken_of, unless, Exactly};
ghost use Rattle.checker.specs.Marks.{unmarked, lowness_of, Left, LowerFirst, LowestAll};
ghost use Rattle.checker.specs.Seeking.{LeftIn};

use crate::claim::Claim;
use crate::lent::hour_to_rank;
use crate::verdict::{Broken, Objection};
use network::Amounts;

impl Claim<'_> {
    // The first zone whose price could be lower; of a result that breaks a rule, the first rule, and the marks as they were.
    fn rank(self, marks: &mut [u64]) -> Result<Option<usize>, Broken>
        requires { self.hour.zones ≤ length marks.old }
        ensures answer { result
            ≡ unless (claimed broken_of self.entry) (unmarked (market_seen self.entry.hour) marks.new) }
        ensures left { claimed LeftIn self.entry marks.old marks.new }
    {
        self.check()?;
        Ok(self.find_lower(marks))
    }
}

// Whether the prices of a published result are the lowest, or the first zone that could be lower. The lent marks are 1 afterwards
// for a zone whose price is held up and 0 for any other, and the numbers behind them as they were; of a result that does not
// stand, all marks are as they were.
pub fn lowest<'a>(
    bytes: &[u8],
    bought: &'a [u64],
    sold: &'a [u64],
    flow: &'a [u64],
    prices: &[u64],
    marks: &mut [u64],
) -> Result<Option<usize>, Objection>
    ensures answer { result
        ≡ lowness_of
        bytes.now
        (outcome_in bought.now sold.now flow.now)
        prices.now
        (length marks.old)
        marks.new }
    ensures left { Left
        bytes.now
        (outcome_in bought.now sold.now flow.now)
        prices.now
        marks.old
        marks.new }
    ensures lower { (z : ℕ) →
        Exactly
        (result ≡ Ok (Some z))
        (LowerFirst
        bytes.now
        (outcome_in bought.now sold.now flow.now)
        prices.now
        (length marks.old)
        z) }
    ensures lowest { Exactly
        (result ≡ Ok None)
        (LowestAll
        bytes.now
        (outcome_in bought.now sold.now flow.now)
        prices.now
        (length marks.old)) }
{
    let amounts = Amounts { bought, sold, flow };
    let hour = hour_to_rank(bytes, amounts, prices, marks.len())?;
    let claim = Claim {
        hour,
        amounts,
        prices,
    };
    let lower = claim.rank(marks)?;
    Ok(lower)
}
