// The hour of a published result; refused are its head and its length, lent slices that are too short, and its items.
ghost use Rattle.std.specs.Prelude.{◌≡◌, ◌≤◌, IfOk};
ghost use Rattle.std.specs.Result.{result_err};
ghost use Rattle.hour.specs.First.{◌else◌};
ghost use Rattle.hour.specs.Rules.{lent_fault};
ghost use Rattle.network.specs.Given.{outcome_given};
ghost use Rattle.checker.specs.Acceptance.{lent_refusal, refusal_to_check};
ghost use Rattle.checker.specs.Marks.{refusal_to_mark};

use hour::{Head, Hour, Lengths, Refusal, check_items, check_lent, check_results, read_head};
use network::Amounts;

// The first lent slice that is too short for an hour with this head. Amounts and prices are two parameters here: there is no hour
// yet for which they could be claimed.
fn check_slices(head: Head, amounts: Amounts, prices: &[u64]) -> Result<(), Refusal>
    ensures { result_err result ≡ lent_refusal head (outcome_given amounts.entry) prices.now }
{
    let has = Lengths {
        bought: amounts.bought.len(),
        sold: amounts.sold.len(),
        flow: amounts.flow.len(),
        prices: prices.len(),
    };
    check_results(has, Lengths::from(head))
}

// The same, and the marks.
fn check_slices_and_marks(
    head: Head,
    amounts: Amounts,
    prices: &[u64],
    lent: usize,
) -> Result<(), Refusal>
    ensures { result_err result
        ≡ (lent_refusal head (outcome_given amounts.entry) prices.now else lent_fault 4 lent head.zones) }
{
    check_slices(head, amounts, prices)?;
    check_lent(4, lent, head.zones as usize)
}

// The hour whose result is looked at.
pub fn hour_to_check<'a>(
    bytes: &'a [u8],
    amounts: Amounts,
    prices: &[u64],
) -> Result<Hour<'a>, Refusal>
    ensures refused { result_err result
        ≡ refusal_to_check bytes.now (outcome_given amounts.entry) prices.now }
    ensures hour { IfOk result (λ hour. hour.bytes.now ≡ bytes.now) }
{
    let head = read_head(bytes)?;
    check_slices(head, amounts, prices)?;
    check_items(bytes, head)?;
    Ok(Hour::of(bytes))
}

// The hour whose prices are ranked, where so many numbers are lent for marks. One function for both hours would take the check of
// what is lent as a closure, with a contract longer than these bodies.
pub fn hour_to_rank<'a>(
    bytes: &'a [u8],
    amounts: Amounts,
    prices: &[u64],
    lent: usize,
) -> Result<Hour<'a>, Refusal>
    ensures refused { result_err result
        ≡ refusal_to_mark bytes.now (outcome_given amounts.entry) prices.now lent }
    ensures hour { IfOk result (λ hour. hour.bytes.now ≡ bytes.now) }
    ensures enough { IfOk result (λ hour. hour.zones ≤ lent) }
{
    let head = read_head(bytes)?;
    check_slices_and_marks(head, amounts, prices, lent)?;
    check_items(bytes, head)?;
    Ok(Hour::of(bytes))
}
