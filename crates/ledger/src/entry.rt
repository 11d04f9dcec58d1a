// The entry on an hour's bytes: refused with a rule and a place, or cleared, with its ledger.
ghost use Rattle.std.specs.Prelude.{◌≡◌, ◌+◌, ◌*◌, ◌^◌, ◌<◌, ◌≤◌, length};
ghost use Rattle.std.specs.Result.{result_err};
ghost use Rattle.hour.specs.Bytes.{market_of};
ghost use Rattle.prices.specs.Ended.{FoundIn, Left, Wiped, lengths};
ghost use Rattle.prices.specs.Found.{Roomy};
ghost use Rattle.ledger.specs.Entry.{head_size, slices_fault, hour_fault, CarriedOut, SettledBy, LowestPrices, NobodyRegrets};
ghost use Rattle.ledger.specs.Entry.{BestWorth, Booked, SmallMoney, MoneyRead, Closed, Counted, ClearedIn, slices};
ghost use Rattle.hour.specs.Seen.{market_seen};
ghost use Rattle.ledger.specs.Money.{row_count};

use crate::cleared::Cleared;
use hour::{Head, Hour, Lengths, Refusal, check_items, check_lent, check_results, read_head};
use network::Amounts;
use prices::clear_lent;

// The first lent slice that is too short for an hour with this head.
fn check_slices(head: Head, has: Lengths, ledger: usize, work: usize) -> Result<(), Refusal>
    requires { 64 * head_size head < 2 ^ 64 }
    ensures { result_err result ≡ slices_fault head has ledger work }
{
    let items = (head.buys + head.sells + head.lines) as usize;
    check_results(has, Lengths::from(head))?;
    check_lent(4, ledger, items + 3)?;
    check_lent(5, work, 64 * items)
}

// The first rule that the bytes and the lent slices break.
fn check_hour(bytes: &[u8], has: Lengths, ledger: usize, work: usize) -> Result<(), Refusal>
    ensures { result_err result ≡ hour_fault bytes.now has ledger work }
{
    let head = read_head(bytes)?;
    check_slices(head, has, ledger, work)?;
    check_items(bytes, head)
}

// Clears an hour that keeps the rules and writes its ledger, in slices that are long enough. Answers how many pushes there were.
// The slices stay apart as the caller lends them: one value that holds six `&mut` needs a clause for each on what it gives back.
fn clear_and_book(
    hour: Hour<'_>,
    bought: &mut [u64],
    sold: &mut [u64],
    flow: &mut [u64],
    price: &mut [u64],
    ledger: &mut [u64],
    work: &mut [u64],
) -> u64
    requires slices { Roomy hour.buys hour.sells hour.lines hour.zones bought.old sold.old flow.old price.old }
    requires ledger { hour.buys + hour.sells + hour.lines + 3 ≤ length ledger.old }
    requires work { 64 * (hour.buys + hour.sells + hour.lines) ≤ length work.old }
    ensures { ClearedIn (market_seen hour.entry) result (slices bought.old sold.old flow.old price.old ledger.old work.old) (slices bought.new sold.new flow.new price.new ledger.new work.new) }
{
    let items = hour.buys() + hour.sells() + hour.lines();
    let pushes = clear_lent(hour, bought, sold, flow, price, &mut work[0..64 * items]);
    let cleared = Cleared {
        hour,
        amounts: Amounts {
            bought: &*bought,
            sold: &*sold,
            flow: &*flow,
        },
        prices: &*price,
    };
    cleared.write_ledger(ledger);
    pushes
}

/// Clears an hour, from its bytes to its ledger, or refuses it. Lent slices may be longer than needed: what is behind stays as it was.
/// Each sentence that may be disputed is a clause:
/// - `refusal`: what is refused has the rule and the place of the list; an hour that keeps the rules, with enough lent, is not refused;
/// - `carried_out`, `settled`, `lowest`: amounts and flows keep all limits and balances, the prices settle them and are the lowest;
/// - `no_regret`, `best`: nobody would rather have another amount, and nothing that can be carried out is worth more;
/// - `rows`, `small`, `read`: each number of the ledger; none is large, and read as a signed number of 64 bits it is the money itself;
/// - `even`: what is collected is what is paid and what lines earn, and no line earns less than nothing;
/// - `found`, `pushes`: amounts, flows, prices and the count are those of the definition, and each push paid;
/// - `bought` to `work`: every other number of lent memory, and all of it where the hour is refused.
pub fn clear(
    bytes: &[u8],
    bought: &mut [u64],
    sold: &mut [u64],
    flow: &mut [u64],
    price: &mut [u64],
    ledger: &mut [u64],
    work: &mut [u64],
) -> Result<u64, Refusal>
    ensures refusal { result_err result ≡ hour_fault bytes.now (lengths (length bought.old) (length sold.old) (length flow.old) (length price.old)) (length ledger.old) (length work.old) }
    ensures carried_out { CarriedOut result (market_of bytes.now) bought.new sold.new flow.new }
    ensures settled { SettledBy result (market_of bytes.now) bought.new sold.new flow.new price.new }
    ensures lowest { LowestPrices result (market_of bytes.now) price.new }
    ensures no_regret { NobodyRegrets result (market_of bytes.now) bought.new sold.new flow.new price.new }
    ensures best { BestWorth result (market_of bytes.now) bought.new sold.new flow.new }
    ensures rows { Booked result (market_of bytes.now) bought.new sold.new flow.new price.new ledger.new }
    ensures small { SmallMoney result (market_of bytes.now) bought.new sold.new flow.new price.new }
    ensures read { MoneyRead result (market_of bytes.now) bought.new sold.new flow.new price.new ledger.new }
    ensures even { Closed result (market_of bytes.now) bought.new sold.new flow.new price.new }
    ensures found { FoundIn result (market_of bytes.now) bought.new sold.new flow.new price.new }
    ensures pushes { Counted result (market_of bytes.now) bought.new sold.new flow.new }
    ensures bought { Left result (length (market_of bytes.now).buys) bought.old bought.new }
    ensures sold { Left result (length (market_of bytes.now).sells) sold.old sold.new }
    ensures flow { Left result (length (market_of bytes.now).lines) flow.old flow.new }
    ensures price { Left result (market_of bytes.now).zones price.old price.new }
    ensures ledger { Left result (row_count (market_of bytes.now) + 3) ledger.old ledger.new }
    ensures work { Wiped result (64 * row_count (market_of bytes.now)) work.old work.new }
{
    let has = Lengths {
        bought: bought.len(),
        sold: sold.len(),
        flow: flow.len(),
        prices: price.len(),
    };
    check_hour(bytes, has, ledger.len(), work.len())?;
    let hour = Hour::of(bytes);
    Ok(clear_and_book(hour, bought, sold, flow, price, ledger, work))
}
