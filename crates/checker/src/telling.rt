// What is said of a text that was published for an hour.
ghost use Rattle.std.specs.Prelude.{◌≡◌, IfOk};
ghost use Rattle.std.specs.Result.{result_err};
ghost use Rattle.hour.specs.Seen.{market_seen};
ghost use Rattle.checker.specs.Acceptance.{claimed};
ghost use Rattle.checker.specs.Follows.{wrong_in};
ghost use Rattle.checker.specs.Form.{said_seen};
ghost use Rattle.checker.specs.Telling.{AcceptedWith, RowsAs, SaidAs, Reports};

use crate::claim::Claim;
use crate::form::{Counts, Said, Stop, read_text};
use crate::reports::{Report, Wrong};
use crate::standing::Standing;
use hour::{Hour, Sort};
use network::Amounts;
use std::alloc::{AllocError, Global};

impl Standing<'_> {
    // The first row that does not follow: the worth, buys, sells, lines.
    fn check_rows(self, said: &Said<'_>) -> Result<(), Wrong>
        ensures { result_err result ≡ claimed wrong_in self.entry.claim (said_seen said.now) }
    {
        self.check_worth(said.worth)?;
        self.check_moneys(Sort::Buy, said.buys.moneys.as_slice())?;
        self.check_moneys(Sort::Sell, said.sells.moneys.as_slice())?;
        self.check_moneys(Sort::Line, said.lines.moneys.as_slice())
    }

    // What is said where all rows follow.
    #[tactic(auto, using(crate::proofs::Told::accepted_with))]
    fn accept(self, heap: Global) -> Result<Report, AllocError>
        ensures { IfOk result (claimed AcceptedWith self.entry.claim) }
    {
        let mut marks = vec![in heap; 0u64; self.claim.hour.zones() as usize]?;
        let lower = self.claim.find_lower(marks.as_mut_slice());
        Ok(Report::Accepted { lower })
    }
}

impl Claim<'_> {
    // What is said of a result whose amounts and prices a text says, with its worth and the money of each row.
    fn judge(self, heap: Global, said: &Said<'_>) -> Result<Report, AllocError>
        ensures { IfOk result (claimed RowsAs self.entry (said_seen said.now)) }
    {
        let standing = match self.check() {
            Ok(standing) => standing,
            Err(broken) => return Ok(Report::Broken(broken)),
        };
        match standing.check_rows(said) {
            Ok(()) => standing.accept(heap),
            Err(wrong) => Ok(Report::Wrong(wrong)),
        }
    }
}

// What is said of a text in the form.
fn judge_said(heap: Global, hour: Hour<'_>, said: &Said<'_>) -> Result<Report, AllocError>
    ensures { IfOk result (SaidAs (market_seen hour.entry) (said_seen said.now)) }
{
    let amounts = Amounts {
        bought: said.buys.amounts.as_slice(),
        sold: said.sells.amounts.as_slice(),
        flow: said.lines.amounts.as_slice(),
    };
    let claim = Claim {
        hour,
        amounts,
        prices: said.zones.prices.as_slice(),
    };
    claim.judge(heap, said)
}

/// What is said of any text for the hour that any bytes say: refused, unreadable, broken, a wrong row, and only if none of these:
/// accepted. An error is want of memory.
pub fn report_on(heap: Global, bytes: &[u8], text: &[u8]) -> Result<Report, AllocError>
    ensures { IfOk result (Reports bytes.now text.now) }
{
    let hour = match Hour::try_from(bytes) {
        Ok(hour) => hour,
        Err(refusal) => return Ok(Report::Refused(refusal)),
    };
    match read_text(heap, Counts::from(hour), text) {
        Ok(said) => judge_said(heap, hour, &said),
        Err(Stop::Line(line)) => Ok(Report::Unreadable { line }),
        Err(Stop::Memory(error)) => Err(error),
    }
}
