// Marks for the zones whose price is held up.
ghost use Rattle.std.specs.Prelude.{◌≡◌, ℕ, ◌<◌, ◌≤◌, length};
ghost use Rattle.hour.specs.Seen.{market_seen};
ghost use Rattle.hour.specs.Market.{at};
ghost use Rattle.checker.specs.Acceptance.{claimed};
ghost use Rattle.checker.specs.Marks.{Marks, unmarked};
ghost use Rattle.checker.specs.Seeking.{Wiped};

use crate::claim::{Claim, Marked};
use network::number_at;

// The first n numbers at 0.
fn wipe(marks: &mut [u64], n: usize)
    requires { n ≤ length marks.old }
    ensures { Wiped n marks.old marks.new }
{
    marks[..n].fill(0);
}

// Each asks for a mark for each zone: a value that held that fact would hold marks that are lent to be changed.
impl Claim<'_> {
    // Marks that are all 0 become those of the zones that are held up, one after the other.
    fn mark_bare(self, marks: &mut [u64])
        requires enough { self.hour.zones ≤ length marks.old }
        requires bare { (z : ℕ) → z < self.hour.zones → at marks.old z ≡ 0 }
        ensures { claimed Marks self.entry marks.old marks.new }
    {
        while let Some(z) = (Marked { claim: self, marks }).next_held() {
            marks[z] = 1;
        }
    }

    fn mark_held(self, marks: &mut [u64])
        requires { self.hour.zones ≤ length marks.old }
        ensures { claimed Marks self.entry marks.old marks.new }
    {
        wipe(marks, self.hour.zones() as usize);
        self.mark_bare(marks);
    }

    // The zones whose price is held up are marked, and the first that is not could be lower.
    pub fn find_lower(self, marks: &mut [u64]) -> Option<usize>
        requires { self.hour.zones ≤ length marks.old }
        ensures value { result ≡ unmarked (market_seen self.entry.hour) marks.new }
        ensures marked { claimed Marks self.entry marks.old marks.new }
    {
        self.mark_held(marks);
        (0..self.hour.zones() as usize).find(|z| number_at(marks, *z) == 0)
    }
}
