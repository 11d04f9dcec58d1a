// A sweep: each zone that pays pushes once along its closed way, as much as fits.
ghost use Rattle.std.specs.Prelude.{◌≡◌, ℕ, ◌+◌, ◌≤◌, true};
ghost use Rattle.network.specs.Given.{market_given, outcome_given};
ghost use Rattle.network.specs.Tables.{outcome_in};
ghost use Rattle.paths.specs.Plan.{Planned, pays, closed_way};
ghost use Rattle.paths.specs.Search.{Spaced};
ghost use Rattle.paths.specs.Ways.{plan_of};
ghost use Rattle.circulation.specs.Pushable.{Ready};
ghost use Rattle.circulation.specs.Routes.{routed};
ghost use Rattle.circulation.specs.Sweep.{bottleneck, tally, asked, swept};

use crate::routes::Routes;
use crate::steps::room_for;
use network::Amounts;

impl Routes<'_> {
    // How much fits along all steps of a zone's closed way.
    fn narrowest(self, o: Amounts, zone: usize) -> u64
        ensures { result ≡ bottleneck (market_given self.entry.tables) (outcome_given o.entry) (routed closed_way self.entry zone) }
    {
        let mut least = room_for(self.tables, o, self.step_in(zone));
        for step in self.way_out(zone) {
            least = least.min(room_for(self.tables, o, step));
        }
        least
    }

    // A zone is asked: if it pays and something still fits along its closed way, that much is pushed. Answers how many pushes.
    fn ask_zone(self, zone: usize, bought: &mut [u64], sold: &mut [u64], flow: &mut [u64]) -> u64
        requires spaced { Spaced self.tables bought.old sold.old flow.old }
        requires ready { pays (plan_of self.ways.now) zone ≡ true → routed Ready self zone }
        ensures asked { (n : ℕ) → routed asked self.entry zone (tally (outcome_in bought.old sold.old flow.old) n) ≡ tally (outcome_in bought.new sold.new flow.new) (n + result) }
        ensures few { result ≤ 1 }
    {
        if !self.is_paying(zone) {
            return 0;
        }
        let o = Amounts {
            bought: &*bought,
            sold: &*sold,
            flow: &*flow,
        };
        let d = self.narrowest(o, zone);
        if d == 0 {
            return 0;
        }
        self.push(zone, d, bought, sold, flow);
        1
    }

    // Every zone is asked, one after the other. Answers how many pushes.
    pub fn sweep(self, bought: &mut [u64], sold: &mut [u64], flow: &mut [u64]) -> u64
        requires spaced { Spaced self.tables bought.old sold.old flow.old }
        requires planned { Planned (market_given self.tables) (outcome_in bought.old sold.old flow.old) (plan_of self.ways.now) }
        ensures { routed swept self.entry self.entry.tables.zones (outcome_in bought.old sold.old flow.old) ≡ tally (outcome_in bought.new sold.new flow.new) result }
    {
        let mut pushes = 0;
        for zone in 0..self.ways.len() {
            pushes += self.ask_zone(zone, bought, sold, flow);
        }
        pushes
    }
}
