// Sweep after sweep, until no zone pays.
ghost use Rattle.std.specs.Prelude.{◌≡◌, ◌^◌, ◌<◌, length};
ghost use Rattle.hour.specs.Market.{Feasible};
ghost use Rattle.network.specs.Prices.{LowestOf, Lowest};
ghost use Rattle.network.specs.Tables.{outcome_in};
ghost use Rattle.paths.specs.Promises.{prices_of};
ghost use Rattle.network.specs.Given.{market_given};
ghost use Rattle.paths.specs.Search.{Bounded, Spaced};
ghost use Rattle.paths.specs.Ways.{plan_of};
ghost use Rattle.circulation.specs.Promises.{StepsSound, top};
ghost use Rattle.circulation.specs.Run.{Run};

use crate::routes::Routes;
use network::{Amounts, Tables};
use paths::{Way, find_ways};

// Clears a market, beginning with amounts and flows that can be carried out: searches and sweeps until no zone pays. Answers
// how many pushes there were; the ways are those of the last search.
pub fn circulate(
    t: Tables,
    bought: &mut [u64],
    sold: &mut [u64],
    flow: &mut [u64],
    ways: &mut [Way],
) -> u64
    requires tables { Bounded t }
    requires spaced { Spaced t bought.old sold.old flow.old }
    requires zones { length ways.old ≡ t.zones }
    requires few { top (market_given t) < 2 ^ 64 }
    requires feasible { Feasible (market_given t) (outcome_in bought.old sold.old flow.old) }
    ensures run { Run (market_given t.entry) (outcome_in bought.old sold.old flow.old) result (outcome_in bought.new sold.new flow.new) (plan_of ways.new) }
    ensures pushes { StepsSound (market_given t.entry) (outcome_in bought.old sold.old flow.old) (outcome_in bought.new sold.new flow.new) result }
    ensures settled { LowestOf (market_given t.entry) (outcome_in bought.new sold.new flow.new) (prices_of (plan_of ways.new)) }
    ensures lowest { Lowest (market_given t.entry) (prices_of (plan_of ways.new)) }
{
    let mut pushes = 0;
    while find_ways(
        t,
        Amounts {
            bought: &*bought,
            sold: &*sold,
            flow: &*flow,
        },
        ways,
    )
    .is_some()
    {
        let routes = Routes {
            tables: t,
            ways: &*ways,
        };
        pushes += routes.sweep(bought, sold, flow);
    }
    pushes
}
