// A push along a closed way: so much more along each of its steps.
ghost use Rattle.std.specs.Prelude.{◌≡◌, ◌<◌};
ghost use Rattle.std.specs.List.{AllByRecursion};
ghost use Rattle.network.specs.Given.{market_given};
ghost use Rattle.network.specs.Tables.{outcome_in};
ghost use Rattle.network.specs.Ways.{Fits, Once, item, carry, moved, pushed};
ghost use Rattle.paths.specs.Plan.{closed_way};
ghost use Rattle.paths.specs.Search.{Spaced};
ghost use Rattle.circulation.specs.Pushable.{Placed, Movable};
ghost use Rattle.circulation.specs.Routes.{routed};

use crate::routes::Routes;
use network::{Amounts, Item, Step};

// An item carries so much. The lists of amounts are three parameters, here and above: of a struct that lends them each function
// would have to say besides that its fields still lend the same. So what is required of tables and lists together stands in each.
#[tactic(auto, using(network::proofs::Weighed::put_set))]
fn carry(item: Item, amount: u64, bought: &mut [u64], sold: &mut [u64], flow: &mut [u64])
    requires { Placed bought.old sold.old flow.old item }
    ensures { outcome_in bought.new sold.new flow.new ≡ carry (outcome_in bought.old sold.old flow.old) item amount }
{
    match item {
        Item::Buy(k) => bought[k] = amount,
        Item::Sell(k) => sold[k] = amount,
        Item::Line(l) => flow[l] = amount,
    }
}

// So much more along one step: forward the item carries more, backward less.
fn move_along(step: Step, d: u64, bought: &mut [u64], sold: &mut [u64], flow: &mut [u64])
    requires placed { Placed bought.old sold.old flow.old (item step) }
    requires movable { Movable (outcome_in bought.old sold.old flow.old) d step }
    ensures { outcome_in bought.new sold.new flow.new ≡ moved (outcome_in bought.old sold.old flow.old) step d }
{
    let o = Amounts {
        bought: &*bought,
        sold: &*sold,
        flow: &*flow,
    };
    match step {
        Step::Forward(item) => carry(item, o.of(item) + d, bought, sold, flow),
        Step::Backward(item) => carry(item, o.of(item) - d, bought, sold, flow),
    }
}

impl Routes<'_> {
    // So much more along each step of a zone's closed way: from the hub by the zone's giver, over its lines, and back to the hub.
    #[tactic(auto, using(crate::proofs::Walked::walking))]
    pub fn push(self, zone: usize, d: u64, bought: &mut [u64], sold: &mut [u64], flow: &mut [u64])
        requires spaced { Spaced self.tables bought.old sold.old flow.old }
        requires some { 0 < d }
        requires once { Once (market_given self.tables) (routed closed_way self zone) }
        requires fits { AllByRecursion (Fits (market_given self.tables) (outcome_in bought.old sold.old flow.old) d) (routed closed_way self zone) }
        ensures { outcome_in bought.new sold.new flow.new ≡ pushed (outcome_in bought.old sold.old flow.old) (routed closed_way self.entry zone) d }
    {
        move_along(self.step_in(zone), d, bought, sold, flow);
        for step in self.way_out(zone) {
            move_along(step, d, bought, sold, flow);
        }
    }
}
