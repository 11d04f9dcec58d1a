// The ways that a search found, on the tables of the market.
ghost use Rattle.std.specs.Prelude.{◌≡◌, length};
ghost use Rattle.paths.specs.Search.{Bounded};

use hour::Line;
use network::{Item, Step, Tables, item_at, row_at};
use paths::{Way, way_at};

// Tables of a proper market, small enough to count in 64 bits, and a way for each zone.
#[derive(Clone, Copy)]
pub struct Routes<'a> {
    pub tables: Tables<'a>,
    pub ways: &'a [Way],
    ghost bounded: { Bounded tables },
    ghost one_each: { length ways.now ≡ tables.zones },
}

impl Routes<'_> {
    ghost use Rattle.std.specs.Prelude.{◌-◌};
    ghost use Rattle.hour.specs.Market.{at};
    ghost use Rattle.network.specs.Given.{market_given};
    ghost use Rattle.paths.specs.Bids.{item_no, giving};
    ghost use Rattle.paths.specs.Plan.{out_step, pays};
    ghost use Rattle.paths.specs.Ways.{plan_of, fars, givers};
    ghost use Rattle.circulation.specs.Routes.{routed};

    // The item that a way has as one more than its number.
    #[tactic(auto, using(network::proofs::Rows::length_bids_in))]
    fn item_of(self, numbered: u64) -> Item
        ensures { result ≡ item_no (market_given self.entry.tables) (numbered - 1) }
    {
        item_at(self.tables, numbered.saturating_sub(1) as usize)
    }

    // The step by which a zone's way leaves it.
    #[tactic(auto, using(paths::proofs::Zones::out_is))]
    pub fn step_out(self, zone: usize) -> Step
        ensures { result ≡ routed out_step self.entry zone }
    {
        match self.item_of(way_at(self.ways, zone).out) {
            Item::Buy(k) => Step::Forward(Item::Buy(k)),
            Item::Sell(k) => Step::Backward(Item::Sell(k)),
            Item::Line(l) => {
                if row_at::<Line>(self.tables.lines, l).from == zone as u64 {
                    Step::Forward(Item::Line(l))
                } else {
                    Step::Backward(Item::Line(l))
                }
            }
        }
    }

    // The step by which a zone's giver gives.
    pub fn step_in(self, zone: usize) -> Step
        ensures { result ≡ giving (item_no (market_given self.entry.tables) (at (givers self.entry.ways.now) zone - 1)) }
    {
        match self.item_of(way_at(self.ways, zone).giver) {
            Item::Buy(k) => Step::Backward(Item::Buy(k)),
            Item::Sell(k) => Step::Forward(Item::Sell(k)),
            Item::Line(l) => Step::Backward(Item::Line(l)),
        }
    }

    // Over how many lines a zone's way leads.
    #[tactic(auto, using(paths::proofs::Zones::far_is))]
    pub fn line_count(self, zone: usize) -> u64
        ensures { result ≡ at (fars self.entry.ways.now) zone }
    {
        way_at(self.ways, zone).far
    }

    // Whether somebody in a zone gives for less than the zone's way to the hub is worth.
    pub fn is_paying(self, zone: usize) -> bool
        ensures { result ≡ pays (plan_of self.entry.ways.now) zone }
    {
        way_at(self.ways, zone).pays()
    }
}
