// Steps along items, on tables: how much room one has, and where it ends.
ghost use Rattle.std.specs.Prelude.{◌≡◌};
ghost use Rattle.network.specs.Given.{market_given, outcome_given};
ghost use Rattle.network.specs.Network.{capacity};
ghost use Rattle.network.specs.Ways.{room, finish};

use hour::{Bid, Line};
use network::{Amounts, Item, Step, Tables, row_at};

fn capacity_of(t: Tables, item: Item) -> u64
    ensures { result ≡ capacity (market_given t.entry) item }
{
    match item {
        Item::Buy(k) => row_at::<Bid>(t.buys, k).amount,
        Item::Sell(k) => row_at::<Bid>(t.sells, k).amount,
        Item::Line(l) => row_at::<Line>(t.lines, l).capacity,
    }
}

// How much more can go along a step.
pub fn room_for(t: Tables, o: Amounts, step: Step) -> u64
    ensures { result ≡ room (market_given t.entry) (outcome_given o.entry) step }
{
    match step {
        Step::Forward(item) => capacity_of(t, item).saturating_sub(o.of(item)),
        Step::Backward(item) => o.of(item),
    }
}

// The node where a step ends.
pub fn end_of(t: Tables, step: Step) -> u64
    ensures { result ≡ finish (market_given t.entry) step }
{
    match step {
        Step::Forward(Item::Buy(_)) => t.zones,
        Step::Backward(Item::Buy(k)) => row_at::<Bid>(t.buys, k).zone,
        Step::Forward(Item::Sell(k)) => row_at::<Bid>(t.sells, k).zone,
        Step::Backward(Item::Sell(_)) => t.zones,
        Step::Forward(Item::Line(l)) => row_at::<Line>(t.lines, l).to,
        Step::Backward(Item::Line(l)) => row_at::<Line>(t.lines, l).from,
    }
}
