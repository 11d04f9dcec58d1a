// A market cleared on tables that the caller lends.
ghost use Rattle.std.specs.Prelude.{◌≡◌, length, drop, replicate};
ghost use Rattle.hour.specs.Rules.{KeepsRules};
ghost use Rattle.network.specs.Prices.{LowestOf, Lowest};
ghost use Rattle.network.specs.Tables.{items, outcome_in};
ghost use Rattle.paths.specs.Promises.{prices_of};
ghost use Rattle.network.specs.Given.{market_given};
ghost use Rattle.paths.specs.Ways.{plan_of};
ghost use Rattle.circulation.specs.Promises.{StepsSound};
ghost use Rattle.circulation.specs.Run.{Run};
ghost use Rattle.prices.specs.Found.{Fitted, Roomy, Found, result_in, prices_in};
ghost use Rattle.prices.specs.Laid.{nothing};

use circulation::circulate;
use hour::MAX_ZONES;
use network::{Tables, row_count};
use paths::Way;

// As many zones as an hour may have.
const ZONES_ROOM: usize = MAX_ZONES as usize;

// By number: over prices and ways side by side it is not proved what the prices become.
fn lay_prices(ways: &[Way], price: &mut [u64])
    requires { length price.old ≡ length ways.now }
    ensures { price.new ≡ prices_of (plan_of ways.now) }
{
    for (v, way) in ways.iter().enumerate() {
        price[v] = way.price();
    }
}

// Clears a market that keeps the rules, beginning with nothing, in slices and ways that are just as many as needed.
#[tactic(auto, using(network::proofs::Rows::length_bids_in, network::proofs::Rows::length_lines_in))]
pub fn circulate_from_nothing(
    t: Tables,
    bought: &mut [u64],
    sold: &mut [u64],
    flow: &mut [u64],
    ways: &mut [Way],
) -> u64
    requires kept { KeepsRules (market_given t) }
    requires bought { length bought.old ≡ items t.buys.now }
    requires sold { length sold.old ≡ items t.sells.now }
    requires flow { length flow.old ≡ items t.lines.now }
    requires zones { length ways.old ≡ t.zones }
    ensures run { Run (market_given t.entry) (nothing (market_given t.entry)) result (outcome_in bought.new sold.new flow.new) (plan_of ways.new) }
    ensures pushes { StepsSound (market_given t.entry) (nothing (market_given t.entry)) (outcome_in bought.new sold.new flow.new) result }
    ensures settled { LowestOf (market_given t.entry) (outcome_in bought.new sold.new flow.new) (prices_of (plan_of ways.new)) }
    ensures lowest { Lowest (market_given t.entry) (prices_of (plan_of ways.new)) }
{
    bought.fill(0);
    sold.fill(0);
    flow.fill(0);
    circulate(t, bought, sold, flow, ways)
}

// Clears a market that keeps the rules, in slices that are just as long as needed.
#[tactic(auto, using(network::proofs::Rows::length_bids_in, network::proofs::Rows::length_lines_in))]
fn clear_fitted(
    t: Tables,
    bought: &mut [u64],
    sold: &mut [u64],
    flow: &mut [u64],
    price: &mut [u64],
) -> u64
    requires kept { KeepsRules (market_given t) }
    requires fitted { Fitted (market_given t) bought.old sold.old flow.old price.old }
    ensures { Found (market_given t.entry) result (outcome_in bought.new sold.new flow.new) price.new }
{
    let mut room = [Way::NONE; ZONES_ROOM];
    let ways = &mut room[0..t.zones as usize];
    let pushes = circulate_from_nothing(t, bought, sold, flow, ways);
    lay_prices(ways, price);
    pushes
}

// Clears a market that keeps the rules, beginning with nothing bought, sold or carried. Answers how many pushes there were. Slices
// past what is needed are left as they were.
#[tactic(auto, using(network::proofs::Rows::length_bids_in, network::proofs::Rows::length_lines_in))]
pub fn clear_slices(
    t: Tables,
    bought: &mut [u64],
    sold: &mut [u64],
    flow: &mut [u64],
    price: &mut [u64],
) -> u64
    requires kept { KeepsRules (market_given t) }
    requires room { Roomy (items t.buys.now) (items t.sells.now) (items t.lines.now) t.zones bought.old sold.old flow.old price.old }
    ensures found { Found (market_given t.entry) result (result_in (market_given t.entry) bought.new sold.new flow.new) (prices_in (market_given t.entry) price.new) }
    ensures bought { drop (items t.entry.buys.now) bought.new ≡ drop (items t.entry.buys.now) bought.old }
    ensures sold { drop (items t.entry.sells.now) sold.new ≡ drop (items t.entry.sells.now) sold.old }
    ensures flow { drop (items t.entry.lines.now) flow.new ≡ drop (items t.entry.lines.now) flow.old }
    ensures price { drop t.entry.zones price.new ≡ drop t.entry.zones price.old }
{
    let buys = row_count(t.buys);
    let sells = row_count(t.sells);
    let lines = row_count(t.lines);
    let zones = t.zones as usize;
    clear_fitted(
        t,
        &mut bought[0..buys],
        &mut sold[0..sells],
        &mut flow[0..lines],
        &mut price[0..zones],
    )
}

/// Clears a market that keeps the rules, beginning with nothing bought, sold or carried, for a caller who knows that: nothing is checked,
/// and nothing is refused. Answers how many pushes there were. Slices past what is needed are left as they were; the work slice, of any
/// length, is left at zeros.
pub fn clear_tables(
    t: Tables,
    bought: &mut [u64],
    sold: &mut [u64],
    flow: &mut [u64],
    price: &mut [u64],
    work: &mut [u64],
) -> u64
    requires kept { KeepsRules (market_given t) }
    requires room { Roomy (items t.buys.now) (items t.sells.now) (items t.lines.now) t.zones bought.old sold.old flow.old price.old }
    ensures found { Found (market_given t.entry) result (result_in (market_given t.entry) bought.new sold.new flow.new) (prices_in (market_given t.entry) price.new) }
    ensures bought { drop (items t.entry.buys.now) bought.new ≡ drop (items t.entry.buys.now) bought.old }
    ensures sold { drop (items t.entry.sells.now) sold.new ≡ drop (items t.entry.sells.now) sold.old }
    ensures flow { drop (items t.entry.lines.now) flow.new ≡ drop (items t.entry.lines.now) flow.old }
    ensures price { drop t.entry.zones price.new ≡ drop t.entry.zones price.old }
    ensures work { work.new ≡ replicate (length work.old) 0 }
{
    work.fill(0);
    clear_slices(t, bought, sold, flow, price)
}
