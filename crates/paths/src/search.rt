// A search: each zone's best way to the hub, its cheapest giver, and the first zone that pays.
ghost use Rattle.std.specs.Prelude.{◌≡◌, ℕ, ◌<◌, length, position};
ghost use Rattle.hour.specs.Market.{at, Feasible};
ghost use Rattle.network.specs.Tables.{items};
ghost use Rattle.paths.specs.Best.{numbered};
ghost use Rattle.paths.specs.Bids.{taker};
ghost use Rattle.paths.specs.Labels.{BestLabels};
ghost use Rattle.paths.specs.Plan.{onward, out_no, Planned, first_paying};
ghost use Rattle.paths.specs.Promises.{Shown};
ghost use Rattle.network.specs.Given.{market_given, outcome_given};
ghost use Rattle.paths.specs.Search.{Sound, KeepsAllButOut};
ghost use Rattle.paths.specs.Ways.{way_pays, worths, fars, outs, plan_of};

use crate::given::Given;
use crate::relax::settle;
use crate::takers::{look_at_buys, look_at_sells};
use crate::ways::Way;
use hour::Line;
use network::{Amounts, Tables, row_count, row_in};

// Whether line l leads from zone v, through what is left free, to a zone with a way worth as much, over one line less.
#[tactic(auto, using(crate::proofs::Zones::nearer_is, std::proofs::lemmas::Bool::Decides::nat_tests))]
fn leads_onward(given: Given, ways: &[Way], v: usize, l: usize) -> bool
    requires within { (l < items given.tables.lines.now) × (v < given.tables.zones) }
    requires zones { length ways.now ≡ given.tables.zones }
    ensures { result ≡ onward (market_given given.entry.tables) (outcome_given given.entry.amounts) (worths ways.now) (fars ways.now) v l }
{
    let line: Line = row_in(given.tables.lines, l);
    let flow = given.amounts.flow[l];
    let from = line.from as usize;
    let to = line.to as usize;
    if from == v && flow < line.capacity && ways[to].is_nearer(&ways[v]) {
        return true;
    }
    to == v && flow > 0 && ways[from].is_nearer(&ways[v])
}

// How each zone's way leaves it: by its own taker, which it has already, or by the first line that leads on. One way is changed while
// all are read, so zones are counted; the label leaves the loop over lines where one leads on.
fn ways_out(given: Given, ways: &mut [Way])
    requires zones { length ways.old ≡ given.tables.zones }
    requires labels { BestLabels (market_given given.tables) (outcome_given given.amounts) (worths ways.old) (fars ways.old) }
    requires takers { (v : ℕ) → v < given.tables.zones → at (outs ways.old) v ≡ numbered (taker (market_given given.tables) (outcome_given given.amounts) v) }
    ensures out { (v : ℕ) → v < given.entry.tables.zones → at (outs ways.new) v ≡ out_no (market_given given.entry.tables) (outcome_given given.entry.amounts) (worths ways.new) (fars ways.new) v }
    ensures others { KeepsAllButOut ways.old ways.new }
{
    let bids = (row_count(given.tables.buys) + row_count(given.tables.sells)) as u64;
    'zones: for v in 0..ways.len() {
        if ways[v].far == 0 {
            continue;
        }
        for l in 0..row_count(given.tables.lines) {
            if leads_onward(given, ways, v, l) {
                ways[v].out = bids + l as u64 + 1;
                continue 'zones;
            }
        }
        ways[v].out = 0;
    }
}

// The first zone where somebody gives for less than the zone's way to the hub is worth.
fn find_paying(ways: &[Way]) -> Option<usize>
    ensures { result ≡ position way_pays ways.now }
{
    ways.iter().position(|way| way.pays())
}

// Labels, ways out and givers of an outcome. Nothing is taken over from what the ways were.
fn plan_ways(given: Given, ways: &mut [Way])
    requires { length ways.old ≡ given.tables.zones }
    ensures planned { Planned (market_given given.entry.tables) (outcome_given given.entry.amounts) (plan_of ways.new) }
    ensures shown { Feasible (market_given given.entry.tables) (outcome_given given.entry.amounts) → Shown (market_given given.entry.tables) (outcome_given given.entry.amounts) (plan_of ways.new) (first_paying (market_given given.entry.tables) (plan_of ways.new)) }
{
    ways.fill(Way::NONE);
    look_at_buys(given, ways);
    look_at_sells(given, ways);
    settle(given, ways);
    ways_out(given, ways);
}

// The best way of each zone to the hub, written into a lent slice, and the first zone that pays.
// Where none pays, the ways are the shortest and no closed way gains; where one does, its closed way gains.
pub fn find_ways(t: Tables, o: Amounts, ways: &mut [Way]) -> Option<usize>
    requires sound { Sound t o }
    requires zones { length ways.old ≡ t.zones }
    ensures planned { Planned (market_given t.entry) (outcome_given o.entry) (plan_of ways.new) }
    ensures answer { result ≡ first_paying (market_given t.entry) (plan_of ways.new) }
    ensures shown { Feasible (market_given t.entry) (outcome_given o.entry) → Shown (market_given t.entry) (outcome_given o.entry) (plan_of ways.new) (first_paying (market_given t.entry) (plan_of ways.new)) }
{
    plan_ways(
        Given {
            tables: t,
            amounts: o,
        },
        ways,
    );
    find_paying(ways)
}
