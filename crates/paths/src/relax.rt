// Labels: what each zone's best way to the hub is worth, and over how many lines, raised until no line raises one.
ghost use Rattle.std.specs.Prelude.{◌≡◌, ℕ, ◌^◌, ◌<◌, ◌≤◌, length, if◌then◌else◌, slice_set};
ghost use Rattle.network.specs.Tables.{items};
ghost use Rattle.paths.specs.Labels.{BestLabels};
ghost use Rattle.network.specs.Given.{market_given, outcome_given};
ghost use Rattle.paths.specs.Search.{Relaxed, Settling, Raised, KeepsBids, turned};
ghost use Rattle.paths.specs.Ways.{way_at, way_better, over_line, worths, fars};

use crate::given::Given;
use crate::ways::Way;
use hour::Line;
use network::{row_count, row_in};

// The way over a line from v to w is taken where it is better than the one that v has. Answers whether v's label rose.
fn raise(ways: &mut [Way], v: usize, w: usize) -> bool
    requires zones { (v < length ways.old) × (w < length ways.old) }
    requires near { (way_at ways.old w).far < 2 ^ 32 }
    ensures answer { result ≡ way_better (way_at ways.old v) (way_at ways.old w) }
    ensures ways { ways.new ≡ (if way_better (way_at ways.old v) (way_at ways.old w) then slice_set ways.old v (over_line (way_at ways.old v) (way_at ways.old w)) else ways.old) }
{
    let onward = ways[w];
    let way = &mut ways[v];
    if !onward.is_better(way) {
        return false;
    }
    way.worth = onward.worth;
    way.far = onward.far + 1;
    true
}

// A line, both ways: with room it leads from its beginning to its end, and where it carries something from its end to its beginning.
// Answers how many labels rose. `Settling` is required of the ways here and below, and is no type that holds them, since they are lent
// to be changed and such a type would have to say at each function that it still lends the same.
fn relax(given: Given, l: usize, ways: &mut [Way]) -> u64
    requires within { l < items given.tables.lines.now }
    requires settling { Settling given.tables given.amounts ways.old }
    ensures raised { Raised given.entry.tables given.entry.amounts ways.old result ways.new }
    ensures relaxed { result ≡ 0 → Relaxed (market_given given.entry.tables) (outcome_given given.entry.amounts) (worths ways.old) (fars ways.old) l }
    ensures few { result ≤ 2 }
{
    let line: Line = row_in(given.tables.lines, l);
    let from = line.from as usize;
    let to = line.to as usize;
    let flow = given.amounts.flow[l];
    let forth = flow < line.capacity && raise(ways, from, to);
    let back = flow > 0 && raise(ways, to, from);
    u64::from(forth) + u64::from(back)
}

// Number j of n, counted from the first or from the last.
fn turn(from_last: bool, n: usize, j: usize) -> usize
    requires { j < n }
    ensures value { result ≡ turned from_last n j }
    ensures below { result < n }
{
    if from_last { n - 1 - j } else { j }
}

// All lines, from the first to the last or, in turn, from the last to the first: the order changes how many rounds there are,
// and not what they come to.
fn round(given: Given, from_last: bool, ways: &mut [Way]) -> u64
    requires { Settling given.tables given.amounts ways.old }
    ensures raised { Raised given.entry.tables given.entry.amounts ways.old result ways.new }
    ensures relaxed { result ≡ 0 → (l : ℕ) → l < items given.entry.tables.lines.now → Relaxed (market_given given.entry.tables) (outcome_given given.entry.amounts) (worths ways.new) (fars ways.new) l }
{
    // A range and the same turned round are two types, so one loop counts for both.
    let lines = row_count(given.tables.lines);
    let mut rose = 0;
    for k in 0..lines {
        rose += relax(given, turn(from_last, lines, k), ways);
    }
    rose
}

// Round after round, until no line raises a label.
pub fn settle(given: Given, ways: &mut [Way])
    requires { Settling given.tables given.amounts ways.old }
    ensures labels { BestLabels (market_given given.entry.tables) (outcome_given given.entry.amounts) (worths ways.new) (fars ways.new) }
    ensures bids { KeepsBids ways.old ways.new }
{
    let mut from_last = false;
    while round(given, from_last, ways) > 0 {
        from_last = !from_last;
    }
}
