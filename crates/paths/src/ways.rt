// What a search finds for a zone.
ghost use Rattle.std.specs.Prelude.{◌≡◌, ◌-◌, ◌^◌, ◌<◌};
ghost use Rattle.paths.specs.Ways.{way_at, way_pays, way_nearer, way_better};

// What the zone's best way to the hub is worth, over how many lines, by which item it leaves the zone, what the zone's cheapest
// giver asks, and which bid that is. But for the lines, each is 0 for none and else one more than the number, as the plan of the
// definitions has it. Options are no plainer: the tests compare them as they are, none below all, and would read alike (`pays` would
// be `self.ask.is_some() && self.ask < self.worth`), and ways would not hold the plan's numbers but have to be turned into them.
#[derive(Clone, Copy)]
pub struct Way {
    pub worth: u64,
    pub far: u64,
    pub out: u64,
    pub ask: u64,
    pub giver: u64,
}

impl Way {
    // No way leads from the zone, and nobody there gives.
    pub const NONE: Way = Way {
        worth: 0,
        far: 0,
        out: 0,
        ask: 0,
        giver: 0,
    };

    // Whether somebody in the zone gives for less than its way is worth.
    pub fn pays(&self) -> bool
        ensures { result ≡ way_pays self.now }
    {
        self.ask > 0 && self.ask < self.worth
    }

    // What the zone's price is as its way says it: 0 where none leads to the hub.
    pub fn price(&self) -> u64
        ensures { result ≡ self.now.worth - 1 }
    {
        self.worth.saturating_sub(1)
    }

    // Whether it is worth as much as another, over one line less.
    pub fn is_nearer(&self, than: &Way) -> bool
        ensures { result ≡ way_nearer than.now self.now }
    {
        self.worth == than.worth && than.far > 0 && self.far == than.far - 1
    }

    // Whether it is better than another, though over one line more: worth more, or as much over fewer lines.
    pub fn is_better(&self, than: &Way) -> bool
        requires { self.now.far < 2 ^ 32 }
        ensures { result ≡ way_better than.now self.now }
    {
        if self.worth < than.worth || self.worth == 0 {
            return false;
        }
        self.worth > than.worth || self.far + 1 < than.far
    }
}

// The way of a zone; past the last zone there is none.
pub fn way_at(ways: &[Way], v: usize) -> Way
    ensures { result ≡ way_at ways.now v }
{
    ways.get(v).copied().unwrap_or(Way::NONE)
}
