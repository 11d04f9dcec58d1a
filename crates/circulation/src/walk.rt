// The walk from a zone to the hub, step by step.
ghost use Rattle.std.specs.Prelude.{◌≡◌};
ghost use Rattle.std.specs.Iterator.{YieldsFirst, item_count};
ghost use Rattle.hour.specs.Market.{at};
ghost use Rattle.paths.specs.Plan.{way_out};
ghost use Rattle.paths.specs.Ways.{fars};
ghost use Rattle.circulation.specs.Routes.{routed, steps_left};

use crate::routes::Routes;
use crate::steps::end_of;
use network::Step;

// Where a walk has come to, and over how many lines the way leads from there; none once it has left for the hub.
#[derive(Drop)]
pub struct Walk<'a> {
    routes: Routes<'a>,
    node: usize,
    lines: Option<u64>,
}

impl Iterator for Walk<'_> {
    type Item = Step;

    ghost next_gives = { YieldsFirst steps_left };

    ghost remaining = { item_count steps_left };

    fn next(&mut self) -> Option<Step> {
        let lines = self.lines?;
        let step = self.routes.step_out(self.node);
        self.node = end_of(self.routes.tables, step) as usize;
        self.lines = lines.checked_sub(1);
        Some(step)
    }
}

impl<'a> Routes<'a> {
    // The steps of a zone's way to the hub: over its lines, and by the last zone's taker.
    pub fn way_out(self, zone: usize) -> Walk<'a>
        ensures { steps_left result ≡ routed way_out self.entry (at (fars self.entry.ways.now) zone) zone }
    {
        Walk {
            routes: self,
            node: zone,
            lines: Some(self.line_count(zone)),
        }
    }
}
