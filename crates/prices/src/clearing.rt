// An hour cleared on tables and ways that the caller lends.
ghost use Rattle.std.specs.Prelude.{◌≡◌, length};
ghost use Rattle.hour.specs.Bytes.{market_of};
ghost use Rattle.network.specs.Prices.{LowestOf, Lowest};
ghost use Rattle.network.specs.Tables.{bids_in, lines_in, outcome_in};
ghost use Rattle.paths.specs.Promises.{prices_of};
ghost use Rattle.paths.specs.Ways.{plan_of};
ghost use Rattle.circulation.specs.Promises.{StepsSound};
ghost use Rattle.circulation.specs.Run.{Run};
ghost use Rattle.prices.specs.Laid.{Rowed, nothing};

use crate::lay::lay_hour;
use crate::tables::circulate_from_nothing;
use hour::Hour;
use network::Tables;
use paths::Way;

/// Clears an hour, beginning with nothing bought, sold or carried, for a caller who wants the ways that the prices come from. The tables of
/// the bids and lines are laid first, three numbers to an item, and stay; the ways are left as the last search leaves them. Answers how many pushes
/// there were.
pub fn clear_hour(
    hour: Hour<'_>,
    buys: &mut [u64],
    sells: &mut [u64],
    lines: &mut [u64],
    bought: &mut [u64],
    sold: &mut [u64],
    flow: &mut [u64],
    ways: &mut [Way],
) -> u64
    requires rows { Rowed hour.buys hour.sells hour.lines buys.old sells.old lines.old bought.old sold.old flow.old }
    requires zones { length ways.old ≡ hour.zones }
    ensures run { Run (market_of hour.entry.bytes.now) (nothing (market_of hour.entry.bytes.now)) result (outcome_in bought.new sold.new flow.new) (plan_of ways.new) }
    ensures pushes { StepsSound (market_of hour.entry.bytes.now) (nothing (market_of hour.entry.bytes.now)) (outcome_in bought.new sold.new flow.new) result }
    ensures settled { LowestOf (market_of hour.entry.bytes.now) (outcome_in bought.new sold.new flow.new) (prices_of (plan_of ways.new)) }
    ensures lowest { Lowest (market_of hour.entry.bytes.now) (prices_of (plan_of ways.new)) }
    ensures buys { bids_in buys.new ≡ (market_of hour.entry.bytes.now).buys }
    ensures sells { bids_in sells.new ≡ (market_of hour.entry.bytes.now).sells }
    ensures lines { lines_in lines.new ≡ (market_of hour.entry.bytes.now).lines }
{
    lay_hour(hour, buys, sells, lines);
    let t = Tables {
        zones: hour.zones(),
        buys: &*buys,
        sells: &*sells,
        lines: &*lines,
    };
    circulate_from_nothing(t, bought, sold, flow, ways)
}
