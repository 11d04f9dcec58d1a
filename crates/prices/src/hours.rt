// An hour cleared, with its tables in one lent slice.
ghost use Rattle.std.specs.Prelude.{◌≡◌, ◌+◌, ◌*◌, ◌≤◌, length, drop, replicate};
ghost use Rattle.hour.specs.Bytes.{market_of};
ghost use Rattle.prices.specs.Found.{Roomy, Found, result_in, prices_in};

use crate::lay::lay_hour;
use crate::tables::clear_slices;
use hour::Hour;
use network::Tables;

// The tables of the bids and lines stand in front of the work slice, three numbers to an item.
fn clear_laid(
    hour: Hour<'_>,
    bought: &mut [u64],
    sold: &mut [u64],
    flow: &mut [u64],
    price: &mut [u64],
    work: &mut [u64],
) -> u64
    requires slices { Roomy hour.buys hour.sells hour.lines hour.zones bought.old sold.old flow.old price.old }
    requires work { 3 * (hour.buys + hour.sells + hour.lines) ≤ length work.old }
    ensures found { Found (market_of hour.entry.bytes.now) result (result_in (market_of hour.entry.bytes.now) bought.new sold.new flow.new) (prices_in (market_of hour.entry.bytes.now) price.new) }
    ensures bought { drop hour.entry.buys bought.new ≡ drop hour.entry.buys bought.old }
    ensures sold { drop hour.entry.sells sold.new ≡ drop hour.entry.sells sold.old }
    ensures flow { drop hour.entry.lines flow.new ≡ drop hour.entry.lines flow.old }
    ensures price { drop hour.entry.zones price.new ≡ drop hour.entry.zones price.old }
{
    let (buys, rest) = work.split_at_mut(3 * hour.buys());
    let (sells, rest) = rest.split_at_mut(3 * hour.sells());
    let (lines, _) = rest.split_at_mut(3 * hour.lines());
    lay_hour(hour, buys, sells, lines);
    let t = Tables {
        zones: hour.zones(),
        buys: &*buys,
        sells: &*sells,
        lines: &*lines,
    };
    clear_slices(t, bought, sold, flow, price)
}

// Clears an hour, beginning with nothing bought, sold or carried. Answers how many pushes there were. Slices
// past what is needed are left as they were; the work slice is left at zeros.
pub fn clear_lent(
    hour: Hour<'_>,
    bought: &mut [u64],
    sold: &mut [u64],
    flow: &mut [u64],
    price: &mut [u64],
    work: &mut [u64],
) -> u64
    requires slices { Roomy hour.buys hour.sells hour.lines hour.zones bought.old sold.old flow.old price.old }
    requires work { 3 * (hour.buys + hour.sells + hour.lines) ≤ length work.old }
    ensures found { Found (market_of hour.entry.bytes.now) result (result_in (market_of hour.entry.bytes.now) bought.new sold.new flow.new) (prices_in (market_of hour.entry.bytes.now) price.new) }
    ensures bought { drop hour.entry.buys bought.new ≡ drop hour.entry.buys bought.old }
    ensures sold { drop hour.entry.sells sold.new ≡ drop hour.entry.sells sold.old }
    ensures flow { drop hour.entry.lines flow.new ≡ drop hour.entry.lines flow.old }
    ensures price { drop hour.entry.zones price.new ≡ drop hour.entry.zones price.old }
    ensures work { work.new ≡ replicate (length work.old) 0 }
{
    let pushes = clear_laid(hour, bought, sold, flow, price, work);
    work.fill(0);
    pushes
}
