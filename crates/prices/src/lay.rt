// The bids and lines of an hour, laid into tables of three numbers to an item.
ghost use Rattle.std.specs.Prelude.{◌≡◌, ℕ, ◌*◌, ◌<◌, length};
ghost use Rattle.hour.specs.Bytes.{market_of};
ghost use Rattle.hour.specs.Market.{bid, line};
ghost use Rattle.network.specs.Tables.{bids_in, lines_in};
ghost use Rattle.prices.specs.Laid.{Laid, bid_numbers, line_numbers};

use hour::{Bid, Hour};

// So many rows of a table, each as `row` says. By number: of the rows that `as_chunks_mut` or `chunks_exact_mut` lends, the library
// does not say that the table becomes what was written to them.
fn lay<F: Fn(usize) -> [u64; 3]>(table: &mut [u64], count: usize, row: F)
    requires long { length table.old ≡ 3 * count }
    requires rows { (k : ℕ) → k < count → F.pre row k }
    ensures { (k : ℕ) → k < count → (r : _) × F.post row k r × Laid table.new k r }
{
    for k in 0..count {
        table[3 * k..3 * k + 3].copy_from_slice(&row(k));
    }
}

fn bid_row(bid: Bid) -> [u64; 3]
    ensures { result ≡ bid_numbers bid }
{
    [bid.zone, bid.price, bid.amount]
}

fn lay_buys(hour: Hour<'_>, table: &mut [u64])
    requires { length table.old ≡ 3 * hour.buys }
    ensures { bids_in table.new ≡ (market_of hour.entry.bytes.now).buys }
{
    lay(
        table,
        hour.buys(),
        |k|
            requires { k < hour.buys }
            ensures { result ≡ bid_numbers (bid (market_of hour.entry.bytes.now).buys k) }
        { bid_row(hour.buy(k)) },
    );
}

fn lay_sells(hour: Hour<'_>, table: &mut [u64])
    requires { length table.old ≡ 3 * hour.sells }
    ensures { bids_in table.new ≡ (market_of hour.entry.bytes.now).sells }
{
    lay(
        table,
        hour.sells(),
        |k|
            requires { k < hour.sells }
            ensures { result ≡ bid_numbers (bid (market_of hour.entry.bytes.now).sells k) }
        { bid_row(hour.sell(k)) },
    );
}

fn lay_lines(hour: Hour<'_>, table: &mut [u64])
    requires { length table.old ≡ 3 * hour.lines }
    ensures { lines_in table.new ≡ (market_of hour.entry.bytes.now).lines }
{
    lay(
        table,
        hour.lines(),
        |k|
            requires { k < hour.lines }
            ensures { result ≡ line_numbers (line (market_of hour.entry.bytes.now).lines k) }
        {
            let line = hour.line(k);
            [line.from, line.to, line.capacity]
        },
    );
}

// The bids and lines of an hour, all three sorts.
pub fn lay_hour(hour: Hour<'_>, buys: &mut [u64], sells: &mut [u64], lines: &mut [u64])
    requires buys { length buys.old ≡ 3 * hour.buys }
    requires sells { length sells.old ≡ 3 * hour.sells }
    requires lines { length lines.old ≡ 3 * hour.lines }
    ensures buys { bids_in buys.new ≡ (market_of hour.entry.bytes.now).buys }
    ensures sells { bids_in sells.new ≡ (market_of hour.entry.bytes.now).sells }
    ensures lines { lines_in lines.new ≡ (market_of hour.entry.bytes.now).lines }
{
    lay_buys(hour, buys);
    lay_sells(hour, sells);
    lay_lines(hour, lines);
}
