// The entry on tables: whatever they hold, they are cleared or refused.
ghost use Rattle.std.specs.Prelude.{◌≡◌, ◌+◌, ◌*◌, ◌^◌, ◌<◌, length};
ghost use Rattle.std.specs.Result.{result_err};
ghost use Rattle.hour.specs.First.{first};
ghost use Rattle.hour.specs.Rules.{item_fault};
ghost use Rattle.network.specs.Tables.{items, rows_in, nth_row, market_in};
ghost use Rattle.network.specs.Given.{market_given};
ghost use Rattle.prices.specs.Ended.{FoundIn, PromisedIn, Left, Wiped, ragged_fault, layout_fault};
ghost use Rattle.prices.specs.Ended.{lengths, slices_fault, tables_fault, Small, TablesAnswer, lent};

use crate::tables::clear_tables;
use hour::{Bid, Entry, Lengths, Line, Refusal, check_counts, check_lent, check_results};
use network::{Row, Tables, row_count, row_in};

// A table has three numbers for each item.
fn check_table(table: &[u64]) -> Result<(), Refusal>
    ensures { result_err result ≡ ragged_fault (length table.now) }
{
    if table.len() % 3 != 0 {
        return Err(Refusal::Length { came: table.len() });
    }
    Ok(())
}

// The first rule that one of a table's rows breaks, behind so many bids in the written hour: the loop that hour has for entries in
// bytes and in lists.
fn check_each<E: Entry + Row>(zones: u64, bids: usize, table: &[u64]) -> Result<(), Refusal>
    requires { E.place bids (items table.now) < 2 ^ 64 }
    ensures { result_err result ≡ first (length (rows_in E.made table.now)) (λ k. E.fault zones (E.place bids k) (nth_row E.made table.now k)) }
{
    for k in 0..row_count(table) {
        row_in::<E>(table, k).check(zones, E::place(bids, k))?;
    }
    Ok(())
}

// The rules on the counts and the lengths of tables.
fn check_layout(t: Tables) -> Result<(), Refusal>
    ensures { result_err result ≡ layout_fault t.entry.zones t.entry.buys.now t.entry.sells.now t.entry.lines.now }
{
    let buys = row_count(t.buys);
    let sells = row_count(t.sells);
    let lines = row_count(t.lines);
    check_counts(t.zones, buys as u64, sells as u64, lines as u64)?;
    check_table(t.buys)?;
    check_table(t.sells)?;
    check_table(t.lines)
}

// The first slice that is too short, of those that hold a result and of the work slice.
fn check_slices(t: Tables, has: Lengths, work: usize) -> Result<(), Refusal>
    requires { Small t.buys.now t.sells.now t.lines.now }
    ensures { result_err result ≡ slices_fault t.entry.zones t.entry.buys.now t.entry.sells.now t.entry.lines.now has work }
{
    let buys = row_count(t.buys);
    let sells = row_count(t.sells);
    let lines = row_count(t.lines);
    let needed = Lengths {
        bought: buys,
        sold: sells,
        flow: lines,
        prices: t.zones as usize,
    };
    check_results(has, needed)?;
    check_lent(5, work, 64 * (buys + sells + lines))
}

// The first rule that a bid or a line breaks, of tables that are not too long.
fn check_items(t: Tables) -> Result<(), Refusal>
    requires { Small t.buys.now t.sells.now t.lines.now }
    ensures { result_err result ≡ item_fault (market_given t.entry) }
{
    let buys = row_count(t.buys);
    let sells = row_count(t.sells);
    check_each::<Bid>(t.zones, 0, t.buys)?;
    check_each::<Bid>(t.zones, buys, t.sells)?;
    check_each::<Line>(t.zones, buys + sells, t.lines)
}

// The first rule that tables and lent slices break.
fn check_tables(t: Tables, has: Lengths, work: usize) -> Result<(), Refusal>
    ensures { result_err result ≡ tables_fault t.entry.zones t.entry.buys.now t.entry.sells.now t.entry.lines.now has work }
{
    check_layout(t)?;
    check_slices(t, has, work)?;
    check_items(t)
}

/// Clears a market in tables, zone, price, amount of each bid and from, to, capacity of each line, beginning with nothing. Lent slices may be
/// longer than needed. On a refusal nothing is changed; else the work slice is left at zeros as far as it is needed. The slices stay apart as
/// they are lent: one value that holds five `&mut` needs a clause for each on what it gives back. The clause `answer` has the others, but for
/// `promised`, in one record, to which only one answer is possible (`one_tables_answer_holds`).
pub fn clear<'a>(
    zones: u64,
    buys: &'a [u64],
    sells: &'a [u64],
    lines: &'a [u64],
    bought: &mut [u64],
    sold: &mut [u64],
    flow: &mut [u64],
    price: &mut [u64],
    work: &mut [u64],
) -> Result<u64, Refusal>
    ensures refusal { result_err result ≡ tables_fault zones buys.now sells.now lines.now (lengths (length bought.old) (length sold.old) (length flow.old) (length price.old)) (length work.old) }
    ensures found { FoundIn result (market_in zones buys.now sells.now lines.now) bought.new sold.new flow.new price.new }
    ensures promised { PromisedIn result (market_in zones buys.now sells.now lines.now) bought.new sold.new flow.new price.new }
    ensures bought { Left result (items buys.now) bought.old bought.new }
    ensures sold { Left result (items sells.now) sold.old sold.new }
    ensures flow { Left result (items lines.now) flow.old flow.new }
    ensures price { Left result zones price.old price.new }
    ensures work { Wiped result (64 * (items buys.now + items sells.now + items lines.now)) work.old work.new }
    ensures answer { TablesAnswer zones buys.now sells.now lines.now (lent bought.old sold.old flow.old price.old work.old) result (lent bought.new sold.new flow.new price.new work.new) }
{
    let t = Tables {
        zones,
        buys,
        sells,
        lines,
    };
    let has = Lengths {
        bought: bought.len(),
        sold: sold.len(),
        flow: flow.len(),
        prices: price.len(),
    };
    check_tables(t, has, work.len())?;
    let items = row_count(buys) + row_count(sells) + row_count(lines);
    let work = &mut work[0..64 * items];
    Ok(clear_tables(t, bought, sold, flow, price, work))
}
