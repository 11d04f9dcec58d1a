// The rows of a ledger: one for each item, sort by sort, and then the three sums.
ghost use Rattle.std.specs.Prelude.{◌≡◌, ◌+◌, ◌<◌, ◌≤◌, length, drop, unsigned_abs};
ghost use Rattle.hour.specs.Seen.{market_seen};
ghost use Rattle.network.specs.Given.{item};
ghost use Rattle.hour.specs.Market.{count_of};
ghost use Rattle.ledger.specs.Money.{row_count};
ghost use Rattle.ledger.specs.Cleared.{money_in, LedgerIn};
ghost use Rattle.ledger.specs.Written.{widest, Rows};

use crate::cleared::Cleared;
use hour::Sort;
use network::Item;

impl Cleared<'_, '_, '_> {
    // The money of the k-th item of a sort.
    #[tactic(auto, using(crate::proofs::Writing::money_kept))]
    fn row_money(self, sort: Sort, k: usize) -> i64
        requires { k < count_of (market_seen self.hour) sort }
        ensures value { result ≡ money_in self.entry (item sort k) }
        ensures small { unsigned_abs result ≤ widest sort }
    {
        self.money_of(Item::of(sort, k))
    }

    // The rows of one sort, each number as its two's complement; answers their sum.
    fn write_rows(self, sort: Sort, rows: &mut [u64]) -> i64
        requires { length rows.old ≡ count_of (market_seen self.hour) sort }
        ensures { Rows self.entry sort (length rows.new) rows.new result }
    {
        let mut sum: i64 = 0;
        for (k, row) in rows.iter_mut().enumerate() {
            let money = self.row_money(sort, k);
            *row = money.cast_unsigned();
            sum += money;
        }
        sum
    }

    // The money of each buy, sell and line in the order of the hour, and the three sums behind them; what stands behind these stays.
    pub fn write_ledger(self, ledger: &mut [u64])
        requires { row_count (market_seen self.hour) + 3 ≤ length ledger.old }
        ensures ledger { LedgerIn self.entry ledger.new }
        ensures behind { drop (row_count (market_seen self.entry.hour) + 3) ledger.new ≡ drop (row_count (market_seen self.entry.hour) + 3) ledger.old }
    {
        let (buys, rest) = ledger.split_at_mut(self.hour.buys());
        let (sells, rest) = rest.split_at_mut(self.hour.sells());
        let (lines, sums) = rest.split_at_mut(self.hour.lines());
        let paid = self.write_rows(Sort::Buy, buys);
        let got = self.write_rows(Sort::Sell, sells);
        let earned = self.write_rows(Sort::Line, lines);
        sums[0] = paid.cast_unsigned();
        sums[1] = got.cast_unsigned();
        sums[2] = earned.cast_unsigned();
    }
}
