// What holds the price of a zone up: a bid at exactly that price, or a line to a marked zone of the same price.
ghost use Rattle.std.specs.Prelude.{◌≡◌, ◌<◌, IfSome};
ghost use Rattle.hour.specs.Market.{count_of};
ghost use Rattle.hour.specs.Seen.{market_seen};
ghost use Rattle.hour.specs.declared.refusals.Sort.TheVariants as sorts;
ghost use Rattle.checker.specs.Acceptance.{claimed};
ghost use Rattle.checker.specs.Seeking.{buy_test, sell_test, level_test, out_test, in_test, sort_test};
ghost use Rattle.checker.specs.Seeking.{marked, holder, held_test, next_held, new_test};

use crate::claim::Marked;
use hour::Sort;
use network::number_at;

impl Marked<'_> {
    // A buy at the zone's price, with room for more.
    fn buy_holds(self, z: usize, k: usize) -> bool
        requires { k < self.claim.hour.buys }
        ensures { result ≡ claimed buy_test self.entry.claim z k }
    {
        let buy = self.claim.hour.buy(k);
        buy.zone as usize == z
            && buy.price == number_at(self.claim.prices, z)
            && number_at(self.claim.amounts.bought, k) < buy.amount
    }

    // A sell at the zone's price that has sold something.
    fn sell_holds(self, z: usize, k: usize) -> bool
        requires { k < self.claim.hour.sells }
        ensures { result ≡ claimed sell_test self.entry.claim z k }
    {
        let sell = self.claim.hour.sell(k);
        sell.zone as usize == z
            && sell.price == number_at(self.claim.prices, z)
            && number_at(self.claim.amounts.sold, k) > 0
    }

    // Whether zone w has a mark and the price of z.
    fn is_level(self, z: usize, w: usize) -> bool
        ensures { result ≡ level_test self.entry.claim.prices.now self.entry.marks.now z w }
    {
        number_at(self.marks, w) == 1
            && number_at(self.claim.prices, w) == number_at(self.claim.prices, z)
    }

    // A line out of the zone, with room for more.
    fn leads_out(self, z: usize, l: usize) -> bool
        requires { l < self.claim.hour.lines }
        ensures { result ≡ marked out_test self.entry z l }
    {
        let line = self.claim.hour.line(l);
        line.from as usize == z
            && number_at(self.claim.amounts.flow, l) < line.capacity
            && self.is_level(z, line.to as usize)
    }

    // A line into the zone that carries something.
    fn leads_in(self, z: usize, l: usize) -> bool
        requires { l < self.claim.hour.lines }
        ensures { result ≡ marked in_test self.entry z l }
    {
        let line = self.claim.hour.line(l);
        line.to as usize == z
            && number_at(self.claim.amounts.flow, l) > 0
            && self.is_level(z, line.from as usize)
    }

    fn line_holds(self, z: usize, l: usize) -> bool
        requires { l < self.claim.hour.lines }
        ensures { result ≡ marked sort_test self.entry z sorts.Line l }
    {
        self.leads_out(z, l) || self.leads_in(z, l)
    }

    // Whether the price of zone z is held up by number k of a sort.
    fn holds(self, z: usize, sort: Sort, k: usize) -> bool
        requires { k < count_of (market_seen self.claim.hour) sort }
        ensures { result ≡ marked sort_test self.entry z sort k }
    {
        match sort {
            Sort::Buy => self.buy_holds(z, k),
            Sort::Sell => self.sell_holds(z, k),
            Sort::Line => self.line_holds(z, k),
        }
    }

    // The first of a sort that holds the price of zone z up.
    fn find_holder(self, z: usize, sort: Sort) -> Option<usize>
        ensures { result ≡ marked holder self.entry z sort }
    {
        (0..self.claim.hour.count(sort)).find(|k| self.holds(z, sort, *k))
    }

    fn is_held(self, z: usize) -> bool
        ensures { result ≡ marked held_test self.entry z }
    {
        number_at(self.claim.prices, z) == 0
            || self.find_holder(z, Sort::Buy).is_some()
            || self.find_holder(z, Sort::Sell).is_some()
            || self.find_holder(z, Sort::Line).is_some()
    }

    fn is_newly_held(self, z: usize) -> bool
        ensures { result ≡ marked new_test self.entry z }
    {
        number_at(self.marks, z) == 0 && self.is_held(z)
    }

    // The first zone without a mark whose price is held up.
    pub fn next_held(self) -> Option<usize>
        ensures among { IfSome result (λ z. z < (market_seen self.entry.claim.hour).zones) }
        ensures value { result ≡ marked next_held self.entry }
    {
        (0..self.claim.hour.zones() as usize).find(|z| self.is_newly_held(*z))
    }
}
