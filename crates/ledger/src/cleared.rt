// An hour with an outcome that can be carried out, and prices that can be paid.
ghost use Rattle.hour.specs.Seen.{market_seen};
ghost use Rattle.network.specs.Given.{outcome_given};
ghost use Rattle.ledger.specs.Money.{Payable};

use hour::Hour;
use network::Amounts;

#[derive(Clone, Copy)]
pub struct Cleared<'h, 'o, 'p> {
    pub hour: Hour<'h>,
    pub amounts: Amounts<'o>,
    pub prices: &'p [u64],
    ghost payable: { Payable (market_seen hour) (outcome_given amounts) prices.now },
}
