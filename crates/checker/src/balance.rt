// Whether each zone is in balance: what is sold there, flows in and is supplied is what is bought there and flows out.
ghost use Rattle.std.specs.Prelude.{◌≡◌, ◌-◌, ◌*◌, ◌^◌, ◌<◌, ◌≤◌};
ghost use Rattle.std.specs.Result.{result_err};
ghost use Rattle.hour.specs.Seen.{market_seen};
ghost use Rattle.hour.specs.First.{first};
ghost use Rattle.network.specs.Given.{outcome_given};
ghost use Rattle.checker.specs.Acceptance.{side_count, side_zone, side_amounts, side_counted};
ghost use Rattle.checker.specs.Acceptance.{side_total, zone_broken};

use crate::claim::Claim;
use crate::verdict::Broken;
use network::number_at;

/// One of the four sums of a zone's balance.
#[derive(Clone, Copy)]
pub enum Side {
    Sold,
    Into,
    Bought,
    OutOf,
}

impl<'a> Claim<'a> {
    fn side_count(self, side: Side) -> usize
        ensures { result ≡ side_count (market_seen self.entry.hour) side }
    {
        match side {
            Side::Sold => self.hour.sells(),
            Side::Into => self.hour.lines(),
            Side::Bought => self.hour.buys(),
            Side::OutOf => self.hour.lines(),
        }
    }

    // The zone in which item k of a side counts.
    fn side_zone(self, side: Side, k: usize) -> u64
        requires { k < side_count (market_seen self.hour) side }
        ensures { result ≡ side_zone (market_seen self.entry.hour) side k }
    {
        match side {
            Side::Sold => self.hour.sell(k).zone,
            Side::Into => self.hour.line(k).to,
            Side::Bought => self.hour.buy(k).zone,
            Side::OutOf => self.hour.line(k).from,
        }
    }

    // The amount of each item of a side.
    fn side_amounts(self, side: Side) -> &'a [u64]
        ensures { result.now ≡ side_amounts (outcome_given self.entry.amounts) side }
    {
        match side {
            Side::Sold => self.amounts.sold,
            Side::Into => self.amounts.flow,
            Side::Bought => self.amounts.bought,
            Side::OutOf => self.amounts.flow,
        }
    }

    // The amount of item k of a side where it counts in the zone, and else nothing.
    fn counted(self, side: Side, zone: u64, k: usize) -> u64
        requires { k < side_count (market_seen self.hour) side }
        ensures { result
            ≡ side_counted (market_seen self.entry.hour) (outcome_given self.entry.amounts) side zone k }
    {
        if self.side_zone(side, k) == zone {
            number_at(self.side_amounts(side), k)
        } else {
            0
        }
    }

    // The amounts, together, of those items of a side that count in the zone.
    fn side_total(self, side: Side, zone: u64) -> u128
        ensures value { result
            ≡ side_total (market_seen self.entry.hour) (outcome_given self.entry.amounts) side zone }
        ensures small { result ≤ (2 ^ 64 - 1) * side_count (market_seen self.entry.hour) side }
    {
        (0..self.side_count(side))
            .map(|k| u128::from(self.counted(side, zone, k)))
            .sum()
    }

    // Whether as much comes into a zone as goes out of it; an hour's bytes say no supplies.
    fn check_zone(self, zone: usize) -> Result<(), Broken>
        ensures { result_err result
            ≡ zone_broken (market_seen self.entry.hour) (outcome_given self.entry.amounts) zone }
    {
        let z = zone as u64;
        let comes = self.side_total(Side::Sold, z) + self.side_total(Side::Into, z);
        let goes = self.side_total(Side::Bought, z) + self.side_total(Side::OutOf, z);
        if comes != goes {
            return Err(Broken::Unbalanced { zone });
        }
        Ok(())
    }

    /// The first zone out of balance.
    pub fn check_zones(self) -> Result<(), Broken>
        ensures { result_err result
            ≡ first
            (market_seen self.entry.hour).zones
            (zone_broken (market_seen self.entry.hour) (outcome_given self.entry.amounts)) }
    {
        for z in 0..self.hour.zones() as usize {
            self.check_zone(z)?;
        }
        Ok(())
    }
}
