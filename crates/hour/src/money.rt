// Prices as money.
ghost use Rattle.std.specs.Prelude.{Some};
ghost use Rattle.hour.specs.Text.{hundredths, money};

use std::fmt;

// The price that stands for no money; one below it is owed.
pub const ZERO_PRICE: u64 = 50_000;

// A price as bids have it: hundredths of the money unit, counted from `ZERO_PRICE`.
#[derive(Clone, Copy, Debug, PartialEq, Eq)]
pub struct Price(pub u64);

// So many hundredths, with their two digits even where they are 0.
#[derive(Clone, Copy, Debug, PartialEq, Eq)]
pub struct Hundredths(pub u64);

impl fmt::Display for Hundredths {
    ghost output = { λ h. Some (hundredths h.0) };

    fn fmt<W: fmt::Write>(&self, f: &mut fmt::Formatter<W>) -> fmt::Result {
        let units = self.0 / 100;
        let tens = self.0 / 10 % 10;
        let ones = self.0 % 10;
        write!(f, "{units}.{tens}{ones}")
    }
}

impl fmt::Display for Price {
    ghost output = { λ p. Some (money p.0) };

    fn fmt<W: fmt::Write>(&self, f: &mut fmt::Formatter<W>) -> fmt::Result {
        if self.0 < ZERO_PRICE {
            let below = Hundredths(ZERO_PRICE - self.0);
            write!(f, "-{below}")
        } else {
            let above = Hundredths(self.0 - ZERO_PRICE);
            write!(f, "{above}")
        }
    }
}
