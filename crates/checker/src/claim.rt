// A published result of an hour, as it is looked at.
use hour::Hour;
use network::Amounts;

// The amounts, the flows and the prices that are claimed for an hour.
#[derive(Clone, Copy)]
pub struct Claim<'a> {
    pub hour: Hour<'a>,
    pub amounts: Amounts<'a>,
    pub prices: &'a [u64],
}

// A claim with marks on some of its zones.
#[derive(Clone, Copy)]
pub struct Marked<'a> {
    pub claim: Claim<'a>,
    pub marks: &'a [u64],
}
