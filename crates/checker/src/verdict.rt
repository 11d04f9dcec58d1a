// What the checker finds against a result: each case holds what was found, and where.
ghost use Rattle.std.specs.Prelude.{◌≡◌};
ghost use Rattle.checker.specs.Breach.{rule_of, sort_of, number_of};
ghost use Rattle.checker.specs.declared.verdict.Objection.TheVariants as objections;

use hour::{Refusal, Sort};

// A rule that a published result breaks, with the sort and the number of what breaks it.
#[derive(Clone, Copy, Debug, PartialEq, Eq)]
pub enum Broken {
    // A buy, a sell or a line has more than it takes.
    TooLarge { sort: Sort, number: usize },
    // The prices leave it with another amount.
    NotAllowed { sort: Sort, number: usize },
    // What comes into a zone is not what goes out of it.
    Unbalanced { zone: usize },
}

impl Broken {
    // The number by which the office publishes the rule.
    pub fn rule(&self) -> u64
        ensures { result ≡ rule_of self.now }
    {
        match self {
            Broken::TooLarge { .. } => 20,
            Broken::NotAllowed { .. } => 21,
            Broken::Unbalanced { .. } => 22,
        }
    }

    // A buy, a sell or a line; none of them where it is a zone.
    pub fn sort(&self) -> Option<Sort>
        ensures { result ≡ sort_of self.now }
    {
        match *self {
            Broken::TooLarge { sort, .. } => Some(sort),
            Broken::NotAllowed { sort, .. } => Some(sort),
            Broken::Unbalanced { .. } => None,
        }
    }

    // The number of the buy, the sell, the line or the zone.
    pub fn number(&self) -> usize
        ensures { result ≡ number_of self.now }
    {
        match *self {
            Broken::TooLarge { number, .. } => number,
            Broken::NotAllowed { number, .. } => number,
            Broken::Unbalanced { zone } => zone,
        }
    }
}

// What there is against a result.
#[derive(Clone, Copy, Debug, PartialEq, Eq)]
pub enum Objection {
    // The hour or a lent slice is refused.
    Refused(Refusal),
    // The first rule that the result breaks.
    Broken(Broken),
}

impl From<Refusal> for Objection {
    ghost from_gives = { λ refusal objection. objection ≡ objections.Refused refusal };

    fn from(refusal: Refusal) -> Objection {
        Objection::Refused(refusal)
    }
}

impl From<Broken> for Objection {
    ghost from_gives = { λ broken objection. objection ≡ objections.Broken broken };

    fn from(broken: Broken) -> Objection {
        Objection::Broken(broken)
    }
}
