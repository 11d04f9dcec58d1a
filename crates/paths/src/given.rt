// What a search is given.
ghost use Rattle.std.proofs.Props.{props};
ghost use Rattle.paths.specs.Search.{Sound};

use network::{Amounts, Tables};

// A proper market, small enough to count in 64 bits, with an amount for each bid and a flow for each line.
#[derive(Clone, Copy)]
pub struct Given<'a> {
    pub tables: Tables<'a>,
    pub amounts: Amounts<'a>,
    ghost sound: { Sound tables amounts } by { Prim.hlevel props },
}
