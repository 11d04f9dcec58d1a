// What the market promises: each function's contract is one statement, proved of the market's definitions.
ghost use Rattle.network.specs.Promises.{Best, Dual, Even, MoneyBounded, NoRegret, Exchange, Lattice, OneLowest, LowestCapped, Floor, PlainStart, Cut, Push, AtRest, WorkedHours};
ghost use Rattle.network.specs.Promises.{SumsByLists, BestByLists, EvenByLists, NoRegretByLists, ExchangeByLists};

pub fn best_holds()
    ensures { Best }
{}

pub fn dual_holds()
    ensures { Dual }
{}

pub fn even_holds()
    ensures { Even }
{}

pub fn money_bounded_holds()
    ensures { MoneyBounded }
{}

pub fn no_regret_holds()
    ensures { NoRegret }
{}

pub fn exchange_holds()
    ensures { Exchange }
{}

pub fn lattice_holds()
    ensures { Lattice }
{}

pub fn one_lowest_holds()
    ensures { OneLowest }
{}

pub fn lowest_capped_holds()
    ensures { LowestCapped }
{}

pub fn floor_holds()
    ensures { Floor }
{}

pub fn plain_start_holds()
    ensures { PlainStart }
{}

pub fn cut_holds()
    ensures { Cut }
{}

pub fn push_holds()
    ensures { Push }
{}

pub fn at_rest_holds()
    ensures { AtRest }
{}

pub fn worked_hours_hold()
    ensures { WorkedHours }
{}

pub fn sums_by_lists_hold()
    ensures { SumsByLists }
{}

pub fn best_by_lists_holds()
    ensures { BestByLists }
{}

pub fn even_by_lists_holds()
    ensures { EvenByLists }
{}

pub fn no_regret_by_lists_holds()
    ensures { NoRegretByLists }
{}

pub fn exchange_by_lists_holds()
    ensures { ExchangeByLists }
{}
