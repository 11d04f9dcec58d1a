// What clearing promises: each function's contract is one statement, proved of the definitions.
ghost use Rattle.prices.specs.Promises.{FoundPromised, AlwaysFound, OneFound, OneTablesAnswer};

pub fn found_promised_holds()
    ensures { FoundPromised }
{}

pub fn always_found_holds()
    ensures { AlwaysFound }
{}

pub fn one_found_holds()
    ensures { OneFound }
{}

/// Two answers of `clear` to the same tables and the same lent slices, with all numbers that they leave, are the same.
pub fn one_tables_answer_holds()
    ensures { OneTablesAnswer }
{}
