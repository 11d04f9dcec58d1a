// What the ledger promises: each function's contract is one statement, proved of the ledger's definitions.
ghost use Rattle.ledger.specs.Whole.{OneAnswer, WholePromise, AlwaysCleared, OneText};
ghost use Rattle.ledger.specs.Promises.{LedgerEven, SumsSmall, OneLedger, WorthSmall, TextSays};

pub fn ledger_even_holds()
    ensures { LedgerEven }
{}

pub fn sums_small_holds()
    ensures { SumsSmall }
{}

pub fn one_ledger_holds()
    ensures { OneLedger }
{}

pub fn worth_small_holds()
    ensures { WorthSmall }
{}

pub fn text_says_holds()
    ensures { TextSays }
{}

pub fn one_answer_holds()
    ensures { OneAnswer }
{}

pub fn whole_promise_holds()
    ensures { WholePromise }
{}

pub fn always_cleared_holds()
    ensures { AlwaysCleared }
{}

pub fn one_text_holds()
    ensures { OneText }
{}
