// What a run promises: each function's contract is one statement, proved of the definitions.
ghost use Rattle.circulation.specs.Promises.{PushByPush, RunSettles, OneRun, RunEnds, LabelsFall, Always, AlwaysByLists};

pub fn push_by_push_holds()
    ensures { PushByPush }
{}

pub fn run_settles_holds()
    ensures { RunSettles }
{}

pub fn one_run_holds()
    ensures { OneRun }
{}

pub fn run_ends_holds()
    ensures { RunEnds }
{}

pub fn labels_fall_holds()
    ensures { LabelsFall }
{}

pub fn always_holds()
    ensures { Always }
{}

pub fn always_by_lists_holds()
    ensures { AlwaysByLists }
{}
