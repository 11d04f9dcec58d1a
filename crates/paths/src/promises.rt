// What a search promises of its tables: each function's contract is one statement, proved of the definitions.
ghost use Rattle.paths.specs.Promises.{OnePlan, SomePlan, PlanShown, RingsEven, LowestLabels};

pub fn one_plan_holds()
    ensures { OnePlan }
{}

pub fn some_plan_holds()
    ensures { SomePlan }
{}

pub fn plan_shown_holds()
    ensures { PlanShown }
{}

pub fn rings_even_holds()
    ensures { RingsEven }
{}

pub fn lowest_labels_holds()
    ensures { LowestLabels }
{}
