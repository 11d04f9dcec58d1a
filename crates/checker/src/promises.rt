// What the checker promises: each function's contract is one statement, proved of the definitions.
ghost use Rattle.checker.specs.Promises.{AcceptedBest, PublishedAccepted, LowestFound, HouseAccepted, HouseLowest};
ghost use Rattle.checker.specs.Promises.{OneLowness, OneReport, ReadBack, HouseText};
ghost use Rattle.checker.specs.Promises.{NoLonger, FrontRead, FrontReported};
ghost use Rattle.checker.specs.Form.{longest_text};
ghost use Rattle.std.specs.Prelude.{◌≡◌};

use crate::form::LONGEST_TEXT;

pub fn accepted_best_holds()
    ensures { AcceptedBest }
{}

pub fn published_accepted_holds()
    ensures { PublishedAccepted }
{}

pub fn lowest_found_holds()
    ensures { LowestFound }
{}

pub fn one_lowness_holds()
    ensures { OneLowness }
{}

pub fn one_report_holds()
    ensures { OneReport }
{}

pub fn house_accepted_holds()
    ensures { HouseAccepted }
{}

pub fn house_lowest_holds()
    ensures { HouseLowest }
{}

pub fn read_back_holds()
    ensures { ReadBack }
{}

pub fn house_text_holds()
    ensures { HouseText }
{}

/// The constant of the code is the number of the definition.
pub fn longest_text_holds()
    ensures { LONGEST_TEXT ≡ longest_text }
{}

pub fn no_longer_holds()
    ensures { NoLonger }
{}

pub fn front_read_holds()
    ensures { FrontRead }
{}

pub fn front_reported_holds()
    ensures { FrontReported }
{}
