// What is promised of whole hours: each function's contract is one statement of specs/Promises.antt.
ghost use Rattle.hour.specs.Promises.{ReadBack, WrittenBack, OnlyHours, FrontTells};

pub fn what_is_written_is_read_back()
    ensures { ReadBack }
{}

pub fn what_is_read_is_written_back()
    ensures { WrittenBack }
{}

pub fn only_hours_are_taken()
    ensures { OnlyHours }
{}

pub fn front_tells_of_all()
    ensures { FrontTells }
{}
