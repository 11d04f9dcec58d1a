// What is said of a published text, and how it is shown.
ghost use Rattle.std.specs.Prelude.{◌≡◌, Some};
ghost use Rattle.checker.specs.Reports.{broken_shown, figure_word, wrong_shown, report_shown, stands_test};

use crate::verdict::Broken;
use hour::{Refusal, Sort};
use std::fmt;

// A number in a line that is written where another follows: the money of a sort, or the worth.
#[derive(Clone, Copy)]
pub struct Wrong {
    pub line: usize,
    pub figure: Option<Sort>,
    pub follows: i128,
    pub written: i128,
}

#[derive(Clone, Copy)]
pub enum Report {
    // The hour is refused.
    Refused(Refusal),
    // The first line of the text that is not in the form.
    Unreadable { line: usize },
    // The first rule that the result breaks.
    Broken(Broken),
    // The first number that does not follow from the amounts and the prices.
    Wrong(Wrong),
    // The result stands; with the first zone whose price could be lower.
    Accepted { lower: Option<usize> },
}

impl Report {
    // Whether the result is accepted, its prices are the lowest, and all its rows follow.
    pub fn stands(&self) -> bool
        ensures { result ≡ stands_test self.now }
    {
        matches!(*self, Report::Accepted { lower: None })
    }
}

fn figure_word(figure: Option<Sort>) -> &'static str
    ensures { result.now ≡ figure_word figure }
{
    match figure {
        None => "worth",
        Some(Sort::Buy) => "pays",
        Some(Sort::Sell) => "gets",
        Some(Sort::Line) => "earns",
    }
}

impl fmt::Display for Broken {
    ghost output = { λ b. Some (broken_shown b) };

    fn fmt<W: fmt::Write>(&self, f: &mut fmt::Formatter<W>) -> fmt::Result {
        let rule = self.rule();
        let number = self.number();
        match self.sort() {
            Some(sort) => write!(f, "broken {rule} {sort} {number}"),
            None => write!(f, "broken {rule} zone {number}"),
        }
    }
}

impl fmt::Display for Wrong {
    ghost output = { λ w. Some (wrong_shown w) };

    fn fmt<W: fmt::Write>(&self, f: &mut fmt::Formatter<W>) -> fmt::Result {
        let line = self.line;
        let word = figure_word(self.figure);
        let follows = self.follows;
        let written = self.written;
        write!(f, "wrong at line {line}: {word} {follows}, not {written}")
    }
}

impl fmt::Display for Report {
    ghost output = { λ r. Some (report_shown r) };

    fn fmt<W: fmt::Write>(&self, f: &mut fmt::Formatter<W>) -> fmt::Result {
        match *self {
            Report::Refused(refusal) => write!(f, "{refusal}"),
            Report::Unreadable { line } => write!(f, "unreadable at line {line}"),
            Report::Broken(broken) => write!(f, "{broken}"),
            Report::Wrong(wrong) => write!(f, "{wrong}"),
            Report::Accepted { lower: Some(zone) } => write!(
                f,
                "accepted\nzone {zone} could be lower"
            ),
            Report::Accepted { lower: None } => write!(f, "accepted\nlowest"),
        }
    }
}
