// Whether a published result of an hour stands, looked at with no trust in who published it or how it was found.
#![tactic(auto)]

mod accept;
mod balance;
mod claim;
mod follows;
mod form;
mod holders;
mod lent;
mod marks;
pub mod promises;
mod ranking;
mod reading;
mod reports;
mod standing;
mod telling;
mod verdict;

pub use accept::check;
pub use form::{Counts, LONGEST_TEXT, Rows, Said, Stop, Zones, read_text};
pub use ranking::lowest;
pub use reports::{Report, Wrong};
pub use telling::report_on;
pub use verdict::{Broken, Objection};
