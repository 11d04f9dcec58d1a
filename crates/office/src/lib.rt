//! What the office's programs share: an input is read within its limits, cleared or checked, and the answer is written.
#![tactic(auto)]

mod checking;
mod clearing;
mod faults;
mod files;
mod hints;
mod programs;
mod reading;
mod status;
mod troubles;
mod writing;

pub use checking::check_published;
pub use clearing::{Answer, clear_hour};
pub use faults::Fault;
pub use files::{Aside, First, Second, Source};
pub use hints::{Hint, hour_hint, text_hint};
pub use programs::{VERSION, clear_to_file, end, end_answer, end_call, words};
pub use reading::{Came, read_hour, read_up_to};
pub use status::Status;
pub use troubles::Trouble;
pub use writing::deliver;

#[cfg(test)]
mod tests;
