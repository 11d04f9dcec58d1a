// An hour cleared: its bids and lines in tables, and the prices that settle what comes of it.
#![tactic(auto)]

mod clearing;
mod entry;
mod hours;
mod lay;
pub mod promises;
mod tables;

pub use clearing::clear_hour;
pub use entry::clear;
pub use hours::clear_lent;
pub use tables::clear_tables;
