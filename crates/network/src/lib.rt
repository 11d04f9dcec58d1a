// The market as a network: bids and lines are arcs between zones and one hub.
#![tactic(auto)]

pub mod arcs;
pub mod promises;
pub mod settled;
pub mod tables;

pub use arcs::{Item, Step};
pub use tables::{Amounts, Row, Tables, item_at, number_at, row_at, row_count, row_in, worth_of};

#[cfg(test)]
mod tests;
