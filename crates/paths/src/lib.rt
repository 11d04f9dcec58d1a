// Shortest ways to the hub through what an outcome leaves free.
#![tactic(auto)]

mod given;
pub mod promises;
mod relax;
mod search;
mod takers;
mod ways;

pub use search::find_ways;
pub use ways::{Way, way_at};
