// The ledger of an hour: who pays what, who gets what, and what the lines earn.
#![tactic(auto)]

mod cleared;
mod entry;
mod money;
pub mod promises;
mod publish;
mod rows;
mod text;
mod worth;

pub use entry::clear;
pub use money::{price_above, price_below};
pub use publish::{Publication, published, published_refusal};
pub use worth::worth_in;
