// One hour of the market, from its bytes to its bids and lines and back.
#![tactic(auto)]

mod books;
mod bytes;
mod entries;
mod items;
mod money;
pub mod promises;
mod reading;
mod refusals;
mod rules;
mod text;
mod view;
mod writing;

pub use books::Book;
pub use entries::Entry;
pub use items::{Bid, Item, Line, Terms};
pub use money::{Hundredths, Price, ZERO_PRICE};
pub use reading::{HEAD_SIZE, Head, check_items, check_limits, read_head, refusal};
pub use refusals::{Refusal, Sort};
pub use rules::{
    LONGEST_HOUR, Lengths, MAX_BIDS, MAX_LINES, MAX_ZONES, check_bid, check_counts, check_lent,
    check_line, check_results,
};
pub use text::listing;
pub use view::{Hour, number_at};
pub use writing::write;
