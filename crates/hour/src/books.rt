// An hour's bids and lines as lists.
use crate::items::{Bid, Line};

// An hour to be written: its number of zones, its bids and its lines.
#[derive(Clone, Copy)]
pub struct Book<'a> {
    pub zones: u64,
    pub buys: &'a [Bid],
    pub sells: &'a [Bid],
    pub lines: &'a [Line],
}
