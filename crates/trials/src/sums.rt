// Hours whose sums are as large as the rules allow: every buy at the highest price and every sell at the lowest, all of the largest
// amount, in one zone.
use hour::{Bid, Book};
use lent::written;
use std::alloc::{AllocError, Global};

const HIGHEST_PRICE: u64 = 400_000;

const LARGEST_AMOUNT: u64 = 1_000_000;

// So many bids of the largest amount at one price.
fn bids_at(heap: Global, price: u64, count: usize) -> Result<Vec<Bid>, AllocError> {
    let bid = Bid {
        zone: 0,
        price,
        amount: LARGEST_AMOUNT,
    };
    vec![in heap; bid; count]
}

pub fn largest_hour(heap: Global, buys: usize, sells: usize) -> Result<Vec<u8>, AllocError> {
    let buy = bids_at(heap, HIGHEST_PRICE, buys)?;
    let sell = bids_at(heap, 0, sells)?;
    let book = Book {
        zones: 1,
        buys: buy.as_slice(),
        sells: sell.as_slice(),
        lines: &[],
    };
    written(heap, book)
}
