// Hours read into lists, and written again from these.
use hour::{Bid, Book, Hour, Line};
use lent::written;
use std::alloc::{AllocError, Global};

pub fn buys_of(heap: Global, hour: Hour<'_>) -> Result<Vec<Bid>, AllocError> {
    (0..hour.buys()).map(|k| hour.buy(k)).collect(heap)
}

pub fn sells_of(heap: Global, hour: Hour<'_>) -> Result<Vec<Bid>, AllocError> {
    (0..hour.sells()).map(|k| hour.sell(k)).collect(heap)
}

pub fn lines_of(heap: Global, hour: Hour<'_>) -> Result<Vec<Line>, AllocError> {
    (0..hour.lines()).map(|k| hour.line(k)).collect(heap)
}

// Whether the bytes are those of an hour that is written as the same bytes.
pub fn written_back(heap: Global, bytes: &[u8]) -> Result<bool, AllocError> {
    let Ok(hour) = Hour::try_from(bytes) else {
        return Ok(false);
    };
    let buys = buys_of(heap, hour)?;
    let sells = sells_of(heap, hour)?;
    let lines = lines_of(heap, hour)?;
    let book = Book {
        zones: hour.zones(),
        buys: buys.as_slice(),
        sells: sells.as_slice(),
        lines: lines.as_slice(),
    };
    Ok(written(heap, book)?.as_slice() == bytes)
}
