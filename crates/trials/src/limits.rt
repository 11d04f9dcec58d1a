// Hours whose every number is at one end of what the rules allow.
use std::alloc::{AllocError, Global};

#[derive(Clone, Copy)]
pub struct Counts {
    pub zones: u8,
    pub buys: u16,
    pub sells: u16,
    pub lines: u16,
}

fn push_count(bytes: &mut Vec<u8>, count: u16) -> Result<(), AllocError> {
    bytes.extend_from_slice(&count.to_le_bytes())
}

// By turns a bid of the highest price and the largest amount in the last zone, and one of the lowest and the smallest in the first:
// 400,000 is 80 1a 06, the low byte first, and 1,000,000 is 40 42 0f.
fn push_bids(bytes: &mut Vec<u8>, zones: u8, count: u16) -> Result<(), AllocError> {
    let last = zones.saturating_sub(1);
    let highest: [u8; 7] = [last, 0x80, 0x1a, 0x06, 0x40, 0x42, 0x0f];
    let lowest: [u8; 7] = [0, 0, 0, 0, 1, 0, 0];
    for bid in [highest, lowest].iter().cycle().take(usize::from(count)) {
        bytes.extend_from_slice(bid)?;
    }
    Ok(())
}

// By turns a line from the last zone to the first, with the largest capacity, and one from the first to itself, with none.
fn push_lines(bytes: &mut Vec<u8>, zones: u8, count: u16) -> Result<(), AllocError> {
    let last = zones.saturating_sub(1);
    let widest: [u8; 5] = [last, 0, 0x40, 0x42, 0x0f];
    let closed: [u8; 5] = [0, 0, 0, 0, 0];
    for line in [widest, closed].iter().cycle().take(usize::from(count)) {
        bytes.extend_from_slice(line)?;
    }
    Ok(())
}

pub fn hour_of(heap: Global, counts: Counts) -> Result<Vec<u8>, AllocError> {
    let mut bytes = Vec::new(heap);
    bytes.push(counts.zones)?;
    push_count(&mut bytes, counts.buys)?;
    push_count(&mut bytes, counts.sells)?;
    push_count(&mut bytes, counts.lines)?;
    push_bids(&mut bytes, counts.zones, counts.buys)?;
    push_bids(&mut bytes, counts.zones, counts.sells)?;
    push_lines(&mut bytes, counts.zones, counts.lines)?;
    Ok(bytes)
}
