//! Reading what comes in, within its limits: of bytes that no input can have, no more is kept than tells what becomes of them.
ghost use Rattle.std.specs.Prelude.{◌≡◌, ◌+◌, ◌<◌, ◌≤◌, vec_len, IfOk, OnOk};
ghost use Rattle.hour.specs.Rules.{longest_hour};
ghost use Rattle.office.specs.Reading.{ReadsMore, ReadsUpTo, CountsRest, HourCame};

use hour::{HEAD_SIZE, LONGEST_HOUR, Refusal, check_limits};
use std::alloc::Global;
use std::io;
use std::io::{Error, ErrorKind, Read};

// How many bytes are asked for at once, at most.
const CHUNK: usize = 8192;

// One read of at most `room` bytes more. Answers whether the reader is at its end.
fn read_more<R: Read>(reader: &mut R, room: usize, bytes: &mut Vec<u8>) -> io::Result<bool>
    requires { 0 < room }
    ensures { IfOk result (λ ended. ReadsMore (R.remaining reader.old) (R.remaining reader.new) room ended bytes.old.items bytes.new.items) }
{
    let mut chunk = [0u8; CHUNK];
    let most = room.min(chunk.len());
    match reader.read(&mut chunk[..most]) {
        Ok(n) => {
            bytes.extend_from_slice(&chunk[..n])?;
            Ok(n == 0)
        }
        Err(error) if error.kind() == ErrorKind::Interrupted => Ok(false),
        Err(error) => Err(error),
    }
}

/// Reads on until there are `limit` bytes in all, or the reader is at its end. After an error, some of what was read may be lost.
pub fn read_up_to<R: Read>(reader: &mut R, limit: usize, bytes: &mut Vec<u8>) -> io::Result<()>
    ensures { OnOk result (ReadsUpTo (R.remaining reader.old) (R.remaining reader.new) limit bytes.old.items bytes.new.items) }
{
    for _ in 0..u64::MAX {
        if bytes.len() >= limit {
            return Ok(());
        }
        let room = limit - bytes.len();
        if read_more(reader, room, bytes)? {
            return Ok(());
        }
    }
    Err(endless())
}

fn endless() -> Error {
    Error::new(ErrorKind::FileTooLarge, "the input does not end")
}

// Reads to the end, and keeps nothing. Answers how many bytes came, of which so many were read before.
fn count_rest<R: Read>(heap: Global, reader: &mut R, before: usize) -> io::Result<usize>
    ensures { IfOk result (CountsRest (R.remaining reader.old) (R.remaining reader.new) before) }
{
    let mut came = before;
    let mut chunk = Vec::new(heap);
    for _ in 0..u64::MAX {
        chunk.clear();
        let ended = read_more(reader, CHUNK, &mut chunk)?;
        match came.checked_add(chunk.len()) {
            Some(more) => came = more,
            None => return Err(endless()),
        }
        if ended {
            return Ok(came);
        }
    }
    Err(endless())
}

/// What came of an hour: the bytes that were kept, and why the hour is refused where that is known without the others.
#[derive(Drop)]
pub struct Came {
    /// All bytes of the hour, or its first ones where it is refused.
    pub bytes: Vec<u8>,
    /// Why it is refused, if its head or its length tells.
    pub refusal: Option<Refusal>,
}

/// Reads an hour. Where its head is refused, nothing behind the head is read; bytes behind the longest hour that there can be are
/// counted and not kept.
pub fn read_hour<R: Read>(heap: Global, reader: &mut R) -> io::Result<Came>
    ensures came { IfOk result (HourCame (R.remaining reader.old) (R.remaining reader.new)) }
    ensures within { IfOk result (λ came. vec_len came.bytes ≤ longest_hour + 1) }
{
    let mut bytes = Vec::new(heap);
    read_up_to(reader, HEAD_SIZE, &mut bytes)?;
    if let Err(refusal) = check_limits(bytes.as_slice()) {
        return Ok(Came {
            bytes,
            refusal: Some(refusal),
        });
    }
    if bytes.len() < HEAD_SIZE {
        return Ok(Came {
            bytes,
            refusal: None,
        });
    }
    read_up_to(reader, LONGEST_HOUR + 1, &mut bytes)?;
    if bytes.len() <= LONGEST_HOUR {
        return Ok(Came {
            bytes,
            refusal: None,
        });
    }
    let came = count_rest(heap, reader, bytes.len())?;
    Ok(Came {
        bytes,
        refusal: Some(Refusal::Length { came }),
    })
}
