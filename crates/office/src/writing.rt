//! Writing what was answered.
ghost use Rattle.std.specs.Prelude.{◌≤◌, length, IfOk, IfSome};
ghost use Rattle.office.specs.Writing.{Wrote, TakesSome, taken};

use std::io;
use std::io::{Error, ErrorKind, Write};

// One write. Answers how many bytes were taken, none where it was interrupted; and nothing where whoever reads them has gone.
fn write_some<W: Write>(writer: &mut W, text: &[u8]) -> io::Result<Option<usize>>
    ensures within { IfOk result (λ taken. IfSome taken (λ n. n ≤ length text.now)) }
    ensures taken { TakesSome (W.contents writer.old) (W.contents writer.new) result text.now }
{
    match writer.write(text) {
        Ok(0) => Err(Error::new(ErrorKind::WriteZero, "nothing more is taken")),
        Ok(n) => Ok(Some(n)),
        Err(error) if error.kind() == ErrorKind::BrokenPipe => Ok(None),
        Err(error) if error.kind() == ErrorKind::Interrupted => Ok(Some(0)),
        Err(error) => Err(error),
    }
}

/// Writes a text. Answers whether it was taken whole: that whoever reads it has gone is no error. After an error, or where the reader
/// is gone, a front of the text was written.
pub fn deliver<W: Write>(writer: &mut W, text: &[u8]) -> io::Result<bool>
    ensures { Wrote (W.contents writer.old) (W.contents writer.new) text.now (taken result) }
{
    let mut rest = text;
    for _ in 0..u64::MAX {
        if rest.is_empty() {
            return Ok(true);
        }
        let Some(n) = write_some(writer, rest)? else {
            return Ok(false);
        };
        rest = &rest[n..];
    }
    Err(Error::new(ErrorKind::TimedOut, "the answer is taken too slowly"))
}
