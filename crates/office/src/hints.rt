//! What may be wrong with an input that was refused, or that is not in the form: said beside the answer, and no part of it.
ghost use Rattle.std.specs.Prelude.{◌≡◌, ◌==◌, ◌&&◌, drop, Some};
ghost use Rattle.std.specs.List.{list_any, zip};
ghost use Rattle.office.specs.Hints.{hint_shown, hour_hint, text_hint};

use std::fmt;

/// What a file looks like that is not what was asked for.
#[derive(Clone, Copy, Debug, PartialEq, Eq)]
pub enum Hint {
    /// A published result stands in the place of an hour.
    ResultForHour,
    /// It begins with a byte order mark.
    ByteOrderMark,
    /// It has carriage returns, as at line ends that are CR LF.
    CarriageReturns,
    /// A line ends in a space.
    SpaceAtLineEnd,
}

impl fmt::Display for Hint {
    ghost output = { λ hint. Some (hint_shown hint) };

    fn fmt<W: fmt::Write>(&self, f: &mut fmt::Formatter<W>) -> fmt::Result {
        match self {
            Hint::ResultForHour => write!(
                f,
                "the hour begins like a published result: is it the wrong file?"
            ),
            Hint::ByteOrderMark => write!(f, "there is a byte order mark at the beginning"),
            Hint::CarriageReturns => write!(f, "there are carriage returns: lines end in LF alone"),
            Hint::SpaceAtLineEnd => write!(f, "there is a space at the end of a line"),
        }
    }
}

// How a published result begins.
const RESULT_START: [u8; 6] = *b"worth ";

// The byte order mark of UTF-8.
const BYTE_ORDER_MARK: [u8; 3] = [0xef, 0xbb, 0xbf];

/// What the first bytes of an hour look like, if not like an hour's.
pub fn hour_hint(front: &[u8]) -> Option<Hint>
    ensures { result ≡ hour_hint front.now }
{
    if front.starts_with(&RESULT_START) {
        Some(Hint::ResultForHour)
    } else if front.starts_with(&BYTE_ORDER_MARK) {
        Some(Hint::ByteOrderMark)
    } else {
        None
    }
}

fn has_space_at_line_end(text: &[u8]) -> bool
    ensures { result ≡ list_any (λ p. p.0 == 32 && p.1 == 10) (zip text.now (drop 1 text.now)) }
{
    text.iter()
        .zip(text.iter().skip(1))
        .any(|(byte, next)| *byte == b' ' && *next == b'\n')
}

/// What a text looks like that is not in the form of a published result, if anything known.
pub fn text_hint(text: &[u8]) -> Option<Hint>
    ensures { result ≡ text_hint text.now }
{
    if text.starts_with(&BYTE_ORDER_MARK) {
        Some(Hint::ByteOrderMark)
    } else if text.contains(&b'\r') {
        Some(Hint::CarriageReturns)
    } else if has_space_at_line_end(text) {
        Some(Hint::SpaceAtLineEnd)
    } else {
        None
    }
}
