//! Checking a published result from two readers to a writer.
ghost use Rattle.std.specs.Prelude.{◌≡◌, ℕ, ◌+◌, ◌≤◌, List, [], ◌∷◌, take, vec_len, IfOk, IfErr, IfSome, string_bytes};
ghost use Rattle.hour.specs.Text.{row};
ghost use Rattle.checker.specs.Form.{longest_text};
ghost use Rattle.checker.specs.Reports.{report_shown};
ghost use Rattle.checker.specs.Telling.{Reports};
ghost use Rattle.office.specs.Checking.{TextCame, check_hint, CheckOf, CheckedTo, CheckFaulted};
ghost use Rattle.office.specs.Clearing.{NoAnswer};
ghost use Rattle.office.specs.Reading.{HourSaid};

use crate::clearing::{Answer, head_of};
use crate::faults::Fault;
use crate::hints::{Hint, hour_hint, text_hint};
use crate::reading::{Came, read_hour, read_up_to};
use crate::writing::deliver;
use checker::{LONGEST_TEXT, Report, report_on};
use std::alloc::{AllocError, Global};
use std::io;
use std::io::{Read, Write};

// The front of a published text, which tells what is to be said of the whole: of a text that is longer than any in the form no more
// is read.
fn read_text<R: Read>(heap: Global, text: &mut R) -> io::Result<Vec<u8>>
    ensures came { IfOk result (λ front. TextCame (R.remaining text.old) (R.remaining text.new) front.items) }
    ensures within { IfOk result (λ front. vec_len front ≤ longest_text + 1) }
{
    let mut front = Vec::new(heap);
    read_up_to(text, LONGEST_TEXT + 1, &mut front)?;
    Ok(front)
}

// What is to be said of a text for an hour of which so much came.
fn report_of(heap: Global, came: &Came, text: &[u8]) -> Result<Report, AllocError>
    ensures { IfOk result (λ report. (bs : List ℕ) → HourSaid bs came.now.refusal came.now.bytes.items →
        Reports bs text.now report) }
{
    match came.refusal {
        Some(refusal) => Ok(Report::Refused(refusal)),
        None => report_on(heap, came.bytes.as_slice(), text),
    }
}

// What may be wrong with an hour that is refused, or with a text that is not in the form.
fn hint_at(report: &Report, bytes: &[u8], text: &[u8]) -> Option<Hint>
    ensures { result ≡ check_hint report.now (take 7 bytes.now) text.now }
{
    match report {
        Report::Refused(_) => hour_hint(head_of(bytes)),
        Report::Unreadable { .. } => text_hint(text),
        Report::Broken(_) | Report::Wrong(_) | Report::Accepted { .. } => None,
    }
}

// What is to be said of a published text, and what may be wrong with it or with the hour.
#[derive(Drop)]
struct Said {
    report: Report,
    hint: Option<Hint>,
}

// What is to be said of the text that a reader has, for the hour that another has.
fn report_from<H: Read, T: Read>(heap: Global, hour: &mut H, text: &mut T) -> Result<Said, Fault>
    ensures said { IfOk result (λ said. IfSome (H.remaining hour.old) (λ bs. IfSome (T.remaining text.old) (λ ts.
        CheckOf bs ts (H.remaining hour.new) (T.remaining text.new) said.report said.hint))) }
    ensures fault { IfErr result NoAnswer }
{
    let came = match read_hour(heap, hour) {
        Ok(came) => came,
        Err(error) => return Err(Fault::Hour(error)),
    };
    let front = match read_text(heap, text) {
        Ok(front) => front,
        Err(error) => return Err(Fault::Published(error)),
    };
    let report = report_of(heap, &came, front.as_slice())?;
    let hint = hint_at(&report, came.bytes.as_slice(), front.as_slice());
    Ok(Said { report, hint })
}

fn shown(heap: Global, report: &Report) -> Result<String, AllocError>
    ensures { IfOk result (λ t. string_bytes t ≡ row (report_shown report.now ∷ [])) }
{
    format!(in heap; "{report}\n")
}

/// Says of the published result that one reader has whether it stands for the hour that another has.
pub fn check_published<H: Read, T: Read, W: Write>(
    heap: Global,
    hour: &mut H,
    text: &mut T,
    answer: &mut W,
) -> Result<Answer, Fault>
    ensures checked { IfOk result (λ said. CheckedTo (H.remaining hour.old) (H.remaining hour.new)
        (T.remaining text.old) (T.remaining text.new) said (W.contents answer.old) (W.contents answer.new)) }
    ensures fault { IfErr result (λ fault. CheckFaulted (H.remaining hour.old) (T.remaining text.old) fault
        (W.contents answer.old) (W.contents answer.new)) }
{
    let said = report_from(heap, hour, text)?;
    let row = shown(heap, &said.report)?;
    match deliver(answer, row.as_bytes()) {
        Ok(whole) => Ok(Answer {
            good: said.report.stands(),
            whole,
            hint: said.hint,
        }),
        Err(error) => Err(Fault::Answer(error)),
    }
}
