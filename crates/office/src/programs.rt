//! What the programs do with their calls, their answers and their faults.
ghost use Rattle.std.specs.Prelude.{◌≡◌, IfOk};
ghost use Rattle.std.specs.Process.{exit_status};
ghost use Rattle.office.specs.Status.{status_of, status_of_run};

use crate::clearing::{Answer, clear_hour};
use crate::files::{Aside, Source};
use crate::status::Status;
use crate::troubles::Trouble;
use anyhow::Context;
use std::io::{Error, ErrorKind};
use std::process::ExitCode;
use std::{env, fmt, io};

/// The version of the programs.
pub const VERSION: &str = "0.2.0";

/// The words of a program's call, its own name first.
pub fn words(rt: &HostRuntime) -> anyhow::Result<Vec<String>> {
    match env::args(rt) {
        Ok(words) => Ok(words.collect(rt.alloc())?),
        Err(error) if error.kind() == ErrorKind::InvalidData => Err(error).context(
            "cannot read the call: give a file whose name is not UTF-8 on standard input",
        ),
        Err(error) => Err(error).context("cannot read the call"),
    }
}

/// Answers a call that asks for help or for the version, or that is wrong: that is no clearing and no check. That whoever reads it has
/// gone is no error.
pub fn end_call(rt: &HostRuntime, error: clap::Error) -> anyhow::Result<Status> {
    match error.print(rt) {
        Err(fault) if fault.kind() != ErrorKind::BrokenPipe => return Err(fault.into()),
        _ => {}
    }
    if error.exit_code() == 0 {
        Ok(Status::Good)
    } else {
        Ok(Status::Trouble)
    }
}

/// Clears the hour into a file that is written aside; a refusal goes to standard output, and the file stays as it was.
pub fn clear_to_file(rt: &HostRuntime, hour: &mut Source, name: &str) -> Result<Answer, Trouble> {
    let mut aside = Aside::create(rt, name)?;
    match clear_hour(rt.alloc(), hour, &mut aside, &mut io::writer(rt)) {
        Ok(answer) if answer.good && answer.whole => {
            aside.finish(rt)?;
            Ok(answer)
        }
        Ok(answer) => {
            aside.give_up(rt);
            if answer.good {
                let error = Error::new(ErrorKind::WriteZero, "it takes no more");
                return Err(Trouble::unwritten(rt.alloc(), name, error));
            }
            Ok(answer)
        }
        Err(fault) => {
            aside.give_up(rt);
            Err(Trouble::from(fault))
        }
    }
}

/// The status that an answer ends with. What may be wrong with the input is said on standard error.
pub fn end_answer(rt: &HostRuntime, program: &str, answer: Answer) -> Status
    ensures { result ≡ status_of answer }
{
    if let Some(hint) = answer.hint {
        let _ = eprintln!(rt; "{program}: {hint}");
    }
    if answer.good {
        Status::Good
    } else {
        Status::Bad
    }
}

/// Ends a program: where there is no answer, a line on standard error says why.
pub fn end<E: fmt::Display + Drop>(
    rt: &HostRuntime,
    program: &str,
    run: Result<Status, E>,
) -> ExitCode
    ensures { exit_status result ≡ status_of_run run }
{
    match run {
        Ok(status) => status.exit_code(),
        Err(error) => {
            let _ = eprintln!(rt; "{program}: {error:#}");
            Status::Trouble.exit_code()
        }
    }
}
