//! How a program ends.
ghost use Rattle.std.specs.Prelude.{◌≡◌};
ghost use Rattle.std.specs.Process.{exit_status};
ghost use Rattle.office.specs.Status.{status_number};

use std::process::ExitCode;

/// What a run came to, as `diff` and `cmp` say it.
#[derive(Clone, Copy, Debug, PartialEq, Eq)]
pub enum Status {
    /// The hour was cleared; the result stands. Status 0.
    Good,
    /// The hour was refused; the result does not stand. Status 1.
    Bad,
    /// There is no answer. Status 2.
    Trouble,
}

impl Status {
    /// The status that a process ends with.
    pub fn exit_code(self) -> ExitCode
        ensures { exit_status result ≡ status_number self }
    {
        match self {
            Status::Good => ExitCode::SUCCESS,
            Status::Bad => ExitCode::FAILURE,
            Status::Trouble => ExitCode::from(2),
        }
    }
}
