//! Why a program has no answer. A refused hour is none of these: its refusal is the answer.
ghost use Rattle.std.specs.Prelude.{◌≡◌};
ghost use Rattle.office.specs.Faults.{fault_shown};
ghost use Rattle.office.specs.declared.faults.Fault.TheVariants.{Memory};

use std::alloc::AllocError;
use std::error::Error;
use std::{fmt, io};

/// What went wrong outside the program, with the system's own words.
#[derive(Debug, Drop)]
pub enum Fault {
    /// The hour could not be read.
    Hour(io::Error),
    /// The published result could not be read.
    Published(io::Error),
    /// The answer could not be written.
    Answer(io::Error),
    /// Memory is wanting.
    Memory,
}

impl fmt::Display for Fault {
    ghost output = { fault_shown };

    fn fmt<W: fmt::Write>(&self, f: &mut fmt::Formatter<W>) -> fmt::Result {
        match self {
            Fault::Hour(error) => write!(f, "cannot read the hour: {error}"),
            Fault::Published(error) => write!(f, "cannot read the published result: {error}"),
            Fault::Answer(error) => write!(f, "cannot write the answer: {error}"),
            Fault::Memory => write!(f, "out of memory"),
        }
    }
}

impl Error for Fault {}

impl From<AllocError> for Fault {
    ghost from_gives = { λ _ fault. fault ≡ Memory };

    fn from(_error: AllocError) -> Self {
        Self::Memory
    }
}
