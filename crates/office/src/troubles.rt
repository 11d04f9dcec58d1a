//! Why a program has no answer, said of the files that it was called with.
ghost use Rattle.std.specs.Prelude.{◌≡◌, string_bytes};
ghost use Rattle.office.specs.Troubles.{MadeOf, NamedIs};
ghost use Rattle.office.specs.declared.faults.Fault.TheVariants.{Memory};
ghost use Rattle.office.specs.declared.troubles.Trouble.TheVariants as troubles;

use crate::faults::Fault;
use std::alloc::{AllocError, Global};
use std::error::Error;
use std::{fmt, io};

/// Why a program has no answer. A name stands here whole, however long it is, since a file is found again by the end of its name.
#[derive(Debug, Drop)]
pub enum Trouble {
    /// A file that cannot be read.
    Unread { name: String, error: io::Error },
    /// A file that cannot be written.
    Unwritten { name: String, error: io::Error },
    /// What stands under a name that is not written over, and why.
    Kept { name: String, reason: &'static str },
    /// A fault of clearing or checking.
    Fault(Fault),
    /// Anything else.
    Other(anyhow::Error),
}

impl fmt::Display for Trouble {
    fn fmt<W: fmt::Write>(&self, f: &mut fmt::Formatter<W>) -> fmt::Result {
        match self {
            Trouble::Unread { name, error } => write!(f, "cannot read {name:?}: {error}"),
            Trouble::Unwritten { name, error } => write!(f, "cannot write {name:?}: {error}"),
            Trouble::Kept { name, reason } => {
                write!(f, "{name:?} {reason}: it is not written over")
            }
            Trouble::Fault(fault) => write!(f, "{fault}"),
            Trouble::Other(error) => write!(f, "{error:#}"),
        }
    }
}

impl Error for Trouble {}

impl From<Fault> for Trouble {
    ghost from_gives = { λ fault trouble. trouble ≡ troubles.Fault fault };

    fn from(fault: Fault) -> Self {
        Self::Fault(fault)
    }
}

impl From<anyhow::Error> for Trouble {
    ghost from_gives = { λ error trouble. trouble ≡ troubles.Other error };

    fn from(error: anyhow::Error) -> Self {
        Self::Other(error)
    }
}

impl From<AllocError> for Trouble {
    ghost from_gives = { λ _ trouble. trouble ≡ troubles.Fault Memory };

    fn from(error: AllocError) -> Self {
        Self::Fault(Fault::from(error))
    }
}

impl Trouble {
    /// The file of that name cannot be read; or memory is wanting for the name, here and below.
    pub fn unread(heap: Global, name: &str, error: io::Error) -> Trouble
        ensures { MadeOf string_bytes (λ named. troubles.Unread named error) name.now result }
    {
        match String::from_str(heap, name) {
            Ok(name) => Trouble::Unread { name, error },
            Err(wanting) => Trouble::from(wanting),
        }
    }

    /// The file of that name cannot be written.
    pub fn unwritten(heap: Global, name: &str, error: io::Error) -> Trouble
        ensures { MadeOf string_bytes (λ named. troubles.Unwritten named error) name.now result }
    {
        match String::from_str(heap, name) {
            Ok(name) => Trouble::Unwritten { name, error },
            Err(wanting) => Trouble::from(wanting),
        }
    }

    /// What stands under that name is not written over, for a reason.
    pub fn kept(heap: Global, name: &str, reason: &'static str) -> Trouble
        ensures { MadeOf string_bytes (λ named. troubles.Kept named reason.entry) name.now result }
    {
        match String::from_str(heap, name) {
            Ok(name) => Trouble::Kept { name, reason },
            Err(wanting) => Trouble::from(wanting),
        }
    }

    /// The same, with the name of the hour or of the published result where that could not be read. Standard input, `-`, has no name to
    /// be said.
    pub fn named(self, heap: Global, hour: &str, published: &str) -> Trouble
        ensures { NamedIs hour.now published.now self result }
    {
        match self {
            Trouble::Fault(Fault::Hour(error)) if hour != "-" => Trouble::unread(heap, hour, error),
            Trouble::Fault(Fault::Published(error)) if published != "-" => {
                Trouble::unread(heap, published, error)
            }
            trouble => trouble,
        }
    }
}
