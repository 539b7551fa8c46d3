ghost use Rattle.std.specs.Prelude.{◌≡◌};
ghost use Rattle.file.specs.Plan.{at};
ghost use Rattle.file.specs.Tells.{told_at};
ghost use Rattle.file.specs.declared.fault.Unread.TheVariants.{Refused, NoMemory};

use std::alloc::{AllocError, AllocFailed as NoRoom};
use terms::{Failure, Refusal};

// Why a file is refused, and at which line, from 1. A file that is too long is refused at line 0.
#[derive(Clone, Copy, PartialEq, Eq, Debug)]
pub struct Fault {
    pub refusal: Refusal,
    pub line: u32,
}

// Why a file was not read: it is refused, or memory ran out.
#[derive(Clone, Copy, PartialEq, Eq, Debug)]
pub enum Unread {
    Refused(Fault),
    NoMemory,
}

impl Unread {
    // What failed, told at a line.
    pub(crate) fn at(failure: Failure, line: u32) -> Unread
        ensures { result ≡ told_at line failure }
    {
        match failure {
            Failure::Refused(refusal) => Unread::Refused(Fault { refusal, line }),
            Failure::NoMemory => Unread::NoMemory,
        }
    }
}

// What is refused, told at a line.
pub(crate) fn at_line<T>(line: u32, given: Result<T, Refusal>) -> Result<T, Fault>
    ensures { result ≡ at line given }
{
    given.map_err(|refusal| Fault { refusal, line })
}

impl From<Fault> for Unread {
    ghost from_gives = { λ q r. r ≡ Refused q };

    fn from(fault: Fault) -> Unread {
        Unread::Refused(fault)
    }
}

impl From<AllocError> for Unread {
    ghost from_gives = { λ _ r. r ≡ NoMemory };

    fn from(_e: AllocError) -> Unread {
        Unread::NoMemory
    }
}
