ghost use Rattle.std.specs.Prelude.{◌≡◌};
ghost use Rattle.terms.specs.declared.failure.Failure.TheVariants.{Refused, NoMemory};

use crate::refusal::Refusal;
use std::alloc::{AllocError, AllocFailed as NoRoom};

// Why something that allocates was not done: it is refused, or memory ran out.
#[derive(Clone, Copy, PartialEq, Eq, Debug)]
pub enum Failure {
    Refused(Refusal),
    NoMemory,
}

impl From<Refusal> for Failure {
    ghost from_gives = { λ e r. r ≡ Refused e };

    fn from(e: Refusal) -> Failure {
        Failure::Refused(e)
    }
}

impl From<AllocError> for Failure {
    ghost from_gives = { λ _ r. r ≡ NoMemory };

    fn from(_e: AllocError) -> Failure {
        Failure::NoMemory
    }
}

impl<T: Drop> From<NoRoom<T>> for Failure {
    ghost from_gives = { λ _ r. r ≡ NoMemory };

    fn from(_e: NoRoom<T>) -> Failure {
        Failure::NoMemory
    }
}
