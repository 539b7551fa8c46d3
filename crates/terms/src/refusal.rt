ghost use Rattle.std.specs.Prelude.{◌≡◌, Some, decimal};
ghost use Rattle.terms.specs.Refusals.{number_of};

use std::fmt;

// Why a file, a line or a call is refused, by its number, which is printed and documented. The lowest number that
// applies is the one told.
#[derive(Clone, Copy, PartialEq, Eq, Debug)]
pub enum Refusal {
    Form = 1,
    OutOfRange = 2,
    UnknownReference = 3,
    RepeatedKey = 4,
    DateRule = 5,
    MissingRiskLine = 6,
    TooLong = 7,
    NoHours = 8,
    NotInBook = 9,
    RegistrationOver = 10,
    JournalFull = 11,
    NoStandingEntry = 12,
    OwnAccount = 13,
    ProvisionalPrices = 14,
    CellOutOfRange = 15,
    OverLimit = 16,
}

impl From<Refusal> for u8 {
    ghost from_gives = { λ refusal number. number ≡ number_of refusal };

    fn from(refusal: Refusal) -> u8 {
        refusal as u8
    }
}

impl fmt::Display for Refusal {
    ghost output = { λ r. Some (decimal (number_of r)) };

    fn fmt<W: fmt::Write>(&self, f: &mut fmt::Formatter<W>) -> fmt::Result {
        let number = u8::from(*self);
        write!(f, "{number}")
    }
}
