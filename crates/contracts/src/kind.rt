ghost use Rattle.std.specs.Prelude.{◌≡◌, Ok};
ghost use Rattle.contracts.specs.Kinds.{kind_of, kind_letter, is_option};

use terms::Refusal;

// The types of instrument.
#[derive(Clone, Copy, PartialEq, Eq, Debug)]
pub enum Kind {
    Future,
    Forward,
    Swap,
    Option,
}

impl TryFrom<u8> for Kind {
    type Error = Refusal;

    ghost try_from_gives = { λ letter r. r ≡ kind_of letter };

    fn try_from(letter: u8) -> Result<Kind, Refusal> {
        match letter {
            b'F' => Ok(Kind::Future),
            b'W' => Ok(Kind::Forward),
            b'S' => Ok(Kind::Swap),
            b'O' => Ok(Kind::Option),
            _ => Err(Refusal::Form),
        }
    }
}

impl From<Kind> for u8 {
    ghost from_gives = { λ kind letter. (letter ≡ kind_letter kind) × (kind_of letter ≡ Ok kind) };

    fn from(kind: Kind) -> u8 {
        match kind {
            Kind::Future => b'F',
            Kind::Forward => b'W',
            Kind::Swap => b'S',
            Kind::Option => b'O',
        }
    }
}

impl Kind {
    pub fn is_option(self) -> bool
        ensures { result ≡ is_option self }
    {
        self == Kind::Option
    }
}
