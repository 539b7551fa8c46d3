ghost use Rattle.std.specs.Prelude.{◌≡◌, ℕ, ◌==◌};
ghost use Rattle.std.specs.List.{find, position};

use crate::entry::{Account, Listing};

// What goes by a number.
pub trait Numbered: Copy {
    ghost named: { Self → ℕ };

    fn number(self) -> u16
        ensures { result ≡ named self };
}

impl Numbered for Account {
    ghost named = { λ x. x.number };

    fn number(self) -> u16 {
        self.number
    }
}

impl Numbered for Listing {
    ghost named = { λ x. x.number };

    fn number(self) -> u16 {
        self.number
    }
}

// The first row with a number.
pub fn row_of<T: Numbered>(rows: &[T], number: u16) -> Option<T>
    ensures { result ≡ find (λ x. T.named x == number) rows.now }
{
    rows.iter().copied().find(|row| row.number() == number)
}

// The place of the first row with a number.
pub fn place_of<T: Numbered>(rows: &[T], number: u16) -> Option<usize>
    ensures { result ≡ position (λ x. T.named x == number) rows.now }
{
    rows.iter().position(|row| row.number() == number)
}
