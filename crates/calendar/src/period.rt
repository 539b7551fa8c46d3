ghost use Rattle.std.specs.Prelude.{◌≤◌};

use days::Day;

// Days in a row, the first and the last included.
#[derive(Clone, Copy, PartialEq, Eq, Debug)]
pub struct Period {
    pub first: Day,
    pub last: Day,
    ghost ordered: { first.number ≤ last.number },
}
