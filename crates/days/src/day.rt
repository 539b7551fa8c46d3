ghost use Rattle.std.specs.Prelude.{◌<◌};

// A day from 1 January 2000, number 0, to 31 December 2099.
#[derive(Clone, Copy, PartialEq, Eq, PartialOrd, Ord, Debug)]
pub struct Day {
    pub number: u16,
    ghost within: { number < 36525 },
}
