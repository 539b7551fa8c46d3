ghost use Rattle.std.specs.Prelude.{◌≡◌, ℕ, ◌^◌, ◌<◌};

use days::Day;

// Which hours of a day are delivered, by one fixed mask a day: bit k - 1 is set where hour k, of 1 to 25, is delivered.
pub trait Profile {
    // The mask of a day, by the day's number.
    ghost mask: { Self → ℕ → ℕ };

    fn mask(&self, day: Day) -> u32
        ensures value { result ≡ mask self.now day.number }
        ensures bound { result < 2 ^ 25 };
}
