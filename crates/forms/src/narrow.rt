ghost use Rattle.std.specs.Prelude.{◌≡◌, ℤ, List, pos};
ghost use Rattle.terms.specs.declared.bounds.Bounds.{Bounds};
ghost use Rattle.books.specs.Answers.{is_quantity};
ghost use Rattle.forms.specs.Narrow.{in8, in16, range_in16, in32, in_signed32, SameIn, small, keys, price_ranges, limits, signed};

// A number of a file in the type of its row. One that the type does not hold becomes one out of its range, so that the
// table that takes the row refuses it, as it refuses every other number out of range.
pub trait Narrow: Sized {
    // What a number becomes.
    ghost narrowed: { ℤ → Self };

    ghost number: { Self → ℤ };

    // The ranges of the numbers that have this type.
    ghost ranges: { List Bounds };

    fn narrow(z: i64) -> Self
        ensures value { result ≡ narrowed z }
        ensures law { SameIn ranges (number result) z };
}

// Agents, instruments, groups, offsets, months and percentages, which all end below 255.
impl Narrow for u8 {
    ghost narrowed = { in8 };

    ghost number = { λ n. pos n };

    ghost ranges = { small };

    fn narrow(z: i64) -> u8 {
        u8::try_from(z).unwrap_or(u8::MAX)
    }
}

// Accounts, contracts and entries, which all begin at 1.
impl Narrow for u16 {
    ghost narrowed = { in16 };

    ghost number = { λ n. pos n };

    ghost ranges = { keys };

    fn narrow(z: i64) -> u16 {
        u16::try_from(z).unwrap_or(0)
    }
}

// A price range, which may be 0.
#[derive(Clone, Copy, PartialEq, Eq, Debug)]
pub struct PriceRange(pub u16);

impl Narrow for PriceRange {
    ghost narrowed = { λ z. record { 0 = range_in16 z } };

    ghost number = { λ range. pos range.0 };

    ghost ranges = { price_ranges };

    fn narrow(z: i64) -> PriceRange {
        PriceRange(u16::try_from(z).unwrap_or(u16::MAX))
    }
}

// Concentration limits.
impl Narrow for u32 {
    ghost narrowed = { in32 };

    ghost number = { λ n. pos n };

    ghost ranges = { limits };

    fn narrow(z: i64) -> u32 {
        u32::try_from(z).unwrap_or(u32::MAX)
    }
}

// Prices, quantities and deltas.
impl Narrow for i32 {
    ghost narrowed = { in_signed32 };

    ghost number = { λ n. n };

    ghost ranges = { signed };

    fn narrow(z: i64) -> i32
        ensures value { result ≡ in_signed32 z }
        ensures law { SameIn signed result z }
        ensures traded { is_quantity result ≡ is_quantity z }
    {
        i32::try_from(z).unwrap_or(i32::MAX)
    }
}
