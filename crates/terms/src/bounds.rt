ghost use Rattle.std.specs.Prelude.{◌≡◌, false};
ghost use Rattle.std.specs.Range.{range_inclusive_start, range_inclusive_end, range_inclusive_exhausted};
ghost use Rattle.terms.specs.Ranges.{lowest, highest, holds_in, admitted};

use crate::refusal::Refusal;
use std::ops::RangeInclusive;

// The named ranges of numbers. Prices are cents per MWh, amounts cents, quantities whole contracts.
#[derive(Clone, Copy, PartialEq, Eq, Debug)]
pub enum Bounds {
    Price,
    Position,
    OpeningValue,
    TradedValue,
    GivenAmount,
    Account,
    Contract,
    Instrument,
    Agent,
    Group,
    Entry,
    Delta,
    Gain,
    PriceRange,
    NetLimit,
    ExtraPercent,
    CreditPercent,
    ConcentrationLimit,
    DayOffset,
    MonthOffset,
}

impl Bounds {
    // The numbers of the range.
    fn range(self) -> RangeInclusive<i64>
        ensures low { range_inclusive_start result ≡ lowest self }
        ensures high { range_inclusive_end result ≡ highest self }
        ensures whole { range_inclusive_exhausted result ≡ false }
    {
        match self {
            Bounds::Price => -500_000..=500_000,
            Bounds::Position => -10_000..=10_000,
            Bounds::OpeningValue => -10_000_000_000..=10_000_000_000,
            Bounds::TradedValue => -100_000_000_000..=100_000_000_000,
            Bounds::GivenAmount => -1_000_000_000_000_000..=1_000_000_000_000_000,
            Bounds::Account | Bounds::Contract => 1..=65_535,
            Bounds::Instrument => 1..=8,
            Bounds::Agent => 1..=99,
            Bounds::Group => 1..=64,
            Bounds::Entry => 1..=4_096,
            Bounds::Delta => -1_000_000..=1_000_000,
            Bounds::Gain => -100_000_000..=100_000_000,
            Bounds::PriceRange => 0..=10_000,
            Bounds::NetLimit => 0..=1_000_000_000_000_000,
            Bounds::ExtraPercent => 0..=200,
            Bounds::CreditPercent => 0..=100,
            Bounds::ConcentrationLimit => 0..=320_000,
            Bounds::DayOffset => 1..=14,
            Bounds::MonthOffset => 0..=1,
        }
    }

    // The least number of the range.
    pub fn low(self) -> i64
        ensures { result ≡ lowest self }
    {
        *self.range().start()
    }

    // The greatest number of the range.
    pub fn high(self) -> i64
        ensures { result ≡ highest self }
    {
        *self.range().end()
    }

    pub fn holds(self, n: i64) -> bool
        ensures { result ≡ holds_in self n }
    {
        self.range().contains(&n)
    }

    // The number itself, or the refusal that it is out of range.
    pub fn admit(self, n: i64) -> Result<i64, Refusal>
        ensures { result ≡ admitted self n }
    {
        if self.holds(n) {
            Ok(n)
        } else {
            Err(Refusal::OutOfRange)
        }
    }
}
