ghost use Rattle.std.specs.Prelude.{◌≡◌, ◌≤◌};

use calendar::Maturity;

// The relations that are netted: a contract and the shorter ones that it is made of.
#[derive(Clone, Copy, PartialEq, Eq, Debug)]
pub(crate) enum Tier {
    // Each year with its four quarters.
    Years,
    // Six months with their two quarters.
    Seasons,
    // Each quarter with its three months.
    Quarters,
}

// A longer maturity, and the shorter ones that make it up: how many, and of how many months each.
#[derive(Clone, Copy, PartialEq, Eq, Debug)]
pub(crate) struct Shape {
    pub(crate) whole: Maturity,
    pub(crate) part: Maturity,
    pub(crate) months: u16,
    pub(crate) count: u16,
    ghost short: { months ≤ 3 },
    ghost few: { count ≤ 4 },
}

impl Tier {
    ghost use Rattle.positions.specs.Tiers.{shaped, tier_of};

    pub(crate) fn shape(self) -> Shape
        ensures { shaped result ≡ tier_of self }
    {
        let (whole, part, months, count) = match self {
            Tier::Years => (Maturity::Year, Maturity::Quarter, 3, 4),
            Tier::Seasons => (Maturity::Season, Maturity::Quarter, 3, 2),
            Tier::Quarters => (Maturity::Quarter, Maturity::Month, 1, 3),
        };
        Shape {
            whole,
            part,
            months,
            count,
        }
    }
}
