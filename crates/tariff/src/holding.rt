ghost use Rattle.std.specs.Prelude.{◌≡◌, ◌≤◌, length};
ghost use Rattle.terms.specs.Ranges.{holds_in};
ghost use Rattle.terms.specs.declared.bounds.Bounds.TheVariants.{Price};
ghost use Rattle.tariff.specs.Ranges.{prices_hold, name_holds, gains_hold, risk_holds, step_follows, steps_hold, range_holds, credit_holds};
ghost use Rattle.tariff.specs.Rows.{ranged};

use crate::rows::{Credit, GroupRange, LineName, Prices, Risk, Step};
use terms::{Bounds, Gains};

// Whether the numbers of a row lie in their ranges.

pub(crate) fn is_price(price: i32) -> bool
    ensures { result ≡ holds_in Price price }
{
    Bounds::Price.holds(i64::from(price))
}

impl Prices {
    pub(crate) fn hold(self) -> bool
        ensures { result ≡ prices_hold self }
    {
        is_price(self.today) && is_price(self.before)
    }
}

impl LineName {
    pub(crate) fn holds(self) -> bool
        ensures { result ≡ name_holds self }
    {
        match self {
            LineName::Day(instrument, offset) => {
                Bounds::Instrument.holds(i64::from(instrument))
                    && Bounds::DayOffset.holds(i64::from(offset))
            }
            LineName::Rest(instrument, month) => {
                Bounds::Instrument.holds(i64::from(instrument))
                    && Bounds::MonthOffset.holds(i64::from(month))
            }
            LineName::Own(number) => Bounds::Contract.holds(i64::from(number)),
        }
    }
}

impl Risk {
    pub(crate) fn holds(self) -> bool
        ensures { result ≡ risk_holds self }
    {
        Bounds::Group.holds(i64::from(self.group))
            && Bounds::Delta.holds(i64::from(self.delta))
            && is_price(self.price)
            && gains_hold(self.gains)
    }
}

fn gains_hold(gains: Gains) -> bool
    ensures { result ≡ gains_hold gains }
{
    gains.each.iter().all(|gain| Bounds::Gain.holds(*gain))
}

impl Step {
    // In range, and its limit above the one before.
    fn follows(self, before: i64) -> bool
        ensures { result ≡ step_follows before self }
    {
        Bounds::NetLimit.holds(self.limit)
            && Bounds::ExtraPercent.holds(i64::from(self.percent))
            && before < self.limit
    }
}

// Whether each lies in its range, and above the one before.
fn steps_hold(steps: &[Step]) -> bool
    requires { length steps.now ≤ 3 }
    ensures { result ≡ steps_hold steps.now }
{
    let mut before = -1;
    for step in steps {
        if !step.follows(before) {
            return false;
        }
        before = step.limit;
    }
    true
}

impl GroupRange {
    pub(crate) fn holds(self) -> bool
        ensures { result ≡ range_holds (ranged self) }
    {
        Bounds::Group.holds(i64::from(self.group))
            && Bounds::PriceRange.holds(i64::from(self.range))
            && steps_hold(self.steps.in_use())
    }
}

impl Credit {
    pub(crate) fn holds(self) -> bool
        ensures { result ≡ credit_holds self }
    {
        Bounds::Group.holds(i64::from(self.first))
            && Bounds::Group.holds(i64::from(self.second))
            && Bounds::CreditPercent.holds(i64::from(self.percent))
    }
}
