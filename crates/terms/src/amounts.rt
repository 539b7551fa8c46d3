ghost use Rattle.std.specs.Prelude.{pos, ◌+ℤ◌, neg_ℤ, unsigned_abs};
ghost use Rattle.terms.specs.Amounts.{any, no_amount, amount_plus, amount_minus, amount_size, any_amount, no_gains, gains_plus, gains_minus, gains_size, sixteen};
ghost use Rattle.terms.specs.Groups.{quantity_laws, amount_laws, gains_laws};

use crate::additive::Additive;
use std::array;

// A quantity of contracts.
impl Additive for i64 {
    ghost whole = { any };

    ghost none = { pos 0 };

    ghost plus = { ◌+ℤ◌ };

    ghost minus = { neg_ℤ };

    ghost size = { unsigned_abs };

    ghost group = { quantity_laws };

    fn zero() -> i64 {
        0
    }

    fn sum(self, other: i64) -> i64 {
        self + other
    }

    fn opposite(self) -> i64 {
        -self
    }
}

// A quantity, and its value: the sum of quantity × price.
#[derive(Clone, Copy, PartialEq, Eq, Debug)]
pub struct Amount {
    pub quantity: i64,
    pub value: i64,
}

impl Additive for Amount {
    ghost whole = { any_amount };

    ghost none = { no_amount };

    ghost plus = { amount_plus };

    ghost minus = { amount_minus };

    ghost size = { amount_size };

    ghost group = { amount_laws };

    fn zero() -> Amount {
        Amount {
            quantity: 0,
            value: 0,
        }
    }

    fn sum(self, other: Amount) -> Amount {
        Amount {
            quantity: self.quantity + other.quantity,
            value: self.value + other.value,
        }
    }

    fn opposite(self) -> Amount {
        Amount {
            quantity: -self.quantity,
            value: -self.value,
        }
    }
}

// One gain for each of the sixteen scenarios of the risk tariff.
#[derive(Clone, Copy, PartialEq, Eq, Debug)]
pub struct Gains {
    pub each: [i64; 16],
}

impl Additive for Gains {
    ghost whole = { sixteen };

    ghost none = { no_gains };

    ghost plus = { gains_plus };

    ghost minus = { gains_minus };

    ghost size = { gains_size };

    ghost group = { gains_laws };

    fn zero() -> Gains {
        Gains { each: [0; 16] }
    }

    fn sum(self, other: Gains) -> Gains {
        let each = array::from_fn(|i| self.each[i] + other.each[i]);
        Gains { each }
    }

    fn opposite(self) -> Gains {
        let each = self.each.map(|gain| -gain);
        Gains { each }
    }
}
