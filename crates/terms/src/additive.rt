ghost use Rattle.std.specs.Prelude.{◌≡◌, ℕ, ◌+◌, ◌^◌, ◌<◌};
ghost use Rattle.terms.specs.Laws.{Laws, added, sizes};

// What can be added up: a zero, a sum and an opposite. `size` bounds the numbers inside, so that a sum whose sizes
// stay below 2^63 fits, and nothing is tested at run time.
pub trait Additive: Copy {
    // The values that the code can hold.
    ghost whole: { Self → Type 0 };

    ghost none: { Self };

    ghost plus: { Self → Self → Self };

    ghost minus: { Self → Self };

    ghost size: { Self → ℕ };

    fn zero() -> Self
        ensures { result ≡ none };

    fn sum(self, other: Self) -> Self
        requires { size self + size other < 2 ^ 63 }
        ensures { result ≡ plus self other };

    fn opposite(self) -> Self
        requires { size self < 2 ^ 63 }
        ensures { result ≡ minus self };

    ghost group: { Laws whole none plus minus size };
}

// The sum of all of them.
pub fn total<T: Additive>(items: &[T]) -> T
    requires { sizes T.size items.now < 2 ^ 63 }
    ensures { result ≡ added T.none T.plus items.now }
{
    let mut sum = T::zero();
    for x in items {
        sum = sum.sum(*x);
    }
    sum
}

// The first without the second.
pub fn less<T: Additive>(a: T, b: T) -> T
    requires { T.size a + T.size b < 2 ^ 63 }
    ensures { result ≡ T.plus a (T.minus b) }
{
    a.sum(b.opposite())
}
