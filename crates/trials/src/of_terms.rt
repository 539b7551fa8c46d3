ghost use Rattle.std.specs.Prelude.{◌≡◌};

use std::test::Fail;
use terms::{Additive, Amount, Bounds, Gains, Refusal, Rows, less, total};

#[test]
fn refusals(rt: HostRuntime) -> Result<(), Fail> {
    let all = [
        (Refusal::Form, "1"),
        (Refusal::OutOfRange, "2"),
        (Refusal::UnknownReference, "3"),
        (Refusal::RepeatedKey, "4"),
        (Refusal::DateRule, "5"),
        (Refusal::MissingRiskLine, "6"),
        (Refusal::TooLong, "7"),
        (Refusal::NoHours, "8"),
        (Refusal::NotInBook, "9"),
        (Refusal::RegistrationOver, "10"),
        (Refusal::JournalFull, "11"),
        (Refusal::NoStandingEntry, "12"),
        (Refusal::OwnAccount, "13"),
        (Refusal::ProvisionalPrices, "14"),
        (Refusal::CellOutOfRange, "15"),
        (Refusal::OverLimit, "16"),
    ];
    for (refusal, text) in all {
        let shown = format!(in rt.alloc(); "{refusal}")?;
        assert_eq!(rt; shown.as_str(), text);
    }
    Ok(())
}

#[test]
fn ranges(rt: HostRuntime) {
    let some = [
        (Bounds::Price, -500_000, 500_000),
        (Bounds::Position, -10_000, 10_000),
        (Bounds::Account, 1, 65_535),
        (Bounds::Instrument, 1, 8),
        (Bounds::ExtraPercent, 0, 200),
        (Bounds::DayOffset, 1, 14),
    ];
    for (bounds, low, high) in some {
        assert_eq!(rt; bounds.admit(low), Ok(low));
        assert_eq!(rt; bounds.admit(high), Ok(high));
        assert_eq!(rt; bounds.admit(low.wrapping_sub(1)), Err(Refusal::OutOfRange));
        assert_eq!(rt;
            bounds.admit(high.wrapping_add(1)),
            Err(Refusal::OutOfRange)
        );
    }
}

fn amount(quantity: i64, value: i64) -> Amount
    ensures { result ≡ record { quantity = quantity; value = value } }
{
    Amount { quantity, value }
}

#[test]
fn sums_of_amounts(rt: HostRuntime) {
    let a = amount(5, -20_000);
    let b = amount(-7, 31_500);
    let c = amount(2, -11_400);
    assert_eq!(rt; total(&[a, b, c]), amount(0, 100));
    assert_eq!(rt; less(a, b), amount(12, -51_500));
    assert_eq!(rt; b.opposite(), amount(7, -31_500));
    assert_eq!(rt; less(3i64, 5), -2);
}

#[test]
fn sums_of_gains(rt: HostRuntime) {
    let a = Gains {
        each: [0, 1, 2, 3, 4, 5, 6, 7, 8, 9, 10, 11, 12, 13, 14, -15],
    };
    let b = Gains { each: [100; 16] };
    let sum = [
        100, 101, 102, 103, 104, 105, 106, 107, 108, 109, 110, 111, 112, 113, 114, 85,
    ];
    let opposite = [
        0, -1, -2, -3, -4, -5, -6, -7, -8, -9, -10, -11, -12, -13, -14, 15,
    ];
    assert_eq!(rt; total(&[a, b]).each, sum);
    assert_eq!(rt; a.opposite().each, opposite);
    assert_eq!(rt; less(a, a).each, [0; 16]);
}

#[test]
fn rows_up_to_the_most(rt: HostRuntime) -> Result<(), Fail> {
    let mut rows: Rows<u32, 2> = Rows::new(rt.alloc())?;
    assert_eq!(rt; rows.push(7), Ok(()));
    assert_eq!(rt; rows.push(5), Ok(()));
    assert_eq!(rt; rows.push(6), Err(Refusal::TooLong));
    assert_eq!(rt; rows.rows.as_slice(), [7, 5].as_slice());
    Ok(())
}
