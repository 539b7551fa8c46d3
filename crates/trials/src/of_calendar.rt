use calendar::{Load, Maturity, Profile, hours_of_day, hours_of_period};
use days::Day;
use std::test::Fail;
use terms::Refusal;

// The last day and the count of days.
fn period(maturity: Maturity, first: i64) -> Result<(u32, u16), Refusal> {
    let period = maturity.period(Day::from_number(first)?)?;
    Ok((period.last.to_number(), period.days()))
}

#[test]
fn periods(rt: HostRuntime) {
    let some = [
        (Maturity::SingleDay, 20140330, 20140330, 1),
        (Maturity::SingleDay, 20991231, 20991231, 1),
        (Maturity::Weekend, 20140329, 20140330, 2),
        (Maturity::Workdays, 20140331, 20140404, 5),
        (Maturity::Week, 20181231, 20190106, 7),
        (Maturity::Week, 20991221, 20991227, 7),
        (Maturity::RestOfMonth, 20140301, 20140331, 31),
        (Maturity::RestOfMonth, 20140331, 20140331, 1),
        (Maturity::RestOfMonth, 20991231, 20991231, 1),
        (Maturity::Month, 20000201, 20000229, 29),
        (Maturity::Quarter, 20140101, 20140331, 90),
        (Maturity::Quarter, 20141001, 20141231, 92),
        (Maturity::Season, 20140401, 20140930, 183),
        (Maturity::Season, 20141001, 20150331, 182),
        (Maturity::Year, 20140101, 20141231, 365),
        (Maturity::Year, 20990101, 20991231, 365),
    ];
    for (maturity, first, last, days) in some {
        assert_eq!(rt; period(maturity, first), Ok((last, days)));
    }
}

#[test]
fn periods_that_are_refused(rt: HostRuntime) {
    let some = [
        (Maturity::Weekend, 20140328),
        (Maturity::Weekend, 20140330),
        (Maturity::Workdays, 20140401),
        (Maturity::Workdays, 20140330),
        (Maturity::Week, 20140302),
        (Maturity::Week, 20991228),
        (Maturity::Month, 20140302),
        (Maturity::Month, 20140331),
        (Maturity::Quarter, 20140201),
        (Maturity::Quarter, 20140402),
        (Maturity::Season, 20140101),
        (Maturity::Season, 20140701),
        (Maturity::Season, 20991001),
        (Maturity::Year, 20140401),
        (Maturity::Year, 20140102),
    ];
    for (maturity, first) in some {
        assert_eq!(rt; period(maturity, first), Err(Refusal::DateRule));
    }
}

#[test]
fn hours_and_masks(rt: HostRuntime) -> Result<(), Fail> {
    // Hours 1 to 23, to 24 and to 25, hours 9 to 20, hour 1.
    let some = [
        (Load::Base, 20140323, 24, 0b0_1111_1111_1111_1111_1111_1111),
        (Load::Base, 20140330, 23, 0b0_0111_1111_1111_1111_1111_1111),
        (Load::Base, 20180325, 23, 0b0_0111_1111_1111_1111_1111_1111),
        (Load::Base, 20141026, 25, 0b1_1111_1111_1111_1111_1111_1111),
        (Load::Base, 20101031, 25, 0b1_1111_1111_1111_1111_1111_1111),
        (Load::Base, 20141019, 24, 0b0_1111_1111_1111_1111_1111_1111),
        (Load::Peak, 20140328, 12, 0b0_0000_1111_1111_1111_0000_0000),
        (Load::Peak, 20140329, 0, 0),
        (Load::Peak, 20140330, 0, 0),
        (Load::Gas, 20140330, 1, 1),
    ];
    for (load, number, hours, mask) in some {
        let day = Day::from_number(number)?;
        assert_eq!(rt; load.mask(day), mask);
        assert_eq!(rt; hours_of_day(&load, day), hours);
    }
    let week = Maturity::Week.period(Day::from_number(20140324)?)?;
    assert_eq!(rt; hours_of_period(&Load::Base, week), 167);
    assert_eq!(rt; hours_of_period(&Load::Peak, week), 60);
    assert_eq!(rt; hours_of_period(&Load::Gas, week), 7);
    assert!(rt; week.covers(Day::from_number(20140324)?));
    assert!(rt; week.covers(Day::from_number(20140330)?));
    assert!(rt; !week.covers(Day::from_number(20140323)?));
    assert!(rt; !week.covers(Day::from_number(20140331)?));
    Ok(())
}

#[test]
fn letters(rt: HostRuntime) {
    let loads = [(b'B', Load::Base), (b'P', Load::Peak), (b'G', Load::Gas)];
    for (letter, load) in loads {
        assert_eq!(rt; Load::try_from(letter), Ok(load));
        assert_eq!(rt; u8::from(load), letter);
    }
    let maturities = [
        (b'D', Maturity::SingleDay),
        (b'E', Maturity::Weekend),
        (b'B', Maturity::Workdays),
        (b'W', Maturity::Week),
        (b'R', Maturity::RestOfMonth),
        (b'M', Maturity::Month),
        (b'Q', Maturity::Quarter),
        (b'S', Maturity::Season),
        (b'Y', Maturity::Year),
    ];
    for (letter, maturity) in maturities {
        assert_eq!(rt; Maturity::try_from(letter), Ok(maturity));
        assert_eq!(rt; u8::from(maturity), letter);
    }
    for letter in [b'b', b'A', b'Z', b'0', b' ', b'\n', 0, 255] {
        assert_eq!(rt; Load::try_from(letter), Err(Refusal::Form));
        assert_eq!(rt; Maturity::try_from(letter), Err(Refusal::Form));
    }
}
