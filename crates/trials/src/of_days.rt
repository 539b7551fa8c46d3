ghost use Rattle.std.specs.Prelude.{◌≤◌};

use days::{Day, Weekday};
use std::test::Fail;
use terms::Refusal;

// How long a month of a year from 2000 to 2099 is.
fn length(year: u32, month: u32) -> u32
    ensures { result ≤ 31 }
{
    match month {
        4 | 6 | 9 | 11 => 30,
        2 if year % 4 == 0 => 29,
        2 => 28,
        _ => 31,
    }
}

#[test]
fn numbers_that_name_no_day(rt: HostRuntime) {
    let none = [
        21000229,
        20010229,
        20140229,
        20140230,
        20140431,
        0,
        -20140101,
        20140100,
        20140001,
        20141301,
        21000101,
        19991231,
        99999999999,
    ];
    for number in none {
        assert_eq!(rt; Day::from_number(number), Err(Refusal::OutOfRange));
    }
}

// Each day of the hundred years in turn, and after each month the day that it has not.
#[test]
fn every_day_in_turn(rt: HostRuntime) -> Result<(), Fail> {
    let mut count = 0u16;
    for year in 2000..=2099 {
        for month in 1..=12 {
            let before = year * 10_000 + month * 100;
            let length = length(year, month);
            for day in 1..=length {
                let found = Day::from_number(i64::from(before + day))?;
                assert_eq!(rt; found.number, count);
                assert_eq!(rt; found.to_number(), before + day);
                assert_eq!(rt; found.first_of_month().to_number(), before + 1);
                assert_eq!(rt; found.last_of_month().to_number(), before + length);
                count = count.wrapping_add(1);
            }
            let none = i64::from(before + length + 1);
            assert_eq!(rt; Day::from_number(none), Err(Refusal::OutOfRange));
        }
    }
    assert_eq!(rt; count, 36_525);
    Ok(())
}

#[test]
fn weekdays(rt: HostRuntime) -> Result<(), Fail> {
    let some = [
        (20000101, Weekday::Saturday),
        (20000229, Weekday::Tuesday),
        (20140330, Weekday::Sunday),
        (20140331, Weekday::Monday),
        (20181231, Weekday::Monday),
        (20240229, Weekday::Thursday),
        (20960229, Weekday::Wednesday),
        (20991231, Weekday::Thursday),
    ];
    for (number, weekday) in some {
        assert_eq!(rt; Day::from_number(number)?.weekday(), weekday);
    }
    Ok(())
}

#[test]
fn days_before_and_after(rt: HostRuntime) -> Result<(), Fail> {
    let pairs = [
        (20140228, 20140301, 1),
        (20000228, 20000301, 2),
        (20181231, 20190106, 6),
        (20140101, 20150101, 365),
        (20000101, 20991231, 36_524),
    ];
    for (from, to, days) in pairs {
        let from = Day::from_number(from)?;
        let to = Day::from_number(to)?;
        assert_eq!(rt; from.plus(days), Some(to));
        assert_eq!(rt; to.days_after(from), i32::from(days));
        assert_eq!(rt; from.days_after(to), -i32::from(days));
        assert_eq!(rt; to.plus(36_525), None);
    }
    let last = Day::from_number(20991231)?;
    assert_eq!(rt; last.plus(0), Some(last));
    assert_eq!(rt; last.plus(1), None);
    assert_eq!(rt; last.last_of_month_after(0), Some(last));
    assert_eq!(rt; last.last_of_month_after(1), None);
    let day = Day::from_number(20140131)?;
    assert_eq!(rt;
        day.last_of_month_after(1),
        Some(Day::from_number(20140228)?)
    );
    assert_eq!(rt;
        day.last_of_month_after(25),
        Some(Day::from_number(20160229)?)
    );
    Ok(())
}
