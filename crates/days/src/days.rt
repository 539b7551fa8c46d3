ghost use Rattle.std.specs.Prelude.{◌≡◌, ◌+◌, ◌-◌, ◌<◌, ◌≤◌, pos, ◌-ℤ◌, Ok};
ghost use Rattle.days.specs.Months.{month_of, month_start, month_end, MonthsTile};
ghost use Rattle.days.specs.Days.{numbered, day_at, day_of, day_in, day_within, day_found, Named, weekday_at, weekday_number, WeekdaysGoRound};

use crate::day::Day;
use crate::months::{length_of, month_of, start_of};
use crate::weekday::Weekday;
use terms::Refusal;

impl Day {
    // The day that a number YYYYMMDD names. By name and no TryFrom, since a day is also numbered from 1 January 2000.
    pub fn from_number(number: i64) -> Result<Day, Refusal>
        ensures value { day_in result ≡ day_of number }
        ensures law { Named number (day_in result) }
    {
        let number = u32::try_from(number).map_err(|_| Refusal::OutOfRange)?;
        Day::from_date(number / 10_000, number / 100 % 100, number % 100)
    }

    // The day of a month, counted from 1, of a year.
    fn from_date(year: u32, month: u32, day: u32) -> Result<Day, Refusal>
        ensures { day_in result ≡ day_at year month day }
    {
        if !(2000..=2099).contains(&year) || !(1..=12).contains(&month) || day < 1 {
            return Err(Refusal::OutOfRange);
        }
        let month = (12 * (year - 2000) + (month - 1)) as u16;
        if day > u32::from(length_of(month)) {
            return Err(Refusal::OutOfRange);
        }
        let first = start_of(month);
        Ok(Day {
            number: first + (day - 1) as u16,
        })
    }

    // The number YYYYMMDD of the day. By name, as above.
    pub fn to_number(self) -> u32
        ensures value { result ≡ numbered self.number }
        ensures law { day_of (pos result) ≡ Ok self.number }
    {
        let month = u32::from(self.month());
        let first = self.first_of_month();
        10_000 * (2000 + month / 12)
            + 100 * (month % 12 + 1)
            + u32::from(self.number - first.number + 1)
    }

    pub fn weekday(self) -> Weekday
        ensures value { weekday_number result ≡ weekday_at self.number }
        ensures law { WeekdaysGoRound }
    {
        match (self.number + 5) % 7 {
            0 => Weekday::Monday,
            1 => Weekday::Tuesday,
            2 => Weekday::Wednesday,
            3 => Weekday::Thursday,
            4 => Weekday::Friday,
            5 => Weekday::Saturday,
            _ => Weekday::Sunday,
        }
    }

    // The month, counted from January 2000, which is 0.
    pub fn month(self) -> u16
        ensures value { result ≡ month_of self.number }
        ensures bound { result < 1200 }
        ensures law { MonthsTile }
    {
        month_of(self.number)
    }

    pub fn first_of_month(self) -> Day
        ensures value { result.number ≡ month_start (month_of self.number) }
        ensures bound { result.number ≤ self.number }
    {
        Day {
            number: start_of(self.month()),
        }
    }

    pub fn last_of_month(self) -> Day
        ensures value { result.number ≡ month_end self.number }
        ensures bound { self.number ≤ result.number }
    {
        Day {
            number: start_of(self.month() + 1) - 1,
        }
    }

    // The last day of the month that comes some months later, where that is by the end of 2099.
    pub fn last_of_month_after(self, months: u16) -> Option<Day>
        ensures { day_found result ≡ day_within (month_start (month_of self.number + months + 1) - 1) }
    {
        let month = self.month();
        if months >= 1200 - month {
            return None;
        }
        Some(Day {
            number: start_of(month + months + 1) - 1,
        })
    }

    // The day that comes some days later, where that is by the end of 2099.
    pub fn plus(self, days: u16) -> Option<Day>
        ensures { day_found result ≡ day_within (self.number + days) }
    {
        if days >= 36_525 - self.number {
            return None;
        }
        Some(Day {
            number: self.number + days,
        })
    }

    // How many days this day lies after another; below 0 where it lies before.
    pub fn days_after(self, other: Day) -> i32
        ensures { result ≡ pos self.number -ℤ pos other.number }
    {
        i32::from(self.number) - i32::from(other.number)
    }
}
