ghost use Rattle.std.specs.Prelude.{◌≡◌, ◌+◌, ◌-◌, IfOk, Ok};
ghost use Rattle.days.specs.Days.{day_within, day_found};
ghost use Rattle.calendar.specs.Periods.{maturity_of, maturity_letter, starts_on, last_of, period_of, period_in, MadeOf, covers};

use crate::period::Period;
use days::{Day, Weekday};
use terms::Refusal;

// How long a contract delivers.
#[derive(Clone, Copy, PartialEq, Eq, Debug)]
pub enum Maturity {
    SingleDay,
    Weekend,
    // Monday to Friday.
    Workdays,
    // Seven days from a Monday.
    Week,
    // From a given day to the end of its month.
    RestOfMonth,
    Month,
    Quarter,
    // Six months from 1 April or 1 October.
    Season,
    Year,
}

impl TryFrom<u8> for Maturity {
    type Error = Refusal;

    ghost try_from_gives = { λ letter r. r ≡ maturity_of letter };

    fn try_from(letter: u8) -> Result<Maturity, Refusal> {
        match letter {
            b'D' => Ok(Maturity::SingleDay),
            b'E' => Ok(Maturity::Weekend),
            b'B' => Ok(Maturity::Workdays),
            b'W' => Ok(Maturity::Week),
            b'R' => Ok(Maturity::RestOfMonth),
            b'M' => Ok(Maturity::Month),
            b'Q' => Ok(Maturity::Quarter),
            b'S' => Ok(Maturity::Season),
            b'Y' => Ok(Maturity::Year),
            _ => Err(Refusal::Form),
        }
    }
}

impl From<Maturity> for u8 {
    ghost from_gives = { λ maturity letter. (letter ≡ maturity_letter maturity) × (maturity_of letter ≡ Ok maturity) };

    fn from(maturity: Maturity) -> u8 {
        match maturity {
            Maturity::SingleDay => b'D',
            Maturity::Weekend => b'E',
            Maturity::Workdays => b'B',
            Maturity::Week => b'W',
            Maturity::RestOfMonth => b'R',
            Maturity::Month => b'M',
            Maturity::Quarter => b'Q',
            Maturity::Season => b'S',
            Maturity::Year => b'Y',
        }
    }
}

impl Maturity {
    // The period from a first day. Refused where the day is no first day for the maturity, or the period would end
    // after 31 December 2099.
    #[tactic(auto, using(crate::proofs::Parts::last_after, crate::proofs::Parts::made_of, crate::proofs::Parts::within_some))]
    pub fn period(self, first: Day) -> Result<Period, Refusal>
        ensures value { period_in result ≡ period_of self first.number }
        ensures law { IfOk result (λ p. MadeOf self p.first.number p.last.number) }
    {
        if !self.starts_on(first) {
            return Err(Refusal::DateRule);
        }
        let last = self.last_from(first).ok_or(Refusal::DateRule)?;
        Ok(Period { first, last })
    }

    // Whether a day may be the first.
    fn starts_on(self, day: Day) -> bool
        ensures { result ≡ starts_on self day.number }
    {
        match self {
            Maturity::SingleDay | Maturity::RestOfMonth => true,
            Maturity::Weekend => day.weekday() == Weekday::Saturday,
            Maturity::Workdays | Maturity::Week => day.weekday() == Weekday::Monday,
            Maturity::Month => day.first_of_month() == day,
            Maturity::Quarter => day.first_of_month() == day && day.month() % 3 == 0,
            Maturity::Season => day.first_of_month() == day && day.month() % 6 == 3,
            Maturity::Year => day.first_of_month() == day && day.month() % 12 == 0,
        }
    }

    // The last day, where that is by the end of 2099.
    fn last_from(self, first: Day) -> Option<Day>
        ensures { day_found result ≡ day_within (last_of self first.number) }
    {
        match self {
            Maturity::SingleDay => Some(first),
            Maturity::Weekend => first.plus(1),
            Maturity::Workdays => first.plus(4),
            Maturity::Week => first.plus(6),
            Maturity::RestOfMonth | Maturity::Month => first.last_of_month_after(0),
            Maturity::Quarter => first.last_of_month_after(2),
            Maturity::Season => first.last_of_month_after(5),
            Maturity::Year => first.last_of_month_after(11),
        }
    }
}

impl Period {
    pub fn days(self) -> u16
        ensures { result ≡ self.last.number - self.first.number + 1 }
    {
        self.last.number - self.first.number + 1
    }

    pub fn covers(self, day: Day) -> bool
        ensures { result ≡ covers self.first.number self.last.number day.number }
    {
        self.first <= day && day <= self.last
    }
}
