ghost use Rattle.std.specs.Prelude.{◌≡◌, map, Some};
ghost use Rattle.text.specs.Fields.{see};
ghost use Rattle.hours.specs.Answers.{answer_of, answer_in, delivery, written};

use calendar::{Load, Maturity, Period, hours_of_period};
use days::Day;
use std::fmt;
use terms::Refusal;
use text::{Field, at_end, take_letter, take_number};

// The days of a period and its delivery hours.
#[derive(Clone, Copy, PartialEq, Eq, Debug)]
pub struct Answer {
    pub period: Period,
    pub hours: u32,
}

// The answer to the fields of a line. Its form is seen to first, then the number of the day, then the date rule.
pub fn answer_to(fields: &[Field]) -> Result<Answer, Refusal>
    ensures { answer_in result ≡ answer_of (map see fields.now) }
{
    let (profile, fields) = take_letter(fields)?;
    let (maturity, fields) = take_letter(fields)?;
    let (number, fields) = take_number(fields)?;
    at_end(fields)?;
    let load = Load::try_from(profile)?;
    let maturity = Maturity::try_from(maturity)?;
    let day = Day::from_number(number)?;
    let period = maturity.period(day)?;
    Ok(Answer {
        period,
        hours: hours_of_period(&load, period),
    })
}

impl fmt::Display for Answer {
    ghost output = { λ a. Some (written (delivery a)) };

    fn fmt<W: fmt::Write>(&self, f: &mut fmt::Formatter<W>) -> fmt::Result {
        let first = self.period.first.to_number();
        let last = self.period.last.to_number();
        let days = self.period.days();
        let hours = self.hours;
        write!(f, "{first} {last} {days} {hours}")
    }
}
