ghost use Rattle.std.specs.Prelude.{◌≡◌, ◌+◌, ◌≤◌, map, IfOk, OnOk};
ghost use Rattle.text.specs.Fields.{see};
ghost use Rattle.forms.specs.Sections.{most_of};
ghost use Rattle.file.specs.Contents.{count_for, count_of, counts_of};
ghost use Rattle.file.specs.Tells.{Tells};
ghost use Rattle.file.specs.Walk.{line_at};

use crate::counts::Counts;
use crate::fault::{Unread, at_line};
use crate::lines::Lines;
use forms::Section;
use terms::Refusal;
use text::{Field, at_end, take_letter, take_number};

// A count that a section may have.
fn count_for(section: Section, count: i64) -> Result<u32, Refusal>
    ensures value { result ≡ count_for section count }
    ensures bound { IfOk result (λ n. n ≤ most_of section) }
{
    if section == Section::Head && count != 1 {
        return Err(Refusal::Form);
    }
    if count > i64::from(section.most()) {
        return Err(Refusal::TooLong);
    }
    u32::try_from(count).map_err(|_| Refusal::OutOfRange)
}

// The count of a contents line: the section's letter, and how many lines its body has.
pub(crate) fn count_of(section: Section, fields: &[Field]) -> Result<u32, Refusal>
    ensures value { result ≡ count_of section (map see fields.now) }
    ensures bound { IfOk result (λ n. n ≤ most_of section) }
{
    let (letter, fields) = take_letter(fields)?;
    let (count, fields) = take_number(fields)?;
    at_end(fields)?;
    if letter != u8::from(section) {
        return Err(Refusal::Form);
    }
    count_for(section, count)
}

impl Lines<'_> {
    // The count of the contents line that comes next.
    fn count(&mut self, section: Section) -> Result<u32, Unread>
        ensures value { Tells (λ n. (n, self.new.rest.now)) result (line_at (count_of section) self.old.number self.old.rest.now) }
        ensures number { OnOk result (self.new.number ≡ self.old.number + 1) }
    {
        let line = self.next()?;
        Ok(at_line(line, count_of(section, &self.fields))?)
    }

    // The counts of the ten contents lines.
    pub(crate) fn counts(&mut self) -> Result<Counts, Unread>
        requires { self.old.number ≡ 2 }
        ensures value { Tells (λ n. (n, self.new.rest.now)) result (counts_of self.old.rest.now) }
        ensures number { OnOk result (self.new.number ≡ 12) }
    {
        self.count(Section::Head)?;
        Ok(Counts {
            instruments: self.count(Section::Instruments)?,
            contracts: self.count(Section::Contracts)?,
            accounts: self.count(Section::Accounts)?,
            openings: self.count(Section::Openings)?,
            limits: self.count(Section::Limits)?,
            risks: self.count(Section::Risks)?,
            ranges: self.count(Section::Ranges)?,
            credits: self.count(Section::Credits)?,
            calls: self.count(Section::Calls)?,
        })
    }
}
