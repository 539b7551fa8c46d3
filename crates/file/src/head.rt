ghost use Rattle.std.specs.Prelude.{◌≡◌, ◌+◌, map, OnOk};
ghost use Rattle.terms.specs.Told.{Told};
ghost use Rattle.text.specs.Fields.{see};
ghost use Rattle.forms.specs.declared.section.Section.TheVariants.{Head};
ghost use Rattle.file.specs.Meaning.{days_in, draft_view};
ghost use Rattle.file.specs.Says.{head_days, line_says};
ghost use Rattle.file.specs.Tells.{Tells};
ghost use Rattle.file.specs.View.{no_view};
ghost use Rattle.file.specs.Walk.{line_at};

use crate::fault::Unread;
use crate::lines::Lines;
use calendar::Load;
use days::Day;
use forms::head_form;
use std::alloc::Global;
use tariff::{Draft, Settlement};
use terms::{Failure, Refusal};
use text::Field;

// The date, the horizon, and whether prices are final.
fn days_of(fields: &[Field]) -> Result<(Day, Day, Settlement), Refusal>
    ensures { days_in result ≡ head_days (map see fields.now) }
{
    let head = head_form(fields)?;
    let date = Day::from_number(head.date)?;
    let horizon = Day::from_number(head.horizon)?;
    Ok((date, horizon, head.settlement))
}

// A draft on the date and the horizon of the head.
fn draft_of(heap: Global, fields: &[Field]) -> Result<Draft<Load>, Failure>
    ensures { Told draft_view result (line_says Head no_view (map see fields.now)) }
{
    let (date, horizon, settlement) = days_of(fields)?;
    Draft::new(heap, date, horizon, settlement)
}

impl Lines<'_> {
    // The draft of the head, which comes next.
    pub(crate) fn head(&mut self, heap: Global) -> Result<Draft<Load>, Unread>
        ensures draft { Tells (λ d. (draft_view d, self.new.rest.now)) result (line_at (line_says Head no_view) self.old.number self.old.rest.now) }
        ensures number { OnOk result (self.new.number ≡ self.old.number + 1) }
    {
        let line = self.next()?;
        draft_of(heap, &self.fields).map_err(|failure| Unread::at(failure, line))
    }
}
