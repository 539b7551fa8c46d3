ghost use Rattle.std.specs.Prelude.{◌≡◌, map};
ghost use Rattle.text.specs.Fields.{see};
ghost use Rattle.forms.specs.Forms.{range_form, range_seen};
ghost use Rattle.forms.specs.Tails.{step_in, steps_form, steps_seen};

use crate::narrow::{Narrow, PriceRange};
use crate::take::take;
use tariff::{GroupRange, Step, Steps};
use terms::Refusal;
use text::{Field, number_in};

// Group, price range, and up to three limits, each with its percentage.
pub fn range_form(fields: &[Field]) -> Result<GroupRange, Refusal>
    ensures { range_seen result ≡ range_form (map see fields.now) }
{
    let (group, fields) = take(fields)?;
    let (PriceRange(range), fields) = take(fields)?;
    let steps = steps_form(fields)?;
    Ok(GroupRange {
        group,
        range,
        steps,
    })
}

// The limits, which go in pairs with their percentages. By place, as the array that is filled is counted.
fn steps_form(fields: &[Field]) -> Result<Steps, Refusal>
    ensures { steps_seen result ≡ steps_form (map see fields.now) }
{
    let used = fields.len() / 2;
    if fields.len() % 2 == 1 || used > 3 {
        return Err(Refusal::Form);
    }
    let mut each = [Step {
        limit: 0,
        percent: 0,
    }; 3];
    for i in 0..used {
        each[i] = step_in(fields[2 * i], fields[2 * i + 1])?;
    }
    Ok(Steps {
        used: used as u8,
        each,
    })
}

// A limit and its percentage.
fn step_in(limit: Field<'_>, percent: Field<'_>) -> Result<Step, Refusal>
    ensures { result ≡ step_in (see limit.entry) (see percent.entry) }
{
    let limit = number_in(limit)?;
    let percent = number_in(percent)?;
    Ok(Step {
        limit,
        percent: u8::narrow(percent),
    })
}
