ghost use Rattle.std.specs.Prelude.{◌≡◌, map};
ghost use Rattle.text.specs.Cursor.{taken};
ghost use Rattle.text.specs.Fields.{see};
ghost use Rattle.forms.specs.Forms.{day_first, rest_first, own_first, name_first, risk_form};
ghost use Rattle.forms.specs.Tails.{gains_form};

use crate::row::RiskRow;
use crate::take::take;
use tariff::{LineName, Risk};
use terms::{Gains, Refusal};
use text::{Field, number_in, take_letter};

// The name of a line, group, delta, clearing price, gains.
pub fn risk_form(fields: &[Field]) -> Result<RiskRow, Refusal>
    ensures { result ≡ risk_form (map see fields.now) }
{
    let (name, fields) = take_name(fields)?;
    let (group, fields) = take(fields)?;
    let (delta, fields) = take(fields)?;
    let (price, fields) = take(fields)?;
    let gains = gains_form(fields)?;
    Ok(RiskRow {
        name,
        risk: Risk {
            group,
            delta,
            price,
            gains,
        },
    })
}

// `D instrument offset`, `M instrument month` or `C contract`.
fn take_name<'a, 'b>(fields: &'b [Field<'a>]) -> Result<(LineName, &'b [Field<'a>]), Refusal>
    ensures { taken result ≡ name_first (map see fields.now) }
{
    let (letter, fields) = take_letter(fields)?;
    match letter {
        b'D' => take_day(fields),
        b'M' => take_rest(fields),
        b'C' => take_own(fields),
        _ => Err(Refusal::Form),
    }
}

fn take_day<'a, 'b>(fields: &'b [Field<'a>]) -> Result<(LineName, &'b [Field<'a>]), Refusal>
    ensures { taken result ≡ day_first (map see fields.now) }
{
    let (instrument, fields) = take(fields)?;
    let (offset, fields) = take(fields)?;
    Ok((LineName::Day(instrument, offset), fields))
}

// One function of both would take the variant as a parameter, and be no shorter.
fn take_rest<'a, 'b>(fields: &'b [Field<'a>]) -> Result<(LineName, &'b [Field<'a>]), Refusal>
    ensures { taken result ≡ rest_first (map see fields.now) }
{
    let (instrument, fields) = take(fields)?;
    let (month, fields) = take(fields)?;
    Ok((LineName::Rest(instrument, month), fields))
}

fn take_own<'a, 'b>(fields: &'b [Field<'a>]) -> Result<(LineName, &'b [Field<'a>]), Refusal>
    ensures { taken result ≡ own_first (map see fields.now) }
{
    let (contract, fields) = take(fields)?;
    Ok((LineName::Own(contract), fields))
}

// The gains up to the last that is not 0, of sixteen. So that there is one spelling, no zero may stand at the end.
fn gains_form(fields: &[Field]) -> Result<Gains, Refusal>
    ensures { result ≡ gains_form (map see fields.now) }
{
    let count = fields.len();
    if count > 16 {
        return Err(Refusal::Form);
    }
    // By place: with `each.iter_mut().zip(fields)` it was not proved what the array holds in the end.
    let mut each = [0; 16];
    for (i, field) in fields.iter().enumerate() {
        each[i] = number_in(*field)?;
    }
    if count > 0 && each[count - 1] == 0 {
        return Err(Refusal::Form);
    }
    Ok(Gains { each })
}
