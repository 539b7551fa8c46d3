ghost use Rattle.std.specs.Prelude.{◌≡◌, map};
ghost use Rattle.text.specs.Cursor.{taken};
ghost use Rattle.text.specs.Fields.{see};
ghost use Rattle.forms.specs.Takes.{narrow_first};

use crate::narrow::Narrow;
use terms::Refusal;
use text::{Field, take_number};

// The number that the fields begin with, in the type that its row wants, and the other fields.
pub(crate) fn take<'a, 'b, N: Narrow>(
    fields: &'b [Field<'a>],
) -> Result<(N, &'b [Field<'a>]), Refusal>
    ensures { taken result ≡ narrow_first N.narrowed (map see fields.now) }
{
    let (n, fields) = take_number(fields)?;
    Ok((N::narrow(n), fields))
}
