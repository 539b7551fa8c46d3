ghost use Rattle.std.specs.Prelude.{◌≡◌, map};
ghost use Rattle.text.specs.Fields.{see};
ghost use Rattle.text.specs.Cursor.{letter_in, number_in, letter_first, number_first, no_more, taken, TakesFirst};

use crate::field::Field;
use terms::Refusal;

// The byte of a word that has one alone. By name and no TryFrom, which would not tell a letter from a small number.
pub fn letter_in(field: Field<'_>) -> Result<u8, Refusal>
    ensures { result ≡ letter_in (see field.entry) }
{
    match field {
        Field::Word([letter]) => Ok(*letter),
        _ => Err(Refusal::Form),
    }
}

// The number of a field that is one. By name, as above.
pub fn number_in(field: Field<'_>) -> Result<i64, Refusal>
    ensures { result ≡ number_in (see field.entry) }
{
    match field {
        Field::Number(n) => Ok(n),
        Field::Word(_) => Err(Refusal::Form),
    }
}

// What the fields begin with, as `read` takes it, and the other fields.
fn take<'a, 'b, T, F: FnOnce(Field<'a>) -> Result<T, Refusal>>(
    fields: &'b [Field<'a>],
    read: F,
) -> Result<(T, &'b [Field<'a>]), Refusal>
    requires { F.IsAlwaysCallable read }
    ensures { TakesFirst (F.post read) fields.now result }
{
    let (first, rest) = fields.split_first().ok_or(Refusal::Form)?;
    Ok((read(*first)?, rest))
}

// The letter that the fields begin with, and the other fields.
pub fn take_letter<'a, 'b>(fields: &'b [Field<'a>]) -> Result<(u8, &'b [Field<'a>]), Refusal>
    ensures { taken result ≡ letter_first (map see fields.now) }
{
    take(fields, letter_in)
}

// The number that the fields begin with, and the other fields.
pub fn take_number<'a, 'b>(fields: &'b [Field<'a>]) -> Result<(i64, &'b [Field<'a>]), Refusal>
    ensures { taken result ≡ number_first (map see fields.now) }
{
    take(fields, number_in)
}

// Refuses a field that is left.
pub fn at_end(fields: &[Field]) -> Result<(), Refusal>
    ensures { result ≡ no_more (map see fields.now) }
{
    if fields.is_empty() {
        Ok(())
    } else {
        Err(Refusal::Form)
    }
}
