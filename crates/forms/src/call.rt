ghost use Rattle.std.specs.Prelude.{◌≡◌, map};
ghost use Rattle.text.specs.Fields.{see};
ghost use Rattle.forms.specs.Forms.{enter_form, cancel_form, transfer_form, call_form};

use crate::take::take;
use books::{Call, Trade};
use terms::Refusal;
use text::{Field, at_end};

// The first field names the call, and the others are its own: the slice is split here, so that the line shows which.
pub fn call_form(fields: &[Field]) -> Result<Call, Refusal>
    ensures { result ≡ call_form (map see fields.now) }
{
    match fields {
        [Field::Word(call), rest @ ..] => match call {
            [b'N'] => enter_form(rest),
            [b'X'] => cancel_form(rest),
            [b'T'] => transfer_form(rest),
            _ => Err(Refusal::Form),
        },
        _ => Err(Refusal::Form),
    }
}

// A new entry: account, contract, quantity, price.
fn enter_form(fields: &[Field]) -> Result<Call, Refusal>
    ensures { result ≡ enter_form (map see fields.now) }
{
    let (account, fields) = take(fields)?;
    let (contract, fields) = take(fields)?;
    let (quantity, fields) = take(fields)?;
    let (price, fields) = take(fields)?;
    at_end(fields)?;
    Ok(Call::Enter(Trade {
        account,
        contract,
        quantity,
        price,
    }))
}

// The cancellation of an entry.
fn cancel_form(fields: &[Field]) -> Result<Call, Refusal>
    ensures { result ≡ cancel_form (map see fields.now) }
{
    let (entry, fields) = take(fields)?;
    at_end(fields)?;
    Ok(Call::Cancel(entry))
}

// The transfer of an entry to an account.
fn transfer_form(fields: &[Field]) -> Result<Call, Refusal>
    ensures { result ≡ transfer_form (map see fields.now) }
{
    let (entry, fields) = take(fields)?;
    let (account, fields) = take(fields)?;
    at_end(fields)?;
    Ok(Call::Transfer(entry, account))
}
