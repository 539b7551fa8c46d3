ghost use Rattle.std.specs.Prelude.{◌≡◌, map};
ghost use Rattle.text.specs.Cursor.{taken};
ghost use Rattle.text.specs.Fields.{see};
ghost use Rattle.forms.specs.Forms.{head_form, instrument_form, prices_first, contract_form, account_form, opening_form, limit_form, credit_form};

use crate::row::{ContractRow, Head, InstrumentRow};
use crate::take::take;
use books::Account;
use calendar::{Load, Maturity};
use contracts::{Instrument, Kind};
use opening::{Limit, Opened};
use tariff::{Credit, Prices, Settlement};
use terms::{Amount, Refusal};
use text::{Field, at_end, take_letter, take_number};

// Lines of a fixed number of fields.

// Date, horizon, and F for final prices or P for provisional ones.
pub fn head_form(fields: &[Field]) -> Result<Head, Refusal>
    ensures { result ≡ head_form (map see fields.now) }
{
    let (date, fields) = take_number(fields)?;
    let (horizon, fields) = take_number(fields)?;
    let (letter, fields) = take_letter(fields)?;
    at_end(fields)?;
    let settlement = Settlement::try_from(letter)?;
    Ok(Head {
        date,
        horizon,
        settlement,
    })
}

// Number, type, load profile, spot price.
pub fn instrument_form(fields: &[Field]) -> Result<InstrumentRow, Refusal>
    ensures { result ≡ instrument_form (map see fields.now) }
{
    let (number, fields) = take(fields)?;
    let (kind, fields) = take_letter(fields)?;
    let (profile, fields) = take_letter(fields)?;
    let (spot, fields) = take(fields)?;
    at_end(fields)?;
    let kind = Kind::try_from(kind)?;
    let profile = Load::try_from(profile)?;
    Ok(InstrumentRow {
        instrument: Instrument {
            number,
            kind,
            profile,
        },
        spot,
    })
}

// Number, instrument, maturity, first day, last registration day, price of today, price of the day before.
pub fn contract_form(fields: &[Field]) -> Result<ContractRow, Refusal>
    ensures { result ≡ contract_form (map see fields.now) }
{
    let (number, fields) = take(fields)?;
    let (instrument, fields) = take(fields)?;
    let (maturity, fields) = take_letter(fields)?;
    let (first, fields) = take_number(fields)?;
    let (registration, fields) = take_number(fields)?;
    let (prices, fields) = take_prices(fields)?;
    at_end(fields)?;
    let maturity = Maturity::try_from(maturity)?;
    Ok(ContractRow {
        number,
        instrument,
        maturity,
        first,
        registration,
        prices,
    })
}

fn take_prices<'a, 'b>(fields: &'b [Field<'a>]) -> Result<(Prices, &'b [Field<'a>]), Refusal>
    ensures { taken result ≡ prices_first (map see fields.now) }
{
    let (today, fields) = take(fields)?;
    let (before, fields) = take(fields)?;
    Ok((Prices { today, before }, fields))
}

// Account, agent.
pub fn account_form(fields: &[Field]) -> Result<Account, Refusal>
    ensures { result ≡ account_form (map see fields.now) }
{
    let (number, fields) = take(fields)?;
    let (agent, fields) = take(fields)?;
    at_end(fields)?;
    Ok(Account { number, agent })
}

// Account, contract, quantity, value.
pub fn opening_form(fields: &[Field]) -> Result<Opened, Refusal>
    ensures { result ≡ opening_form (map see fields.now) }
{
    let (account, fields) = take(fields)?;
    let (contract, fields) = take(fields)?;
    let (quantity, fields) = take_number(fields)?;
    let (value, fields) = take_number(fields)?;
    at_end(fields)?;
    Ok(Opened {
        account,
        contract,
        amount: Amount { quantity, value },
    })
}

// Contract, limit on the sum of all accounts, limit on the sum of each agent's.
pub fn limit_form(fields: &[Field]) -> Result<Limit, Refusal>
    ensures { result ≡ limit_form (map see fields.now) }
{
    let (contract, fields) = take(fields)?;
    let (member, fields) = take(fields)?;
    let (agents, fields) = take(fields)?;
    at_end(fields)?;
    Ok(Limit {
        contract,
        member,
        agents,
    })
}

// Two groups and the percentage that is credited between them.
pub fn credit_form(fields: &[Field]) -> Result<Credit, Refusal>
    ensures { result ≡ credit_form (map see fields.now) }
{
    let (first, fields) = take(fields)?;
    let (second, fields) = take(fields)?;
    let (percent, fields) = take(fields)?;
    at_end(fields)?;
    Ok(Credit {
        first,
        second,
        percent,
    })
}
