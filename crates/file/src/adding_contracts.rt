ghost use Rattle.std.specs.Prelude.{◌≡◌, ◌<◌, map};
ghost use Rattle.calendar.specs.Loads.{load_mask};
ghost use Rattle.contracts.specs.Hours.{mask_in, contract_hours};
ghost use Rattle.contracts.specs.Rows.{said_in};
ghost use Rattle.contracts.specs.Table.{size, nth};
ghost use Rattle.tariff.specs.Views.{table_in};
ghost use Rattle.text.specs.Fields.{see};
ghost use Rattle.file.specs.Meaning.{draft_view, terms_in, Added, NothingElse};
ghost use Rattle.file.specs.Says.{terms_of, contract_by, contract_says};

use crate::body::Row;
use calendar::Load;
use contracts::Terms;
use days::Day;
use forms::{ContractRow, contract_form};
use tariff::{Draft, Prices};
use terms::Refusal;
use text::Field;

// The terms of a contract, where its two days exist.
fn terms_of(row: ContractRow) -> Result<Terms, Refusal>
    ensures { terms_in result ≡ terms_of row }
{
    let first = Day::from_number(row.first)?;
    let registration = Day::from_number(row.registration)?;
    Ok(Terms {
        number: row.number,
        instrument: row.instrument,
        maturity: row.maturity,
        first,
        registration,
    })
}

// The delivery hours of the contract at a place.
fn hours_at(draft: &Draft<Load>, place: usize) -> u32
    ensures { place < size (table_in draft.now) → result ≡ contract_hours (mask_in load_mask draft.now.contracts.instruments.rows.items) (nth (table_in draft.now) place) }
{
    draft
        .contracts
        .contract_at(place)
        .map_or(0, |contract| draft.contracts.hours_of_contract(contract))
}

// Adds a contract that has hours. What is refused last has been added: whoever is told so drops all.
fn add_terms(draft: &mut Draft<Load>, terms: Terms, prices: Prices) -> Result<(), Refusal>
    ensures { Added (contract_by (draft_view draft.old) prices (said_in terms)) result (draft_view draft.new) }
{
    let place = draft.contracts.contracts.rows.len();
    draft.add_contract(terms, prices)?;
    if hours_at(draft, place) == 0 {
        return Err(Refusal::NoHours);
    }
    Ok(())
}

impl Row for ContractRow {
    type Table = Draft<Load>;

    ghost view = { draft_view };

    ghost says = { contract_says };

    ghost kept = { NothingElse };

    fn add(draft: &mut Draft<Load>, fields: &[Field]) -> Result<(), Refusal> {
        let row = contract_form(fields)?;
        let terms = terms_of(row)?;
        add_terms(draft, terms, row.prices)
    }
}
