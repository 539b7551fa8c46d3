ghost use Rattle.std.specs.Prelude.{◌≡◌, map};
ghost use Rattle.text.specs.Fields.{see};
ghost use Rattle.file.specs.Meaning.{view_of, draft_view, DraftKept, ContractsKept, TablesKept, NothingElse};
ghost use Rattle.file.specs.Says.{instrument_says, account_says, opening_says, limit_says, risk_says, range_says, credit_says, call_says};

use crate::body::Row;
use crate::reading::Reading;
use books::{Account, Call};
use calendar::Load;
use forms::{
    InstrumentRow, RiskRow, account_form, call_form, credit_form, instrument_form, limit_form,
    opening_form, range_form, risk_form,
};
use opening::{Limit, Opened};
use tariff::{Credit, Draft, GroupRange};
use terms::Refusal;
use text::Field;

// Each takes the row that the fields of a line say, or refuses it.

impl Row for InstrumentRow {
    type Table = Draft<Load>;

    ghost view = { draft_view };

    ghost says = { instrument_says };

    ghost kept = { NothingElse };

    fn add(draft: &mut Draft<Load>, fields: &[Field]) -> Result<(), Refusal> {
        let InstrumentRow { instrument, spot } = instrument_form(fields)?;
        draft.add_instrument(instrument, spot)
    }
}

impl Row for Account {
    type Table = Reading;

    ghost view = { view_of };

    ghost says = { account_says };

    ghost kept = { DraftKept };

    fn add(reading: &mut Reading, fields: &[Field]) -> Result<(), Refusal> {
        reading.opening.add_account(account_form(fields)?)
    }
}

impl Row for Opened {
    type Table = Reading;

    ghost view = { view_of };

    ghost says = { opening_says };

    ghost kept = { DraftKept };

    fn add(reading: &mut Reading, fields: &[Field]) -> Result<(), Refusal> {
        reading.opening.add_opening(opening_form(fields)?)
    }
}

impl Row for Limit {
    type Table = Reading;

    ghost view = { view_of };

    ghost says = { limit_says };

    ghost kept = { DraftKept };

    fn add(reading: &mut Reading, fields: &[Field]) -> Result<(), Refusal> {
        reading.opening.add_limit(limit_form(fields)?)
    }
}

impl Row for RiskRow {
    type Table = Reading;

    ghost view = { view_of };

    ghost says = { risk_says };

    ghost kept = { ContractsKept };

    fn add(reading: &mut Reading, fields: &[Field]) -> Result<(), Refusal> {
        let RiskRow { name, risk } = risk_form(fields)?;
        reading.draft.add_risk(name, risk)
    }
}

impl Row for GroupRange {
    type Table = Reading;

    ghost view = { view_of };

    ghost says = { range_says };

    ghost kept = { ContractsKept };

    fn add(reading: &mut Reading, fields: &[Field]) -> Result<(), Refusal> {
        reading.draft.add_range(range_form(fields)?)
    }
}

impl Row for Credit {
    type Table = Reading;

    ghost view = { view_of };

    ghost says = { credit_says };

    ghost kept = { ContractsKept };

    fn add(reading: &mut Reading, fields: &[Field]) -> Result<(), Refusal> {
        reading.draft.add_credit(credit_form(fields)?)
    }
}

impl Row for Call {
    type Table = Reading;

    ghost view = { view_of };

    ghost says = { call_says };

    ghost kept = { TablesKept };

    fn add(reading: &mut Reading, fields: &[Field]) -> Result<(), Refusal> {
        reading.calls.add(call_form(fields)?)
    }
}
