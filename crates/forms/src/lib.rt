// From the fields of a line of a margin file to the row that they say, or the refusal that the form is wrong.
#![tactic(auto)]

mod call;
mod narrow;
mod plain;
mod range;
mod risk;
mod row;
mod section;
mod take;

pub use call::call_form;
pub use narrow::{Narrow, PriceRange};
pub use plain::{
    account_form, contract_form, credit_form, head_form, instrument_form, limit_form, opening_form,
};
pub use range::range_form;
pub use risk::risk_form;
pub use row::{ContractRow, Head, InstrumentRow, RiskRow};
pub use section::Section;
