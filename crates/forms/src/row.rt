use calendar::{Load, Maturity};
use contracts::Instrument;
use tariff::{LineName, Prices, Risk, Settlement};

// What the lines of a margin file say. Days stay numbers here: whether there is such a day is no question of form.

// The session: its date, its horizon, and whether its prices are final.
#[derive(Clone, Copy, PartialEq, Eq, Debug)]
pub struct Head {
    pub date: i64,
    pub horizon: i64,
    pub settlement: Settlement,
}

// An instrument and its spot price.
#[derive(PartialEq, Eq, Debug, Drop)]
pub struct InstrumentRow {
    pub instrument: Instrument<Load>,
    pub spot: i32,
}

// A contract and its prices.
#[derive(Clone, Copy, PartialEq, Eq, Debug)]
pub struct ContractRow {
    pub number: u16,
    pub instrument: u8,
    pub maturity: Maturity,
    pub first: i64,
    pub registration: i64,
    pub prices: Prices,
}

// The risk of a line, under the line's name.
#[derive(Clone, Copy, PartialEq, Eq, Debug)]
pub struct RiskRow {
    pub name: LineName,
    pub risk: Risk,
}
