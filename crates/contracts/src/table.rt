ghost use Rattle.std.specs.Prelude.{◌+◌, ◌<◌, ◌≤◌, map};
ghost use Rattle.contracts.specs.Rules.{InstrumentsKept, ContractsKept};
ghost use Rattle.contracts.specs.Rows.{instr, listed};

use crate::contract::{Contract, Instrument};
use days::Day;
use terms::Rows;

// The date, the horizon up to which days have lines of their own, and at most 8 instruments and 128 contracts, in the
// order in which they were added. Every table keeps the rules.
#[derive(Drop)]
pub struct ContractTable<P> {
    pub date: Day,
    pub horizon: Day,
    pub instruments: Rows<Instrument<P>, 8>,
    pub contracts: Rows<Contract, 128>,
    ghost ahead: { date.number < horizon.number },
    ghost near: { horizon.number ≤ date.number + 14 },
    ghost instruments_kept: { InstrumentsKept (map instr instruments.rows.items) },
    ghost contracts_kept: { ContractsKept (record { date = date.number; horizon = horizon.number; instruments = map instr instruments.rows.items; contracts = map listed contracts.rows.items }) },
}
