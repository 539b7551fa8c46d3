ghost use Rattle.std.specs.Prelude.{◌≡◌, ℕ, ◌<◌, map, IfOk};
ghost use Rattle.contracts.specs.Hours.{mask_in};
ghost use Rattle.contracts.specs.Lines.{lines};
ghost use Rattle.contracts.specs.Seen.{seen};
ghost use Rattle.contracts.specs.Views.{table_of};
ghost use Rattle.positions.specs.Law.{HoursKept};
ghost use Rattle.positions.specs.Net.{placed};
ghost use Rattle.positions.specs.Netted.{position, netted};
ghost use Rattle.positions.specs.Results.{netted_at, netted_by, PositionsAre, OwnAre};

use crate::breakdown::Holdings;
use crate::own::OwnPositions;
use calendar::Profile;
use contracts::{ContractTable, Line};
use std::alloc::{AllocError, Global};

// An account's position on every line, in the order of the lines, before netting and after it. Two lists: what is kept
// is said of each whole list, and a list of pairs would say it of two views of one.
#[derive(Drop)]
pub struct Positions {
    pub before: Vec<i64>,
    pub netted: Vec<i64>,
}

// Works out the positions of an account from its quantity of each contract, by place; missing quantities count as 0.
pub fn positions_of<P: Profile + Drop>(
    heap: Global,
    table: &ContractTable<P>,
    quantities: &[i32],
) -> Result<Positions, AllocError>
    ensures value { IfOk result (λ p. PositionsAre (table_of table.now) (placed quantities.now) p.before.items p.netted.items) }
    ensures law { IfOk result (λ p. HoursKept (mask_in P.Profile.mask table.now.instruments.rows.items) (table_of table.now) (placed quantities.now) p.before.items p.netted.items) }
{
    let lines = table.lines(heap)?;
    let holdings = Holdings { table, quantities };
    let mut own = holdings.own_positions(heap)?;
    own.net_all(table);
    holdings.line_positions(heap, &lines, &own)
}

impl<P: Drop> Holdings<'_, P> {
    // The position of each contract's own line, by place.
    fn own_positions(&self, heap: Global) -> Result<OwnPositions, AllocError>
        ensures { IfOk result (λ own. OwnAre (table_of self.now.table.now) (placed self.now.quantities.now) own.positions.items) }
    {
        let positions = (0..self.table.contracts.rows.len())
            .map(|place| self.position_of(Line::Own(place)))
            .collect(heap)?;
        Ok(OwnPositions { positions })
    }

    // The position of every line, before netting and with the netted positions of the contracts' own lines.
    fn line_positions(
        &self,
        heap: Global,
        lines: &[Line],
        own: &OwnPositions,
    ) -> Result<Positions, AllocError>
        ensures before { IfOk result (λ p. p.before.items ≡ map (position (table_of self.now.table.now) (placed self.now.quantities.now)) (map (seen self.now.table.now.date.number) lines.now)) }
        ensures netted { IfOk result (λ p. p.netted.items ≡ map (netted_by (table_of self.now.table.now) (placed self.now.quantities.now) own.now.positions.items) (map (seen self.now.table.now.date.number) lines.now)) }
    {
        let before: Vec<i64> = lines
            .iter()
            .map(|line| self.position_of(*line))
            .collect(heap)?;
        let netted = lines
            .iter()
            .zip(&before)
            .map(|(line, position)| netted_at(*line, *position, own))
            .collect(heap)?;
        Ok(Positions { before, netted })
    }
}

// A line's netted position: that of the contract's own line, or the position itself.
fn netted_at(line: Line, position: i64, own: &OwnPositions) -> i64
    ensures { (date : ℕ) → result ≡ netted_at position own.now.positions.items (seen date line) }
{
    match line {
        Line::Day(_, _) | Line::Rest(_, _) => position,
        Line::Own(place) => own.at(place),
    }
}
