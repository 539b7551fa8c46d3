ghost use Rattle.std.specs.Prelude.{◌≡◌, IfOk, string_bytes};
ghost use Rattle.calendar.specs.Loads.{load_mask};
ghost use Rattle.contracts.specs.Hours.{mask_in};
ghost use Rattle.contracts.specs.Views.{table_of};
ghost use Rattle.positions.specs.Net.{placed};
ghost use Rattle.lines.specs.Rows.{report_of};

use crate::row::row_of;
use calendar::Load;
use contracts::ContractTable;
use positions::Positions;
use std::alloc::{AllocError, Global};

// A text line for each line of the table: its label, its instrument, its first day, its delivery hours, its position
// before netting and after it.
pub fn report_of(
    heap: Global,
    table: &ContractTable<Load>,
    positions: &Positions,
) -> Result<String, AllocError>
    ensures { IfOk result (λ t. string_bytes t ≡ report_of (mask_in load_mask table.now.instruments.rows.items) (table_of table.now) positions.now.before.items positions.now.netted.items) }
{
    let lines = table.lines(heap)?;
    let mut text = String::new(heap);
    // By place: a line whose position is missing is printed with 0, where `zip` would leave it out.
    for (i, line) in lines.iter().enumerate() {
        let before = at(&positions.before, i);
        let netted = at(&positions.netted, i);
        let row = row_of(table, *line, before, netted);
        writeln!(text, "{row}")?;
    }
    Ok(text)
}

// The position at a place; past the end of the list there is none.
fn at(positions: &[i64], i: usize) -> i64
    ensures { result ≡ placed positions.now i }
{
    positions.get(i).copied().unwrap_or(0)
}
