ghost use Rattle.std.specs.Prelude.{◌≡◌, ◌+◌, List, map, Result, OnOk};
ghost use Rattle.terms.specs.declared.refusal.Refusal.{Refusal};
ghost use Rattle.text.specs.Fields.{Piece, see};
ghost use Rattle.file.specs.Meaning.{Added};
ghost use Rattle.file.specs.Tells.{Tells};
ghost use Rattle.file.specs.View.{View};
ghost use Rattle.file.specs.Walk.{body_of};

use crate::fault::{Unread, at_line};
use crate::lines::Lines;
use terms::Refusal;
use text::Field;

// A row of a section, which a line of the file says.
pub(crate) trait Row {
    // What takes the rows of the section.
    type Table;

    // What a table has read.
    ghost view: { Self.Table → View };

    // What has been read with a line, or what it is refused for.
    ghost says: { View → List Piece → Result View Refusal };

    // What no row of the section touches, refused or not.
    ghost kept: { Self.Table → Self.Table → Type 0 };

    // Adds the row that the fields of a line say, or refuses it.
    fn add(table: &mut Self::Table, fields: &[Field]) -> Result<(), Refusal>
        ensures added { Added (says (view table.old) (map see fields.now)) result (view table.new) }
        ensures kept { kept table.old table.new };
}

// Adds the rows of a section, so many lines.
pub(crate) fn read_rows<R: Row>(
    table: &mut R::Table,
    count: u32,
    lines: &mut Lines<'_>,
) -> Result<(), Unread>
    ensures rows { Tells (λ _. (R.view table.new, lines.new.rest.now)) result (body_of R.says count lines.old.number (R.view table.old) lines.old.rest.now) }
    ensures number { OnOk result (lines.new.number ≡ lines.old.number + count) }
{
    for _ in 0..count {
        let line = lines.next()?;
        at_line(line, R::add(table, &lines.fields))?;
    }
    Ok(())
}
