ghost use Rattle.std.specs.Prelude.{◌≡◌, ◌≤◌, length, IfOk};
ghost use Rattle.file.specs.File.{whole, file_says, Lawful};
ghost use Rattle.file.specs.Given.{given, Matched, Filled};
ghost use Rattle.file.specs.Meaning.{view_of};
ghost use Rattle.file.specs.Parts.{parts_of};
ghost use Rattle.file.specs.Tells.{Tells};
ghost use Rattle.file.specs.View.{no_view};

use crate::calls::Calls;
use crate::fault::{Fault, Unread};
use crate::lines::{Lines, MOST_BYTES};
use crate::parts::read_contracts;
use crate::reading::Reading;
use crate::tables::Tables;
use opening::Opening;
use std::alloc::{AllocError, Global};
use tariff::Tariff;
use terms::Refusal;

impl Tables {
    // Every table zero.
    pub fn zero(heap: Global) -> Result<Tables, AllocError>
        ensures value { IfOk result (λ t. given t ≡ no_view) }
        ensures matched { IfOk result (λ t. Matched t) }
    {
        let tariff = Tariff::zero(heap)?;
        let opening = Opening::on(heap, &tariff.draft.contracts)?;
        let calls = Calls::none(heap)?;
        Ok(Tables {
            tariff,
            opening,
            calls,
        })
    }
}

// Reads the parts of a file, one after another.
fn read_parts(heap: Global, file: &[u8]) -> Result<Reading, Unread>
    requires { length file.now ≤ MOST_BYTES }
    ensures { Tells view_of result (parts_of file.now) }
{
    let mut lines = Lines::of(heap, file);
    lines.title()?;
    let counts = lines.counts()?;
    let mut reading = read_contracts(heap, counts, &mut lines)?;
    reading.read_opening(counts, &mut lines)?;
    reading.read_tariff(counts, &mut lines)?;
    reading.read_calls(counts, &mut lines)?;
    Ok(reading)
}

// The tables of what was read, where no risk line is lacking.
fn complete(heap: Global, reading: Reading) -> Result<Tables, Unread>
    ensures value { Tells given result (whole (view_of reading)) }
    ensures matched { IfOk result (λ t. Matched t) }
{
    let Reading {
        draft,
        opening,
        calls,
    } = reading;
    // A `match`: with `map_err` and `?` the proof of what is told did not close.
    match draft.complete(heap) {
        Ok(tariff) => Ok(Tables {
            tariff,
            opening,
            calls,
        }),
        Err(failure) => Err(Unread::at(failure, 8)),
    }
}

// The tables that a file gives.
pub fn tables_of(heap: Global, file: &[u8]) -> Result<Tables, Unread>
    ensures value { Tells given result (file_says file.now) }
    ensures matched { IfOk result (λ t. Matched t) }
    ensures law { Lawful file.now (file_says file.now) }
{
    if file.len() > MOST_BYTES {
        return Err(Unread::Refused(Fault {
            refusal: Refusal::TooLong,
            line: 0,
        }));
    }
    let reading = read_parts(heap, file)?;
    complete(heap, reading)
}

// Fills the tables with what a file says, or refuses it by number and line and leaves every table zero.
pub fn read(heap: Global, file: &[u8], tables: &mut Tables) -> Result<(), Unread>
    ensures filled { Filled (file_says file.now) result tables.old tables.new }
    ensures law { Lawful file.now (file_says file.now) }
{
    *tables = Tables::zero(heap)?;
    *tables = tables_of(heap, file)?;
    Ok(())
}
