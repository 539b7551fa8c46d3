ghost use Rattle.std.specs.Prelude.{◌≡◌, ◌+◌, Some};
ghost use Rattle.days.specs.Days.{numbered};
ghost use Rattle.days.specs.Months.{month_of, month_start};
ghost use Rattle.calendar.specs.Loads.{load_mask};
ghost use Rattle.contracts.specs.Hours.{mask_in};
ghost use Rattle.contracts.specs.Seen.{seen};
ghost use Rattle.contracts.specs.Views.{table_of};
ghost use Rattle.lines.specs.Rows.{called, written, label_of, first_of, row_of};

use calendar::{Load, Maturity};
use contracts::{ContractTable, Line, RestOf};
use days::Day;
use std::fmt;

// What a line is called: `day`, `rest` of a month, or the letter of an open contract's maturity.
#[derive(Clone, Copy, PartialEq, Eq, Debug)]
pub enum Label {
    Day,
    Rest,
    Contract(Maturity),
}

impl fmt::Display for Label {
    ghost output = { λ l. Some (called l) };

    fn fmt<W: fmt::Write>(&self, f: &mut fmt::Formatter<W>) -> fmt::Result {
        match *self {
            Label::Day => write!(f, "day"),
            Label::Rest => write!(f, "rest"),
            Label::Contract(maturity) => {
                let letter = char::from(u8::from(maturity));
                write!(f, "{letter}")
            }
        }
    }
}

// What is said of a line.
#[derive(Clone, Copy, PartialEq, Eq, Debug)]
pub struct Row {
    pub label: Label,
    pub instrument: u8,
    // A number YYYYMMDD.
    pub first: u32,
    pub hours: u32,
    pub before: i64,
    pub netted: i64,
}

impl fmt::Display for Row {
    ghost output = { λ r. Some (written r) };

    fn fmt<W: fmt::Write>(&self, f: &mut fmt::Formatter<W>) -> fmt::Result {
        let Row {
            label,
            instrument,
            first,
            hours,
            before,
            netted,
        } = *self;
        write!(f, "{label} {instrument} {first} {hours} {before} {netted}")
    }
}

// The row of a line with its positions.
pub fn row_of(table: &ContractTable<Load>, line: Line, before: i64, netted: i64) -> Row
    ensures { written result ≡ row_of (mask_in load_mask table.now.instruments.rows.items) (table_of table.now) (seen table.now.date.number line) before netted }
{
    Row {
        label: label_of(table, line),
        instrument: table.instrument_of(line),
        first: first_of(table, line),
        hours: table.hours_of_line(line),
        before,
        netted,
    }
}

fn label_of(table: &ContractTable<Load>, line: Line) -> Label
    ensures { result ≡ label_of (table_of table.now) (seen table.now.date.number line) }
{
    match line {
        Line::Day(_, _) => Label::Day,
        Line::Rest(_, _) => Label::Rest,
        // No line has a place past the table's end.
        Line::Own(place) => Label::Contract(
            table
                .contract_at(place)
                .map_or(Maturity::SingleDay, |contract| contract.terms.maturity),
        ),
    }
}

fn first_of(table: &ContractTable<Load>, line: Line) -> u32
    ensures { result ≡ numbered (first_of (table_of table.now) (seen table.now.date.number line)) }
{
    match line {
        Line::Day(_, day) => day.to_number(),
        Line::Rest(_, RestOf::ThisMonth) => table.date.first_of_month().to_number(),
        Line::Rest(_, RestOf::NextMonth) => first_after(table.date),
        Line::Own(place) => table
            .contract_at(place)
            .map_or(AFTER_ALL, |contract| contract.terms.first.to_number()),
    }
}

// 1 January 2100, which is no `Day`.
const AFTER_ALL: u32 = 21_000_101;

// The first day of the next month.
fn first_after(date: Day) -> u32
    ensures { result ≡ numbered (month_start (month_of date.number + 1)) }
{
    date.last_of_month()
        .plus(1)
        .map_or(AFTER_ALL, |day| day.to_number())
}
