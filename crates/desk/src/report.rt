ghost use Rattle.std.specs.Prelude.{◌≡◌, ◌++◌, IfOk, string_bytes, OnOk};
ghost use Rattle.std.specs.List.{zip};
ghost use Rattle.desk.specs.Texts.{asked_lines, row_lines, report_text};

use crate::lines::Asked;
use crate::row::Row;
use books::Call;
use std::alloc::{AllocError, Global};
use terms::Refusal;

// A line of text for each call with its answer, and then one for each cell.
pub fn report_of(
    heap: Global,
    calls: &[Call],
    answers: &[Result<u16, Refusal>],
    rows: &[Row],
) -> Result<String, AllocError>
    ensures { IfOk result (λ t. string_bytes t ≡ report_text calls.now answers.now rows.now) }
{
    let mut text = String::new(heap);
    add_asked(&mut text, calls, answers)?;
    add_rows(&mut text, rows)?;
    Ok(text)
}

fn add_asked(
    text: &mut String,
    calls: &[Call],
    answers: &[Result<u16, Refusal>],
) -> Result<(), AllocError>
    ensures { OnOk result (string_bytes text.new ≡ string_bytes text.old ++ asked_lines (zip calls.now answers.now)) }
{
    for (call, answer) in calls.iter().zip(answers.iter()) {
        let asked = Asked {
            call: *call,
            answer: *answer,
        };
        writeln!(text, "{asked}")?;
    }
    Ok(())
}

fn add_rows(text: &mut String, rows: &[Row]) -> Result<(), AllocError>
    ensures { OnOk result (string_bytes text.new ≡ string_bytes text.old ++ row_lines rows.now) }
{
    for row in rows {
        writeln!(text, "{row}")?;
    }
    Ok(())
}
