ghost use Rattle.std.specs.Prelude.{◌≡◌, ◌++◌, IfOk, string_bytes, OnOk};
ghost use Rattle.hours.specs.Answers.{answer_in};
ghost use Rattle.hours.specs.Reports.{told, report_of, LineByLine};

use crate::answer::{Answer, answer_to};
use std::alloc::{AllocError, Global};
use terms::Refusal;
use text::{next_line, split_into};

// The text of the answers, a line for each line of the input. Bytes at its end with no line's end are refused.
#[tactic(auto, using(crate::proofs::Linewise::line_by_line))]
pub fn report_on(heap: Global, input: &[u8]) -> Result<String, AllocError>
    ensures value { IfOk result (λ t. string_bytes t ≡ report_of input.now) }
    ensures law { LineByLine }
{
    let mut text = String::new(heap);
    let mut fields = Vec::new(heap);
    let mut rest = input;
    while let Some((line, after)) = next_line(rest) {
        split_into(line, &mut fields)?;
        add_line(&mut text, answer_to(&fields))?;
        rest = after;
    }
    if !rest.is_empty() {
        add_line(&mut text, Err(Refusal::Form))?;
    }
    Ok(text)
}

// Adds the line for one answer.
fn add_line(text: &mut String, found: Result<Answer, Refusal>) -> Result<(), AllocError>
    ensures { OnOk result (string_bytes text.new ≡ string_bytes text.old ++ told (answer_in found)) }
{
    match found {
        Ok(answer) => writeln!(text, "{answer}")?,
        Err(refusal) => writeln!(text, "{refusal}")?,
    }
    Ok(())
}
