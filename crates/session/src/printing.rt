ghost use Rattle.std.specs.Prelude.{◌≡◌, ◌++◌, IfOk, string_bytes, OnOk};
ghost use Rattle.file.specs.File.{file_says};
ghost use Rattle.session.specs.Printed.{Printed, Session};
ghost use Rattle.session.specs.Texts.{line, answer_lines, fault_text};
ghost use Rattle.file.specs.Given.{given, Matched};

use crate::lines::{Answer, Told};
use crate::running::answers_to;
use file::{Fault, Tables, Unread, tables_of};
use std::alloc::{AllocError, Global};
use terms::Refusal;

// What the station prints on a margin file.
pub fn printed(heap: Global, file: &[u8]) -> Result<String, AllocError>
    ensures { IfOk result (λ t. Printed (file_says file.now) (string_bytes t)) }
{
    match tables_of(heap, file) {
        Ok(tables) => session_text(heap, tables),
        Err(Unread::Refused(fault)) => fault_text(heap, fault),
        // `Unread` keeps no `AllocError` to pass on.
        Err(Unread::NoMemory) => Err(AllocError),
    }
}

// A line for each call of the tables.
fn session_text(heap: Global, tables: Tables) -> Result<String, AllocError>
    requires { Matched tables }
    ensures { IfOk result (λ t. Session (given tables) (string_bytes t)) }
{
    let answers = answers_to(heap, &tables.opening, &tables.calls.rows)?;
    let mut text = String::new(heap);
    add_answers(&mut text, &answers)?;
    Ok(text)
}

// The number and line of a file that is refused.
fn fault_text(heap: Global, fault: Fault) -> Result<String, AllocError>
    ensures { IfOk result (λ t. string_bytes t ≡ line (fault_text fault)) }
{
    let mut text = String::new(heap);
    let told = Told(fault);
    writeln!(text, "{told}")?;
    Ok(text)
}

fn add_answers(text: &mut String, answers: &[Result<u16, Refusal>]) -> Result<(), AllocError>
    ensures { OnOk result (string_bytes text.new ≡ string_bytes text.old ++ answer_lines answers.now) }
{
    for answer in answers {
        let answer = Answer(*answer);
        writeln!(text, "{answer}")?;
    }
    Ok(())
}
