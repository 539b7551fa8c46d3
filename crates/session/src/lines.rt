ghost use Rattle.std.specs.Prelude.{Some};
ghost use Rattle.session.specs.Texts.{answer_text, fault_text};

use file::Fault;
use std::fmt;
use terms::Refusal;

// What a call is answered: the refusal's number, or 0, and the entry's, or 0.
#[derive(Clone, Copy, PartialEq, Eq, Debug)]
pub struct Answer(pub Result<u16, Refusal>);

impl fmt::Display for Answer {
    ghost output = { λ a. Some (answer_text a.0) };

    fn fmt<W: fmt::Write>(&self, f: &mut fmt::Formatter<W>) -> fmt::Result {
        match self.0 {
            Ok(number) => write!(f, "0 {number}"),
            Err(refusal) => write!(f, "{refusal} 0"),
        }
    }
}

// What is told of a file that is refused: the number and the line.
#[derive(Clone, Copy, PartialEq, Eq, Debug)]
pub struct Told(pub Fault);

impl fmt::Display for Told {
    ghost output = { λ x. Some (fault_text x.0) };

    fn fmt<W: fmt::Write>(&self, f: &mut fmt::Formatter<W>) -> fmt::Result {
        let refusal = self.0.refusal;
        let line = self.0.line;
        write!(f, "{refusal} {line}")
    }
}
