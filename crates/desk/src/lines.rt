ghost use Rattle.std.specs.Prelude.{Some};
ghost use Rattle.desk.specs.Texts.{call_text, answer_text, asked_text, row_text};

use crate::row::Row;
use books::{Call, Trade};
use std::fmt;
use terms::Refusal;

// What a book is asked.
#[derive(Clone, Copy, PartialEq, Eq, Debug)]
pub struct Question(pub Call);

impl fmt::Display for Question {
    ghost output = { λ q. Some (call_text q.0) };

    fn fmt<W: fmt::Write>(&self, f: &mut fmt::Formatter<W>) -> fmt::Result {
        match self.0 {
            Call::Enter(
                Trade {
                    account,
                    contract,
                    quantity,
                    price,
                },
            ) => write!(f, "enter {account} {contract} {quantity} {price}"),
            Call::Cancel(number) => write!(f, "cancel {number}"),
            Call::Transfer(number, account) => write!(f, "transfer {number} {account}"),
            Call::LimitMember(contract, most) => write!(f, "limit member {contract} {most}"),
            Call::LimitAgents(contract, most) => write!(f, "limit agents {contract} {most}"),
        }
    }
}

// What a call is answered: the number of its entry, or of the refusal.
#[derive(Clone, Copy, PartialEq, Eq, Debug)]
pub struct Answer(pub Result<u16, Refusal>);

impl fmt::Display for Answer {
    ghost output = { λ a. Some (answer_text a.0) };

    fn fmt<W: fmt::Write>(&self, f: &mut fmt::Formatter<W>) -> fmt::Result {
        match self.0 {
            Ok(number) => write!(f, "{number}"),
            Err(refusal) => write!(f, "refused {refusal}"),
        }
    }
}

// A call and its answer.
#[derive(Clone, Copy, PartialEq, Eq, Debug)]
pub struct Asked {
    pub call: Call,
    pub answer: Result<u16, Refusal>,
}

impl fmt::Display for Asked {
    ghost output = { λ x. Some (asked_text x.call x.answer) };

    fn fmt<W: fmt::Write>(&self, f: &mut fmt::Formatter<W>) -> fmt::Result {
        let question = Question(self.call);
        let answer = Answer(self.answer);
        write!(f, "{question} -> {answer}")
    }
}

impl fmt::Display for Row {
    ghost output = { λ x. Some (row_text x) };

    fn fmt<W: fmt::Write>(&self, f: &mut fmt::Formatter<W>) -> fmt::Result {
        let account = self.account;
        let contract = self.contract;
        let opening = self.cell.opening;
        let traded = self.cell.traded;
        let opening_quantity = opening.quantity;
        let opening_value = opening.value;
        let quantity = traded.quantity;
        let value = traded.value;
        write!(
            f,
            "cell {account} {contract} {opening_quantity} {opening_value} {quantity} {value}"
        )
    }
}
