ghost use Rattle.std.specs.Prelude.{◌≡◌, ◌+◌, ◌^◌, ◌<◌, ◌≤◌, ℕ, List, map, length, OnOk};
ghost use Rattle.text.specs.Chain.{◌then◌};
ghost use Rattle.text.specs.Fields.{see};
ghost use Rattle.std.specs.Str.{bytes_eq};
ghost use Rattle.file.specs.Plan.{title_is};
ghost use Rattle.file.specs.Walk.{Texts, Next, title_at};

use crate::fault::{Fault, Unread};
use std::alloc::Global;
use terms::Refusal;
use text::{Field, next_line, split_into};

// The most bytes that a file may have.
pub const MOST_BYTES: usize = 65_536;

// The lines of a file that are left, the number of the first of them, and the fields of the line before that. One list
// serves the fields of every line.
#[derive(Drop)]
pub(crate) struct Lines<'a> {
    pub rest: &'a [u8],
    pub number: u32,
    pub fields: Vec<Field<'a>>,
    // Each line has a byte at least.
    ghost fits: { number + length rest.now < 2 ^ 32 },
}

impl<'a> Lines<'a> {
    pub(crate) fn of(heap: Global, file: &'a [u8]) -> Lines<'a>
        requires { length file.now ≤ MOST_BYTES }
        ensures rest { result.rest.now ≡ file.now }
        ensures number { result.number ≡ 1 }
    {
        Lines {
            rest: file,
            number: 1,
            fields: Vec::new(heap),
        }
    }

    // Moves on over the next line, and gives it.
    fn text(&mut self) -> Result<&'a [u8], Fault>
        ensures text { Texts self.old.number self.old.rest.now self.new.rest.now result }
        ensures number { OnOk result (self.new.number ≡ self.old.number + 1) }
    {
        let Some((text, rest)) = next_line(self.rest) else {
            return Err(Fault {
                refusal: Refusal::Form,
                line: self.number,
            });
        };
        self.rest = rest;
        self.number += 1;
        Ok(text)
    }

    // Moves on over the title.
    pub(crate) fn title(&mut self) -> Result<(), Fault>
        ensures title { (result then λ _. Ok self.new.rest.now) ≡ title_at self.old.number self.old.rest.now }
        ensures number { OnOk result (self.new.number ≡ self.old.number + 1) }
    {
        let line = self.number;
        if is_title(self.text()?) {
            Ok(())
        } else {
            Err(Fault {
                refusal: Refusal::Form,
                line,
            })
        }
    }

    // Moves on over the next line, puts its fields in place of those of the line before it, and gives its number.
    pub(crate) fn next(&mut self) -> Result<u32, Unread>
        ensures next { Next self.old.number self.old.rest.now self.new.rest.now (map see self.new.fields.items) result }
        ensures number { OnOk result (self.new.number ≡ self.old.number + 1) }
    {
        let line = self.number;
        let text = self.text()?;
        split_into(text, &mut self.fields)?;
        Ok(line)
    }
}

fn is_title(text: &[u8]) -> bool
    ensures { result ≡ bytes_eq text.now title_is }
{
    let title: &[u8] = b"MARGIN 10";
    text == title
}
