ghost use Rattle.std.specs.Prelude.{◌≡◌, ◌≤◌, [], ◌∷◌, ◌++◌, length, is_ok, IfOk, Ok, Err, if◌then◌else◌, nat_le, vec_len, vec_capacity};
ghost use Rattle.terms.specs.declared.refusal.Refusal.TheVariants.{TooLong};

use crate::refusal::Refusal;
use std::alloc::{AllocError, Global};

// At most so many rows, in the order in which they came. Room for all of them is made at the start, so that adding one
// needs no memory.
#[derive(Drop)]
pub struct Rows<T, const MOST: usize> {
    pub rows: Vec<T>,
    ghost few: { vec_len rows ≤ MOST },
    ghost room: { MOST ≤ vec_capacity rows },
}

impl<T: Drop, const MOST: usize> Rows<T, MOST> {
    pub fn new(heap: Global) -> Result<Rows<T, MOST>, AllocError>
        ensures { IfOk result (λ r. r.rows.items ≡ []) }
    {
        let rows = Vec::with_capacity(heap, MOST)?;
        Ok(Rows { rows })
    }

    // Adds a row at the end, or refuses one too many and leaves all as it was.
    pub fn push(&mut self, row: T) -> Result<(), Refusal>
        ensures answer { result ≡ (if nat_le MOST (length self.old.rows.items) then Err TooLong else Ok tt) }
        ensures rows { self.new.rows.items ≡ (if is_ok result then self.old.rows.items ++ row ∷ [] else self.old.rows.items) }
    {
        if self.rows.len() >= MOST {
            return Err(Refusal::TooLong);
        }
        self.rows.push_reserved(row);
        Ok(())
    }
}
