ghost use Rattle.std.specs.Prelude.{◌≡◌, ◌≤◌, [], ◌∷◌, ◌++◌, is_ok, IfOk, if◌then◌else◌, vec_capacity};
ghost use Rattle.contracts.specs.Rules.{answer_by};
ghost use Rattle.file.specs.Says.{call_refusal};

use books::Call;
use std::alloc::{AllocError, Global};
use terms::Refusal;

// The calls of a file, in order, with room for all that a file may have. No `Rows`: whoever puts calls together himself
// may have more of them than a file may.
#[derive(Drop)]
pub struct Calls {
    pub rows: Vec<Call>,
    ghost room: { 4096 ≤ vec_capacity rows },
}

impl Calls {
    pub fn none(heap: Global) -> Result<Calls, AllocError>
        ensures { IfOk result (λ c. c.rows.items ≡ []) }
    {
        let rows = Vec::with_capacity(heap, 4096)?;
        Ok(Calls { rows })
    }

    // Adds a call at the end, or refuses it and leaves all as it was.
    pub fn add(&mut self, call: Call) -> Result<(), Refusal>
        ensures answer { result ≡ answer_by (call_refusal self.old.rows.items call) }
        ensures rows { self.new.rows.items ≡ (if is_ok result then self.old.rows.items ++ call ∷ [] else self.old.rows.items) }
    {
        if call.is_out_of_range() {
            return Err(Refusal::OutOfRange);
        }
        if self.rows.len() >= 4096 {
            return Err(Refusal::TooLong);
        }
        self.rows.push_reserved(call);
        Ok(())
    }
}
