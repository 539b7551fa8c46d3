ghost use Rattle.std.specs.Prelude.{◌≡◌, replicate, IfOk, Some, None, slice_index_or, slice_set};

use std::alloc::{AllocError, Global};

// A limit for each contract by its place, or none.
#[derive(Drop)]
pub struct LimitTable {
    pub limits: Vec<Option<u32>>,
}

impl LimitTable {
    // Room for the limits of so many contracts, which have none yet.
    pub fn none(heap: Global, count: usize) -> Result<LimitTable, AllocError>
        ensures { IfOk result (λ t. t.limits.items ≡ replicate count None) }
    {
        let limits = vec![in heap; None; count]?;
        Ok(LimitTable { limits })
    }

    // The limit of the contract at a place.
    pub fn at(&self, place: usize) -> Option<u32>
        ensures { result ≡ slice_index_or self.now.limits.items place None }
    {
        self.limits.get(place).copied().flatten()
    }

    // Sets the limit of the contract at a place. Past the end there is no record, and nothing changes.
    pub fn set(&mut self, place: usize, most: u32)
        ensures { self.new.limits.items ≡ slice_set self.old.limits.items place (Some most) }
    {
        if let Some(limit) = self.limits.get_mut(place) {
            *limit = Some(most);
        }
    }
}

// Limits on the sum of all accounts, and on the sum of each agent's.
#[derive(Drop)]
pub struct Limits {
    pub members: LimitTable,
    pub agents: LimitTable,
}
