ghost use Rattle.std.specs.Prelude.{◌≡◌, ℕ, ◌^◌, ◌≤◌, unsigned_abs};
ghost use Rattle.positions.specs.Net.{placed};

// The positions of the contracts' own lines, by the contracts' places.
#[derive(Drop)]
pub(crate) struct OwnPositions {
    pub(crate) positions: Vec<i64>,
    // So that what is left of one, when a size is taken off it, fits too.
    ghost small: { (i : ℕ) → unsigned_abs (placed positions.items i) ≤ 2 ^ 62 },
}

impl OwnPositions {
    // The position of the contract at a place; past the end there is none.
    pub(crate) fn at(&self, place: usize) -> i64
        ensures { result ≡ placed self.now.positions.items place }
    {
        self.positions.get(place).copied().unwrap_or(0)
    }
}
