ghost use Rattle.std.specs.Prelude.{◌≡◌, ◌^◌, ◌≤◌, pos, if◌then◌else◌, unsigned_abs};
ghost use Rattle.contracts.specs.Lines.{reaches};
ghost use Rattle.contracts.specs.Seen.{seen};
ghost use Rattle.contracts.specs.Views.{table_of};
ghost use Rattle.positions.specs.Net.{placed};
ghost use Rattle.positions.specs.Netted.{position};

use arrayvec::ArrayVec;
use contracts::{ContractTable, Line};
use terms::total;

// What an account holds of each contract of a table, by the contracts' places.
#[derive(Drop)]
pub(crate) struct Holdings<'a, P> {
    pub(crate) table: &'a ContractTable<P>,
    pub(crate) quantities: &'a [i32],
}

impl<P: Drop> Holdings<'_, P> {
    // The quantity of the contract at a place; contracts past the end of the list hold none.
    fn quantity_at(&self, place: usize) -> i64
        ensures value { result ≡ placed self.now.quantities.now place }
        ensures bound { unsigned_abs result ≤ 2 ^ 31 }
    {
        self.quantities.get(place).map_or(0, |q| i64::from(*q))
    }

    // What the contract at a place gives to a line: its whole quantity, or nothing.
    fn share(&self, line: Line, place: usize) -> i64
        ensures value { result ≡ (if reaches (table_of self.now.table.now) place (seen self.now.table.now.date.number line) then placed self.now.quantities.now place else pos 0) }
        ensures bound { unsigned_abs result ≤ 2 ^ 31 }
    {
        if self.table.reaches(place, line) {
            self.quantity_at(place)
        } else {
            0
        }
    }

    // A line's position: the sum of what reaches it.
    pub(crate) fn position_of(&self, line: Line) -> i64
        ensures value { result ≡ position (table_of self.now.table.now) (placed self.now.quantities.now) (seen self.now.table.now.date.number line) }
        ensures bound { unsigned_abs result ≤ 2 ^ 38 }
    {
        let mut shares: ArrayVec<i64, 128> = ArrayVec::new();
        // By place, since it is by its place that a contract reaches a line.
        for place in 0..self.table.contracts.rows.len() {
            shares.push(self.share(line, place));
        }
        total(&shares)
    }
}
