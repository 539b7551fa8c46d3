ghost use Rattle.std.specs.Prelude.{◌≡◌, ◌<◌, ◌≤◌, true, IfOk, vec_len, slice_index_or, unsigned_abs};
ghost use Rattle.books.specs.State.{is_listing, listing_place};
ghost use Rattle.ledger.specs.Views.{net_of, held_in, nobody};

use crate::tables::Tables;
use arrayvec::ArrayVec;
use books::Whose;
use terms::{Refusal, total};

impl Tables {
    // The net position of the account at a place, in the contract at another.
    fn net_at(&self, row: usize, column: usize, contract: u16) -> i64
        requires row { row < vec_len self.now.accounts }
        requires listed { is_listing contract self.now.listings.items ≡ true }
        requires column { column ≡ listing_place contract self.now.listings.items }
        ensures value { result ≡ net_of self.now (slice_index_or self.now.accounts.items row nobody).number contract }
        ensures bound { unsigned_abs result ≤ 10000 }
    {
        let cell = self.cells[row * self.listings.len() + column];
        cell.opening.quantity + cell.traded.quantity
    }

    // The sum of the net positions of some accounts in a contract.
    pub fn held(&self, whose: Whose, contract: u16) -> Result<i64, Refusal>
        ensures value { result ≡ held_in self.now whose contract }
        ensures bound { IfOk result (λ n. unsigned_abs n ≤ 320000) }
    {
        let column = self.column_of(contract).ok_or(Refusal::NotInBook)?;
        let mut nets: ArrayVec<i64, 32> = ArrayVec::new();
        for (row, account) in self.accounts.iter().enumerate() {
            if whose.has(*account) {
                nets.push(self.net_at(row, column, contract));
            }
        }
        Ok(total(&nets))
    }
}
