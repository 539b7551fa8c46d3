ghost use Rattle.std.specs.Prelude.{◌≡◌, ℕ, ◌+◌, ◌*◌, ◌^◌, ◌<◌, ◌≤◌, true, List, length, pos, ◌+ℤ◌, IfSome, IfOk, if◌then◌else◌, Some, None, vec_len};
ghost use Rattle.terms.specs.Amounts.{amount_plus, amount_size};
ghost use Rattle.books.specs.Answers.{shown};
ghost use Rattle.books.specs.State.{is_account, is_listing, account_place, listing_place, kind_of, cell_within};
ghost use Rattle.ledger.specs.Places.{place_of, is_listed};
ghost use Rattle.ledger.specs.Views.{holding_of};

use crate::tables::Tables;
use books::{Cell, place_of};
use terms::Refusal;

impl Tables {
    // The place of an account.
    pub(crate) fn row_of(&self, account: u16) -> Option<usize>
        ensures value { result ≡ (if is_account account self.now.accounts.items then Some (account_place account self.now.accounts.items) else None) }
        ensures bound { IfSome result (λ i. i < 32) }
    {
        place_of(&self.accounts, account)
    }

    // The place of a contract: one line, too, over the search that both share.
    pub(crate) fn column_of(&self, contract: u16) -> Option<usize>
        ensures value { result ≡ (if is_listing contract self.now.listings.items then Some (listing_place contract self.now.listings.items) else None) }
        ensures bound { IfSome result (λ i. i < vec_len self.now.listings) }
    {
        place_of(&self.listings, contract)
    }

    // Where the cell of an account in a contract lies.
    pub(crate) fn place(&self, account: u16, contract: u16) -> Option<usize>
        ensures value { result ≡ (if is_listed self.now.accounts.items self.now.listings.items account contract then Some (place_of self.now.accounts.items self.now.listings.items account contract) else None) }
        ensures bound { IfSome result (λ i. i < 32 * vec_len self.now.listings) }
    {
        let row = self.row_of(account)?;
        let column = self.column_of(contract)?;
        Some(row * self.listings.len() + column)
    }

    // What an account has of a contract.
    pub fn cell(&self, account: u16, contract: u16) -> Result<Cell, Refusal>
        ensures value { result ≡ shown (holding_of self.now) account contract }
        ensures range { IfOk result (λ x. cell_within (kind_of contract self.now.listings.items) x ≡ true) }
    {
        let at = self.place(account, contract).ok_or(Refusal::NotInBook)?;
        Ok(self.cells[at])
    }
}
