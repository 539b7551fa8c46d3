ghost use Rattle.std.specs.Prelude.{◌≡◌, if◌then◌else◌, Some, None};
ghost use Rattle.books.specs.State.{is_account, is_listing, account_place, listing_place};
ghost use Rattle.opening.specs.Rows.{is_limited};

use crate::opening::Opening;
use books::place_of;

impl Opening {
    // The place of an account, by its number.
    pub fn place_of_account(&self, number: u16) -> Option<usize>
        ensures { result ≡ (if is_account number self.now.accounts.rows.items then Some (account_place number self.now.accounts.rows.items) else None) }
    {
        place_of(&self.accounts.rows, number)
    }

    // The place of a contract, by its number: one line, too, over the search that both share.
    pub fn place_of_listing(&self, number: u16) -> Option<usize>
        ensures { result ≡ (if is_listing number self.now.listings.items then Some (listing_place number self.now.listings.items) else None) }
    {
        place_of(&self.listings, number)
    }

    // Whether a contract has limits, by its number.
    pub fn is_limited(&self, contract: u16) -> bool
        ensures { result ≡ is_limited contract self.now.limits.rows.items }
    {
        self.limits.rows.iter().any(|x| x.contract == contract)
    }
}
