ghost use Rattle.std.specs.Prelude.{◌≡◌, is_ok, if◌then◌else◌, Some, None, vec_len};
ghost use Rattle.contracts.specs.Rules.{answer_by};
ghost use Rattle.books.specs.State.{is_listing, listing_place};
ghost use Rattle.opening.specs.Rules.{account_refusal, opening_refusal, limit_refusal, row_refusal, suits_type, place_by};
ghost use Rattle.opening.specs.Places.{place_of};
ghost use Rattle.opening.specs.Views.{opening_of, plus_account, plus_row, plus_limit};

use crate::opening::Opening;
use crate::rows::{Limit, Opened};
use books::Account;
use terms::{Bounds, Refusal};

impl Opening {
    // Adds an account at the end, or refuses it and leaves all as it was.
    pub fn add_account(&mut self, account: Account) -> Result<(), Refusal>
        ensures answer { result ≡ answer_by (account_refusal (opening_of self.old).accounts account) }
        ensures said { opening_of self.new ≡ (if is_ok result then plus_account (opening_of self.old) account else opening_of self.old) }
    {
        if !Bounds::Account.holds(i64::from(account.number))
            || !Bounds::Agent.holds(i64::from(account.agent))
        {
            return Err(Refusal::OutOfRange);
        }
        if self.place_of_account(account.number).is_some() {
            return Err(Refusal::RepeatedKey);
        }
        self.accounts.push(account)
    }

    // Adds an opening position at the end, or refuses it and leaves all as it was.
    pub fn add_opening(&mut self, row: Opened) -> Result<(), Refusal>
        ensures answer { result ≡ answer_by (opening_refusal (opening_of self.old).accounts (opening_of self.old).listings (opening_of self.old).rows row) }
        ensures said { opening_of self.new ≡ (if is_ok result then plus_row (opening_of self.old) row else opening_of self.old) }
    {
        let place = self.place_for(row)?;
        self.rows.push(row)?;
        self.amounts[place] = Some(row.amount);
        Ok(())
    }

    // The place of an opening position that may be added where there is room.
    fn place_for(&self, row: Opened) -> Result<usize, Refusal>
        ensures { result ≡ place_by (place_of self.now.accounts.rows.items self.now.listings.items (vec_len self.now.listings) row.account row.contract) (row_refusal self.now.accounts.rows.items self.now.listings.items self.now.rows.rows.items row) }
    {
        let contract = self.place_of_listing(row.contract);
        if !row.is_within() || !self.suits_type(contract, row) {
            return Err(Refusal::OutOfRange);
        }
        let contract = contract.ok_or(Refusal::UnknownReference)?;
        let account = self
            .place_of_account(row.account)
            .ok_or(Refusal::UnknownReference)?;
        let place = account * self.listings.len() + contract;
        if self.amounts[place].is_some() {
            return Err(Refusal::RepeatedKey);
        }
        Ok(place)
    }

    // Whether an amount keeps to the type of its contract, at the place of that, if it is listed.
    fn suits_type(&self, place: Option<usize>, row: Opened) -> bool
        requires { place ≡ (if is_listing row.contract self.now.listings.items then Some (listing_place row.contract self.now.listings.items) else None) }
        ensures { result ≡ suits_type self.now.listings.items row }
    {
        // A `match`: at `is_none_or` the check does not see what the closure's index and call give.
        match place {
            Some(place) => self.listings[place].admits(row.amount),
            None => true,
        }
    }

    // Adds a contract's limits at the end, or refuses them and leaves all as it was.
    pub fn add_limit(&mut self, limit: Limit) -> Result<(), Refusal>
        ensures answer { result ≡ answer_by (limit_refusal (opening_of self.old).listings (opening_of self.old).limits limit) }
        ensures said { opening_of self.new ≡ (if is_ok result then plus_limit (opening_of self.old) limit else opening_of self.old) }
    {
        if !limit.is_within() {
            return Err(Refusal::OutOfRange);
        }
        if self.place_of_listing(limit.contract).is_none() {
            return Err(Refusal::UnknownReference);
        }
        if self.is_limited(limit.contract) {
            return Err(Refusal::RepeatedKey);
        }
        self.limits.push(limit)
    }
}
