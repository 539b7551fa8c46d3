ghost use Rattle.std.specs.Prelude.{◌≡◌, true, ◌∷◌, is_ok, Some};
ghost use Rattle.books.specs.Answers.{answer, taken, changed};
ghost use Rattle.books.specs.Limits.{sum_of};
ghost use Rattle.books.specs.Shifts.{movement_of, entry_for};
ghost use Rattle.books.specs.State.{Follows, is_listing};
ghost use Rattle.limits.specs.Layers.{layer_of, under_limit, own_over, with_limit};
ghost use Rattle.limits.specs.Sums.{limit_of, over_at};

use crate::scope::{NewLimit, OfAgents, OfMember, Summing, limit_in};
use crate::sum::change_of;
use crate::table::LimitTable;
use books::{
    Account, Book, Call, Cell, Entry, Holdings, Listing, Scope, Shift, Whose, place_of, row_of,
};
use terms::Refusal;

// A layer of limits over a book that is lent to it. It is a book itself.
#[derive(Drop)]
pub struct ConcentrationLimit<'b, B, S> {
    pub below: &'b mut B,
    pub table: LimitTable,
    pub summing: S,
}

// Limits on the sum of all accounts.
pub type MemberLimit<'b, B> = ConcentrationLimit<'b, B, OfMember>;

// Limits on the sum of each agent's accounts.
pub type AgentLimit<'b, B> = ConcentrationLimit<'b, B, OfAgents>;

impl<'b, B: Book, S: Summing> ConcentrationLimit<'b, B, S> {
    // The entry that a call is about.
    #[tactic(auto, using(crate::proofs::Layering::cancel_entry, crate::proofs::Layering::transfer_entry))]
    fn entry_for(&self, call: Call) -> Entry
        requires { is_ok (answer (B.Book.state self.now.below.now) call) ≡ true }
        ensures { result ≡ entry_for (B.Book.state self.now.below.now) call }
    {
        match call {
            Call::Cancel(number) | Call::Transfer(number, _) => {
                self.below.entry(number).unwrap_or(Entry::BLANK)
            }
            Call::Enter(_) | Call::LimitMember(_, _) | Call::LimitAgents(_, _) => Entry::BLANK,
        }
    }

    // The limit of a contract, if it is listed and has one.
    fn limit_of(&self, contract: u16) -> Option<u32>
        ensures { result ≡ limit_of (layer_of S.Summing.scope self.now.table (B.Holdings.holding self.now.below.now).listings) (B.Holdings.holding self.now.below.now).listings contract }
    {
        self.table.at(place_of(self.below.listings(), contract)?)
    }

    // The sum that an account belongs to.
    fn sum_of(&self, account: u16) -> Whose
        ensures { result ≡ sum_of S.Summing.scope account (B.Holdings.holding self.now.below.now).accounts }
    {
        match self.summing.scope() {
            Scope::Member => Whose::Everyone,
            Scope::Agents => {
                Whose::Agent(row_of(self.below.accounts(), account).map_or(0, |found| found.agent))
            }
        }
    }

    // Whether a shift brings the sum that an account belongs to over a limit, and makes it larger.
    fn is_over(&self, most: u32, shift: Shift, account: Option<u16>) -> bool
        requires { is_listing shift.contract (B.Book.state self.now.below.now).listings ≡ true }
        ensures { result ≡ over_at (Some most) S.Summing.scope (B.Book.state self.now.below.now) (movement_of shift) account }
    {
        // No `is_some_and`: a closure does not know that the contract is listed, nor how much is held at most.
        let Some(account) = account else {
            return false;
        };
        let whose = self.sum_of(account);
        let Ok(before) = self.below.held(whose, shift.contract) else {
            return false;
        };
        let after = before + change_of(self.below.accounts(), whose, shift);
        u64::from(most) < after.unsigned_abs() && before.unsigned_abs() < after.unsigned_abs()
    }

    // Whether the layer itself refuses a call that the book below takes.
    fn exceeds(&self, call: Call) -> bool
        requires taken { is_ok (answer (B.Book.state self.now.below.now) call) ≡ true }
        requires follows { Follows (B.Holdings.holding self.now.below.now) (B.Book.state self.now.below.now) }
        ensures { result ≡ own_over (layer_of S.Summing.scope self.now.table (B.Book.state self.now.below.now).listings) (B.Book.state self.now.below.now) (taken (B.Book.state self.now.below.now) call) (changed (B.Book.state self.now.below.now) call) }
    {
        let shift = call.shift(self.entry_for(call));
        // No `is_some_and`: a closure does not know that what has a limit is listed.
        let Some(most) = self.limit_of(shift.contract) else {
            return false;
        };
        self.is_over(most, shift, shift.from) || self.is_over(most, shift, shift.to)
    }

    // Sets the limit of a contract that is listed. It says who lent the book, since no field can compare before and after.
    fn set_limit(&mut self, limit: NewLimit)
        ensures layer { layer_of S.Summing.scope self.new.table (B.Holdings.holding self.old.below.now).listings ≡ with_limit (layer_of S.Summing.scope self.old.table (B.Holdings.holding self.old.below.now).listings) (B.Holdings.holding self.old.below.now).listings limit.contract limit.most }
        ensures below { self.new.below.now ≡ self.old.below.now }
        ensures lender { self.new.below.ghost_name ≡ self.old.below.ghost_name }
    {
        if let Some(place) = place_of(self.below.listings(), limit.contract) {
            self.table.set(place, limit.most);
        }
    }
}

// What a layer does not decide it asks the book below, a call each: a trait's functions have no shorter form.
impl<'b, B: Book, S: Summing> Holdings for ConcentrationLimit<'b, B, S> {
    ghost holding = { λ s. B.Holdings.holding s.below.now };

    fn accounts(&self) -> &[Account] {
        self.below.accounts()
    }

    fn listings(&self) -> &[Listing] {
        self.below.listings()
    }

    fn cell(&self, account: u16, contract: u16) -> Result<Cell, Refusal> {
        self.below.cell(account, contract)
    }
}

impl<'b, B: Book, S: Summing> Book for ConcentrationLimit<'b, B, S> {
    ghost state = { λ s. under_limit S.Summing.scope s.table (B.Book.state s.below.now) };

    ghost lent = { λ s. s.below.ghost_name ∷ B.Book.lent s.below.now };

    fn entries(&self) -> u16 {
        self.below.entries()
    }

    fn entry(&self, number: u16) -> Option<Entry> {
        self.below.entry(number)
    }

    fn held(&self, whose: Whose, contract: u16) -> Result<i64, Refusal> {
        self.below.held(whose, contract)
    }

    // The book below is asked first.
    #[tactic(auto, using(crate::proofs::Layering::follows_layered))]
    fn may(&self, call: Call) -> Result<u16, Refusal> {
        let number = self.below.may(call)?;
        if self.exceeds(call) {
            return Err(Refusal::OverLimit);
        }
        Ok(number)
    }

    // A limit of the layer's own scope is set here. Everything else is the book below's.
    fn take(&mut self, call: Call) -> Result<u16, Refusal> {
        let number = self.may(call)?;
        match limit_in(self.summing.scope(), call) {
            Some(limit) => {
                self.set_limit(limit);
                Ok(number)
            }
            None => self.below.take(call),
        }
    }
}
