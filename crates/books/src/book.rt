ghost use Rattle.std.specs.Prelude.{◌≡◌, ℕ, ◌≤◌, true, List, length, IfOk, unsigned_abs};
ghost use Rattle.books.specs.declared.entry.Call.TheVariants.{Enter, Cancel, Transfer, LimitMember, LimitAgents};
ghost use Rattle.books.specs.State.{State, Holding, Follows, kind_of, cell_within};
ghost use Rattle.books.specs.Answers.{answer, after, shown, entry_shown, held_shown};

use crate::entry::{Account, Call, Cell, Entry, Listing, Trade, Whose};
use terms::Refusal;

// What accounts have of contracts.
pub trait Holdings {
    ghost holding: { Self → Holding };

    // The accounts with their agents, in order.
    fn accounts(&self) -> &[Account]
        ensures { result.now ≡ (holding self.now).accounts };

    // The contracts, in order.
    fn listings(&self) -> &[Listing]
        ensures { result.now ≡ (holding self.now).listings };

    // What an account has of a contract, by their numbers.
    fn cell(&self, account: u16, contract: u16) -> Result<Cell, Refusal>
        ensures value { result ≡ shown (holding self.now) account contract }
        ensures range { IfOk result (λ x. cell_within (kind_of contract (holding self.now).listings) x ≡ true) };
}

// Holdings that also take calls. A call's answer, and the book after it, follow from the opening, the journal and the
// limits; so do the cells. Each function promises it of the cells, as no law may: it holds of a book while its own facts
// do.
pub trait Book: Holdings {
    ghost state: { Self → State };

    // The names under which what was lent is followed.
    ghost lent: { Self → List ℕ };

    // How many entries the journal has.
    fn entries(&self) -> u16
        ensures value { result ≡ length (state self.now).journal }
        ensures follows { Follows (Self.Holdings.holding self.now) (state self.now) };

    // An entry of the journal, by its number.
    fn entry(&self, number: u16) -> Option<Entry>
        ensures value { result ≡ entry_shown (state self.now) number }
        ensures follows { Follows (Self.Holdings.holding self.now) (state self.now) };

    // The sum of the net positions of some accounts in a contract.
    fn held(&self, whose: Whose, contract: u16) -> Result<i64, Refusal>
        ensures value { result ≡ held_shown (state self.now) whose contract }
        ensures bound { IfOk result (λ n. unsigned_abs n ≤ 320000) }
        ensures follows { Follows (Self.Holdings.holding self.now) (state self.now) };

    // What the call would be answered.
    fn may(&self, call: Call) -> Result<u16, Refusal>
        ensures answer { result ≡ answer (state self.now) call }
        ensures follows { Follows (Self.Holdings.holding self.now) (state self.now) };

    // Takes the call, or refuses it and stays as it was.
    fn take(&mut self, call: Call) -> Result<u16, Refusal>
        ensures answer { result ≡ answer (state self.old) call }
        ensures state { state self.new ≡ after (state self.old) call result }
        ensures follows { Follows (Self.Holdings.holding self.new) (state self.new) }
        ensures lent { lent self.new ≡ lent self.old };

    // Puts a trade at the end of the journal.
    final fn enter(&mut self, trade: Trade) -> Result<u16, Refusal>
        ensures answer { result ≡ answer (state self.old) (Enter trade) }
        ensures state { state self.new ≡ after (state self.old) (Enter trade) result }
        ensures follows { Follows (Self.Holdings.holding self.new) (state self.new) }
        ensures lent { lent self.new ≡ lent self.old }
    {
        self.take(Call::Enter(trade))
    }

    // Marks an entry as cancelled.
    final fn cancel(&mut self, number: u16) -> Result<u16, Refusal>
        ensures answer { result ≡ answer (state self.old) (Cancel number) }
        ensures state { state self.new ≡ after (state self.old) (Cancel number) result }
        ensures follows { Follows (Self.Holdings.holding self.new) (state self.new) }
        ensures lent { lent self.new ≡ lent self.old }
    {
        self.take(Call::Cancel(number))
    }

    // Moves an entry whole to another account.
    final fn transfer(&mut self, number: u16, account: u16) -> Result<u16, Refusal>
        ensures answer { result ≡ answer (state self.old) (Transfer number account) }
        ensures state { state self.new ≡ after (state self.old) (Transfer number account) result }
        ensures follows { Follows (Self.Holdings.holding self.new) (state self.new) }
        ensures lent { lent self.new ≡ lent self.old }
    {
        self.take(Call::Transfer(number, account))
    }

    // Sets a contract's limit in the topmost layer on the sum of all accounts, if there is one.
    final fn limit_member(&mut self, contract: u16, limit: u32) -> Result<u16, Refusal>
        ensures answer { result ≡ answer (state self.old) (LimitMember contract limit) }
        ensures state { state self.new ≡ after (state self.old) (LimitMember contract limit) result }
        ensures follows { Follows (Self.Holdings.holding self.new) (state self.new) }
        ensures lent { lent self.new ≡ lent self.old }
    {
        self.take(Call::LimitMember(contract, limit))
    }

    // The same of the topmost layer on each agent's sum.
    final fn limit_agents(&mut self, contract: u16, limit: u32) -> Result<u16, Refusal>
        ensures answer { result ≡ answer (state self.old) (LimitAgents contract limit) }
        ensures state { state self.new ≡ after (state self.old) (LimitAgents contract limit) result }
        ensures follows { Follows (Self.Holdings.holding self.new) (state self.new) }
        ensures lent { lent self.new ≡ lent self.old }
    {
        self.take(Call::LimitAgents(contract, limit))
    }
}
