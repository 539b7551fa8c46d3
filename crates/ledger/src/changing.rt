ghost use Rattle.std.specs.Prelude.{◌≡◌, ℕ, true, false};
ghost use Rattle.books.specs.Shifts.{is_at, movement_of, shifts};
ghost use Rattle.ledger.specs.Places.{goes, trades, Shifted};
ghost use Rattle.ledger.specs.Views.{bears_at, bears_by, bears, posted, Kept};

use crate::posting::Posting;
use crate::tables::Tables;
use books::Shift;
use terms::Additive;

impl Tables {
    // Whether an account has the cell, still within its range with the amount more.
    fn bears_at(&self, account: u16, posting: Posting) -> bool
        ensures { result ≡ bears_at self.now account posting.contract posting.amount }
    {
        let cell = self.cell(account, posting.contract);
        cell.is_ok_and(|cell| posting.fits(cell))
    }

    // The same of the account that gets an amount, if there is one.
    fn bears_posting(&self, posting: Posting) -> bool
        ensures { result ≡ bears_by self.now posting.account posting.contract posting.amount }
    {
        posting
            .account
            .is_none_or(|account| self.bears_at(account, posting))
    }

    // Whether each account that the amount goes out of or into bears it.
    pub(crate) fn bears(&self, shift: Shift) -> bool
        ensures { result ≡ bears self.now (movement_of shift) }
    {
        self.bears_posting(Posting::out_of(shift)) && self.bears_posting(Posting::into(shift))
    }

    // Adds an amount to the cell of the account that gets it, where that bears it.
    fn post(&mut self, posting: Posting)
        requires { bears_by self.old posting.account posting.contract posting.amount ≡ true }
        ensures posted { trades self.new.cells.items ≡ posted self.old posting.account posting.contract posting.amount }
        ensures shifted { Shifted self.old.accounts.items self.old.listings.items (goes posting.account posting.contract posting.amount) (trades self.old.cells.items) (trades self.new.cells.items) }
        ensures kept { Kept self.old self.new }
    {
        let Some(account) = posting.account else {
            return;
        };
        if let Some(at) = self.place(account, posting.contract) {
            self.cells[at].traded = self.cells[at].traded.sum(posting.amount);
        }
    }

    // Moves an amount out of one account and into another, where each bears it.
    pub(crate) fn apply(&mut self, shift: Shift)
        requires bears { bears self.old (movement_of shift) ≡ true }
        requires apart { (a : ℕ) → is_at shift.to a ≡ true → is_at shift.from a ≡ false }
        ensures shifted { Shifted self.old.accounts.items self.old.listings.items (shifts (movement_of shift)) (trades self.old.cells.items) (trades self.new.cells.items) }
        ensures kept { Kept self.old self.new }
    {
        self.post(Posting::out_of(shift));
        self.post(Posting::into(shift));
    }
}
