ghost use Rattle.std.specs.Prelude.{◌≡◌};
ghost use Rattle.books.specs.Answers.{entry_at, not_in_book, registration_over, is_over, journal_full, entry_of, answer};
ghost use Rattle.books.specs.Shifts.{entry_for};
ghost use Rattle.ledger.specs.Asked.{missing, own};
ghost use Rattle.ledger.specs.Meaning.{state_of};

use crate::table_book::TableBook;
use crate::tables::Tables;
use books::{Call, Entry, row_of};
use terms::Refusal;

// Whether the entry of a cancellation or a transfer is unused or cancelled.
fn is_missing(call: Call, entry: Entry) -> bool
    ensures { result ≡ missing call entry }
{
    matches!(call, Call::Cancel(_) | Call::Transfer(_, _)) && !entry.stands
}

// Whether a transfer goes to the account that the entry is of.
fn is_own(call: Call, entry: Entry) -> bool
    ensures { result ≡ own call entry }
{
    matches!(call, Call::Transfer(_, account) if entry.trade.account == account)
}

impl Tables {
    // Whether a contract's last registration day lies before the date.
    fn is_over(&self, contract: u16) -> bool
        ensures { result ≡ is_over self.now.date.number contract self.now.listings.items }
    {
        row_of(&self.listings, contract).is_some_and(|listing| listing.registration < self.date)
    }
}

impl TableBook<'_> {
    fn is_unlisted(&self, call: Call) -> bool
        ensures { result ≡ not_in_book (state_of self.now) call }
    {
        match call {
            Call::Enter(trade) => self.tables.place(trade.account, trade.contract).is_none(),
            Call::Cancel(_) => false,
            Call::Transfer(_, account) => self.tables.row_of(account).is_none(),
            Call::LimitMember(contract, _) | Call::LimitAgents(contract, _) => {
                self.tables.column_of(contract).is_none()
            }
        }
    }

    fn is_registration_over(&self, call: Call) -> bool
        ensures { result ≡ registration_over (state_of self.now) call }
    {
        matches!(call, Call::Enter(trade) if self.tables.is_over(trade.contract))
    }

    fn is_full(&self, call: Call) -> bool
        ensures { result ≡ journal_full (state_of self.now) call }
    {
        matches!(call, Call::Enter(_)) && usize::from(self.used) >= self.journal.len()
    }

    // The entry of a number; a blank one where there is none.
    pub(crate) fn entry_at(&self, number: u16) -> Entry
        ensures { result ≡ entry_at (state_of self.now) number }
    {
        let entries = &self.journal[..usize::from(self.used)];
        let at = usize::from(number.saturating_sub(1));
        entries.get(at).copied().unwrap_or(Entry::BLANK)
    }

    // The entry that a call is about.
    pub(crate) fn entry_for(&self, call: Call) -> Entry
        ensures { result ≡ entry_for (state_of self.now) call }
    {
        match call {
            Call::Cancel(number) | Call::Transfer(number, _) => self.entry_at(number),
            Call::Enter(_) | Call::LimitMember(_, _) | Call::LimitAgents(_, _) => Entry::BLANK,
        }
    }

    // The number that answers a call that is taken.
    fn number_for(&self, call: Call) -> u16
        ensures { result ≡ entry_of (state_of self.now) call }
    {
        match call {
            Call::Enter(_) => self.used + 1,
            Call::Cancel(number) | Call::Transfer(number, _) => number,
            Call::LimitMember(_, _) | Call::LimitAgents(_, _) => 0,
        }
    }

    // What the call would be answered.
    pub(crate) fn answer_to(&self, call: Call) -> Result<u16, Refusal>
        ensures { result ≡ answer (state_of self.now) call }
    {
        if call.is_out_of_range() {
            return Err(Refusal::OutOfRange);
        }
        if self.is_unlisted(call) {
            return Err(Refusal::NotInBook);
        }
        if self.is_registration_over(call) {
            return Err(Refusal::RegistrationOver);
        }
        if self.is_full(call) {
            return Err(Refusal::JournalFull);
        }
        let entry = self.entry_for(call);
        if is_missing(call, entry) {
            return Err(Refusal::NoStandingEntry);
        }
        if is_own(call, entry) {
            return Err(Refusal::OwnAccount);
        }
        if !self.tables.bears(call.shift(entry)) {
            return Err(Refusal::CellOutOfRange);
        }
        Ok(self.number_for(call))
    }
}
