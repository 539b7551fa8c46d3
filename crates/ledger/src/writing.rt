ghost use Rattle.std.specs.Prelude.{◌≡◌, ◌+◌, ◌<◌, ◌≤◌, max, true, is_ok, take, slice_set};
ghost use Rattle.books.specs.Answers.{answer, taken};
ghost use Rattle.ledger.specs.Meaning.{state_of};
ghost use Rattle.ledger.specs.Views.{is_in};

use crate::table_book::TableBook;
use books::{Call, Entry};

impl TableBook<'_> {
    // Writes the entry of a call that is taken, at its place. The journal goes first and the cells last: between the two
    // the cells do not follow it.
    pub(crate) fn write(&mut self, call: Call, at: u16, entry: Entry)
        requires taken { is_ok (answer (state_of self.old) call) ≡ true }
        requires place { at ≤ self.old.used }
        requires room { at < 4096 }
        requires listed { is_in self.old.tables entry.trade.account entry.trade.contract ≡ true }
        requires journal { take (max self.old.used (at + 1)) (slice_set self.old.journal.now at entry) ≡ (taken (state_of self.old) call).journal }
        ensures state { state_of self.new ≡ taken (state_of self.old) call }
        ensures lender { self.new.journal.ghost_name ≡ self.old.journal.ghost_name }
    {
        let shift = call.shift(self.entry_for(call));
        self.journal[usize::from(at)] = entry;
        self.used = self.used.max(at + 1);
        self.tables.apply(shift);
    }
}
