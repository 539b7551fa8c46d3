ghost use Rattle.std.specs.Prelude.{[], ◌∷◌};
ghost use Rattle.ledger.specs.Meaning.{state_of};
ghost use Rattle.ledger.specs.Views.{holding_of};

use crate::table_book::TableBook;
use books::{Account, Book, Call, Cell, Entry, Holdings, Listing, Trade, Whose};
use terms::Refusal;

impl<'a> Holdings for TableBook<'a> {
    ghost holding = { λ s. holding_of s.tables };

    fn accounts(&self) -> &[Account] {
        &self.tables.accounts
    }

    fn listings(&self) -> &[Listing] {
        &self.tables.listings
    }

    fn cell(&self, account: u16, contract: u16) -> Result<Cell, Refusal> {
        self.tables.cell(account, contract)
    }
}

impl<'a> Book for TableBook<'a> {
    ghost state = { λ s. state_of s };

    ghost lent = { λ s. s.journal.ghost_name ∷ [] };

    fn entries(&self) -> u16 {
        self.used
    }

    fn entry(&self, number: u16) -> Option<Entry> {
        if number == 0 || number > self.used {
            return None;
        }
        Some(self.entry_at(number))
    }

    fn held(&self, whose: Whose, contract: u16) -> Result<i64, Refusal> {
        self.tables.held(whose, contract)
    }

    fn may(&self, call: Call) -> Result<u16, Refusal> {
        self.answer_to(call)
    }

    fn take(&mut self, call: Call) -> Result<u16, Refusal> {
        let answer = self.answer_to(call)?;
        let entry = self.entry_for(call);
        match call {
            Call::Enter(trade) => {
                let stands = true;
                self.write(call, self.used, Entry { trade, stands });
            }
            Call::Cancel(number) => {
                let stands = false;
                self.write(call, number - 1, Entry { stands, ..entry });
            }
            Call::Transfer(number, account) => {
                let trade = Trade {
                    account,
                    ..entry.trade
                };
                self.write(call, number - 1, Entry { trade, ..entry });
            }
            Call::LimitMember(_, _) | Call::LimitAgents(_, _) => {}
        }
        Ok(answer)
    }
}
