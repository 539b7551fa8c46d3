ghost use Rattle.std.specs.Prelude.{◌≡◌, [], map, IfOk};
ghost use Rattle.ledger.specs.Meaning.{state_by, state_of};
ghost use Rattle.ledger.specs.Starts.{Opens, untraded};

use crate::ground::Ground;
use crate::table_book::TableBook;
use crate::tables::Tables;
use books::{Cell, Entry};
use opening::Opening;
use std::alloc::{AllocError, Global};
use terms::{Additive, Amount};

impl Ground {
    // The accounts, contracts and amounts of an opening, with nothing traded. All memory is taken here.
    pub fn of(heap: Global, opening: &Opening) -> Result<Ground, AllocError>
        ensures { IfOk result (λ g. Opens opening.now (state_by g.tables [])) }
    {
        let tables = Tables {
            date: opening.date,
            accounts: Vec::from_slice(heap, &opening.accounts.rows)?,
            listings: Vec::from_slice(heap, &opening.listings)?,
            cells: untraded(heap, &opening.amounts)?,
        };
        Ok(Ground { tables })
    }
}

// A cell at each place, with what it opens with.
fn untraded(heap: Global, amounts: &[Option<Amount>]) -> Result<Vec<Cell>, AllocError>
    ensures { IfOk result (λ v. v.items ≡ map untraded amounts.now) }
{
    let cells = amounts.iter().map(|amount| Cell {
        opening: amount.unwrap_or(Amount::zero()),
        traded: Amount::zero(),
    });
    cells.collect(heap)
}

impl<'a> TableBook<'a> {
    // A book with an empty journal, on the list that is lent. What the list held does not count.
    pub fn open(ground: Ground, journal: &'a mut [Entry; 4096]) -> TableBook<'a>
        ensures state { state_of result ≡ state_by ground.tables [] }
        ensures list { result.journal.now ≡ journal.old }
        ensures lender { result.journal.ghost_name ≡ journal.entry.ghost_name }
    {
        let Ground { tables } = ground;
        TableBook {
            journal,
            used: 0,
            tables,
        }
    }
}
