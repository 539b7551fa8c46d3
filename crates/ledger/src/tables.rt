ghost use Rattle.std.specs.Prelude.{◌≡◌, ◌*◌, ◌≤◌, true, vec_len};
ghost use Rattle.books.specs.State.{are_apart};
ghost use Rattle.ledger.specs.Places.{CellsWithin};

use books::{Account, Cell, Listing};
use days::Day;

// Accounts, contracts and the cell of each pair, by place: a row to an account, with room for 32 of them. Every cell is
// within its range.
#[derive(Drop)]
pub struct Tables {
    pub date: Day,
    pub accounts: Vec<Account>,
    pub listings: Vec<Listing>,
    pub cells: Vec<Cell>,
    ghost few: { vec_len accounts ≤ 32 },
    ghost narrow: { vec_len listings ≤ 128 },
    ghost sized: { vec_len cells ≡ 32 * vec_len listings },
    ghost apart: { are_apart accounts.items ≡ true },
    ghost within: { CellsWithin accounts.items listings.items cells.items },
}
