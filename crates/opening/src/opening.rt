ghost use Rattle.std.specs.Prelude.{◌≡◌, ◌*◌, ◌≤◌, true, None, vec_len};
ghost use Rattle.books.specs.State.{are_apart};
ghost use Rattle.opening.specs.Rows.{opened_in};
ghost use Rattle.opening.specs.Rules.{account_refusal, opening_refusal, limit_refusal, Kept};
ghost use Rattle.opening.specs.Places.{ByPlace, BlankFrom, AllWithin};

use crate::rows::{Limit, MOST_ACCOUNTS, MOST_LIMITS, MOST_ROWS, Opened};
use books::{Account, Listing};
use days::Day;
use terms::{Amount, Rows};

// What a book opens with. Each row meets no refusal beside the rows before it, in the order in which they came.
// Amounts go by places as well: a row of places for each account that may come, with a place for each contract.
#[derive(Drop)]
pub struct Opening {
    pub date: Day,
    pub listings: Vec<Listing>,
    pub accounts: Rows<Account, MOST_ACCOUNTS>,
    pub rows: Rows<Opened, MOST_ROWS>,
    pub limits: Rows<Limit, MOST_LIMITS>,
    // The amount of the row at the place, if there is one.
    pub amounts: Vec<Option<Amount>>,
    ghost listings_few: { vec_len listings ≤ 128 },
    ghost amounts_long: { vec_len amounts ≡ 32 * vec_len listings },
    ghost apart: { are_apart accounts.rows.items ≡ true },
    ghost accounts_kept: { Kept account_refusal accounts.rows.items },
    ghost rows_kept: { Kept (opening_refusal accounts.rows.items listings.items) rows.rows.items },
    ghost limits_kept: { Kept (limit_refusal listings.items) limits.rows.items },
    ghost told: { ByPlace accounts.rows.items listings.items (vec_len listings) amounts.items None (opened_in rows.rows.items) },
    ghost within: { AllWithin accounts.rows.items listings.items (vec_len listings) amounts.items },
    ghost blank: { BlankFrom (vec_len accounts.rows * vec_len listings) amounts.items None },
}
