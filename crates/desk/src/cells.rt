ghost use Rattle.std.specs.Prelude.{◌≡◌, true, ◌++◌, IfOk, OnOk};
ghost use Rattle.books.specs.State.{Follows, is_account, is_listing, cell_of};
ghost use Rattle.desk.specs.Rows.{row_of, rows_in, rows_of};

use crate::row::Row;
use books::Book;
use std::alloc::{AllocError, Global};
use terms::{Additive, Amount};

// The cells of a book that are not all zero: account by account, and for each contract by contract.
pub fn rows_of<B: Book>(heap: Global, book: &B) -> Result<Vec<Row>, AllocError>
    ensures { IfOk result (λ v. v.items ≡ rows_of (B.Book.state book.now)) }
{
    let _ = book.entries();
    let mut rows = Vec::new(heap);
    for account in book.accounts() {
        add_rows(&mut rows, book, account.number)?;
    }
    Ok(rows)
}

// Adds those of one account.
fn add_rows<B: Book>(rows: &mut Vec<Row>, book: &B, account: u16) -> Result<(), AllocError>
    requires follows { Follows (B.Holdings.holding book.now) (B.Book.state book.now) }
    requires account { is_account account (B.Book.state book.now).accounts ≡ true }
    ensures { OnOk result (rows.new.items ≡ rows.old.items ++ rows_in (B.Book.state book.now) account (B.Book.state book.now).listings) }
{
    for listing in book.listings() {
        if let Some(row) = row_for(book, account, listing.number) {
            rows.push(row)?;
        }
    }
    Ok(())
}

// A cell with its account and contract, unless it is all zero.
fn row_for<B: Book>(book: &B, account: u16, contract: u16) -> Option<Row>
    requires follows { Follows (B.Holdings.holding book.now) (B.Book.state book.now) }
    requires account { is_account account (B.Book.state book.now).accounts ≡ true }
    requires contract { is_listing contract (B.Book.state book.now).listings ≡ true }
    ensures { result ≡ row_of account contract (cell_of (B.Book.state book.now) account contract) }
{
    let cell = book.cell(account, contract).ok()?;
    if cell.opening == Amount::zero() && cell.traded == Amount::zero() {
        return None;
    }
    Some(Row {
        account,
        contract,
        cell,
    })
}
