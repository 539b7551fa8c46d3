ghost use Rattle.std.specs.Prelude.{◌≡◌, ◌^◌, ◌≤◌, unsigned_abs};
ghost use Rattle.books.specs.Cells.{trades_within};
ghost use Rattle.terms.specs.Amounts.{amount_plus, amount_minus, amount_size};

use books::{Cell, Shift};
use terms::{Additive, Amount, Bounds};

// What an account gets of a contract, if there is one.
#[derive(Clone, Copy, PartialEq, Eq, Debug)]
pub(crate) struct Posting {
    pub account: Option<u16>,
    pub contract: u16,
    pub amount: Amount,
    ghost small: { amount_size amount ≤ 2 ^ 62 },
}

impl Posting {
    // What the account gets that a shift goes out of.
    pub(crate) fn out_of(shift: Shift) -> Posting
        ensures account { result.account ≡ shift.from }
        ensures contract { result.contract ≡ shift.contract }
        ensures amount { result.amount ≡ amount_minus shift.amount }
    {
        Posting {
            account: shift.from,
            contract: shift.contract,
            amount: shift.amount.opposite(),
        }
    }

    // What the account gets that a shift goes into.
    pub(crate) fn into(shift: Shift) -> Posting
        ensures account { result.account ≡ shift.to }
        ensures contract { result.contract ≡ shift.contract }
        ensures amount { result.amount ≡ shift.amount }
    {
        Posting {
            account: shift.to,
            contract: shift.contract,
            amount: shift.amount,
        }
    }

    // Whether a cell is still within its range with the amount more.
    pub(crate) fn fits(self, cell: Cell) -> bool
        requires opening { unsigned_abs cell.opening.quantity ≤ 10000 }
        requires traded { amount_size cell.traded ≤ 100000000000 }
        ensures { result ≡ trades_within cell.opening (amount_plus cell.traded self.amount) }
    {
        let traded = cell.traded.sum(self.amount);
        Bounds::Position.holds(cell.opening.quantity + traded.quantity)
            && Bounds::TradedValue.holds(traded.value)
    }
}
