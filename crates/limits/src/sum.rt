ghost use Rattle.std.specs.Prelude.{◌≡◌, ◌^◌, ◌≤◌, unsigned_abs};
ghost use Rattle.books.specs.Shifts.{movement_of};
ghost use Rattle.limits.specs.Sums.{belongs, change};

use books::{Account, Shift, Whose, row_of};

fn is_part(accounts: &[Account], whose: Whose, number: Option<u16>) -> bool
    ensures { result ≡ belongs whose number accounts.now }
{
    number
        .and_then(|number| row_of(accounts, number))
        .is_some_and(|account| whose.has(account))
}

// What a shift adds to a sum of its contract.
pub fn change_of(accounts: &[Account], whose: Whose, shift: Shift) -> i64
    ensures value { result ≡ change whose (movement_of shift) accounts.now }
    ensures bound { unsigned_abs result ≤ 2 ^ 62 }
{
    let quantity = shift.amount.quantity;
    let out = is_part(accounts, whose, shift.from);
    let into = is_part(accounts, whose, shift.to);
    match (out, into) {
        (false, true) => quantity,
        (true, false) => -quantity,
        _ => 0,
    }
}
