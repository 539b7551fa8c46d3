use days::Day;

// The month of the date, or the one after it.
#[derive(Clone, Copy, PartialEq, Eq, Debug)]
pub enum RestOf {
    ThisMonth,
    NextMonth,
}

// What risk is worked out on: a day of an instrument, the rest of a month of it, or an open contract.
#[derive(Clone, Copy, PartialEq, Eq, Debug)]
pub enum Line {
    Day(u8, Day),
    Rest(u8, RestOf),
    // The contract at a place of the table.
    Own(usize),
}
