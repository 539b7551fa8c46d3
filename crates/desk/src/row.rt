use books::Cell;

// A cell with its account and contract.
#[derive(Clone, Copy, PartialEq, Eq, Debug)]
pub struct Row {
    pub account: u16,
    pub contract: u16,
    pub cell: Cell,
}
