use crate::calls::Calls;
use calendar::Load;
use opening::Opening;
use tariff::Tariff;

// What a file gives: the tariff with its contract table, the opening, and the calls. That they match is said where they
// are given: as a fact of the type it would be asked of whoever puts them together.
#[derive(Drop)]
pub struct Tables {
    pub tariff: Tariff<Load>,
    pub opening: Opening,
    pub calls: Calls,
}
