ghost use Rattle.ledger.specs.Tied.{Untraded};

use crate::tables::Tables;

// What a table book starts from: its cells, with nothing traded yet.
#[derive(Drop)]
pub struct Ground {
    pub tables: Tables,
    ghost untraded: { Untraded tables.cells.items },
}
