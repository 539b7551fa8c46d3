ghost use Rattle.std.specs.Prelude.{◌≡◌, ◌≤◌, length, take};
ghost use Rattle.ledger.specs.Tied.{AllListed, Tied};

use crate::tables::Tables;
use books::Entry;

// A book that holds every cell. No call takes memory, so its journal is the caller's, lent with room for all entries,
// and marked and moved in place: the first `used` of it are in use.
#[derive(Drop)]
pub struct TableBook<'a> {
    pub journal: &'a mut [Entry; 4096],
    pub used: u16,
    pub tables: Tables,
    ghost long: { length journal.now ≡ 4096 },
    ghost fits: { used ≤ 4096 },
    ghost listed: { AllListed tables.accounts.items tables.listings.items used journal.now },
    ghost tied: { Tied tables.accounts.items tables.listings.items tables.cells.items (take used journal.now) },
}
