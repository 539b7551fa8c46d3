ghost use Rattle.std.specs.Prelude.{◌≡◌, ℕ, vec_len};
ghost use Rattle.contracts.specs.Table.{size};
ghost use Rattle.contracts.specs.Views.{table_of};
ghost use Rattle.positions.specs.Net.{placed, net_all};
ghost use Rattle.positions.specs.Netted.{relations_of, relations};
ghost use Rattle.positions.specs.Tiers.{tier_of};

use crate::own::OwnPositions;
use crate::relation::parts_of;
use crate::tier::Tier;
use contracts::ContractTable;

impl OwnPositions {
    // Nets all relations: years, six months, quarters.
    pub(crate) fn net_all<P: Drop>(&mut self, table: &ContractTable<P>)
        requires { vec_len self.old.positions ≡ size (table_of table.now) }
        ensures { (i : ℕ) → placed self.new.positions.items i ≡ net_all (relations (table_of table.now)) (placed self.old.positions.items) i }
    {
        self.net_tier(table, Tier::Years);
        self.net_tier(table, Tier::Seasons);
        self.net_tier(table, Tier::Quarters);
    }

    // Nets the relations of a tier, in the table's order.
    fn net_tier<P: Drop>(&mut self, table: &ContractTable<P>, tier: Tier)
        requires { vec_len self.old.positions ≡ size (table_of table.now) }
        ensures value { (i : ℕ) → placed self.new.positions.items i ≡ net_all (relations_of (table_of table.now) (tier_of tier)) (placed self.old.positions.items) i }
        ensures long { vec_len self.new.positions ≡ vec_len self.old.positions }
    {
        for (place, contract) in table.contracts.rows.iter().enumerate() {
            if let Some(parts) = parts_of(table, tier, *contract) {
                self.net_once(place, &parts);
            }
        }
    }
}
