ghost use Rattle.std.specs.Prelude.{◌≡◌, true, map, length};
ghost use Rattle.std.specs.List.{list_all};
ghost use Rattle.terms.specs.Ranges.{holds_in};
ghost use Rattle.terms.specs.declared.bounds.Bounds.TheVariants.{Price};
ghost use Rattle.contracts.specs.Table.{size};
ghost use Rattle.contracts.specs.Views.{table_of};
ghost use Rattle.tariff.specs.Ranges.{prices_hold};
ghost use Rattle.tariff.specs.Rows.{rated, ranged};
ghost use Rattle.tariff.specs.Rules.{Kept, rated_refusal, range_refusal, credit_refusal};

use crate::rows::{Credit, GroupRange, Prices, RiskLine, Settlement};
use contracts::ContractTable;
use terms::Rows;

// A tariff that is still being said: every row keeps the rules beside the rows before it, and rows stand in the order in
// which they were added.
#[derive(Drop)]
pub struct Draft<P> {
    pub contracts: ContractTable<P>,
    pub settlement: Settlement,
    // By the place of the instrument: the contract table is of a crate that knows no prices, so they lie beside it.
    pub spots: Rows<i32, 8>,
    // By the place of the contract, likewise.
    pub prices: Rows<Prices, 128>,
    pub risks: Rows<RiskLine, 256>,
    pub ranges: Rows<GroupRange, 64>,
    pub credits: Rows<Credit, 64>,
    ghost spots_each: { length spots.rows.items ≡ length (table_of contracts).instruments },
    ghost spots_within: { list_all (holds_in Price) spots.rows.items ≡ true },
    ghost prices_each: { length prices.rows.items ≡ size (table_of contracts) },
    ghost prices_within: { list_all prices_hold prices.rows.items ≡ true },
    ghost risks_kept: { Kept (rated_refusal (table_of contracts)) (map (rated contracts.date.number) risks.rows.items) },
    ghost ranges_kept: { Kept range_refusal (map ranged ranges.rows.items) },
    ghost credits_kept: { Kept credit_refusal credits.rows.items },
}
