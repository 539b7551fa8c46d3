ghost use Rattle.std.specs.Prelude.{◌≡◌, ◌<◌, ◌≤◌};
ghost use Rattle.contracts.specs.Rows.{listed};
ghost use Rattle.contracts.specs.Table.{size, option_in};
ghost use Rattle.contracts.specs.Views.{table_of};
ghost use Rattle.positions.specs.Netted.{part_at, starts_in, whole_of};
ghost use Rattle.positions.specs.Tiers.{tier_of, shaped, Sought, Found, PartsOf};

use crate::tier::{Shape, Tier};
use arrayvec::ArrayVec;
use calendar::Maturity;
use contracts::{Contract, ContractTable};

// Whether a contract is open, of the instrument and the maturity, and starts in the month.
fn is_part<P: Drop>(
    table: &ContractTable<P>,
    instrument: u8,
    maturity: Maturity,
    month: u16,
    contract: Contract,
) -> bool
    ensures { result ≡ part_at (table_of table.now) instrument maturity month (listed contract) }
{
    contract.terms.instrument == instrument
        && contract.terms.maturity == maturity
        && table.is_open(contract.terms)
        && contract.terms.first.month() == month
}

// The place of the part that starts in a month. A struct of instrument, maturity and month would be made for this call
// alone and taken apart in it.
fn find_part<P: Drop>(
    table: &ContractTable<P>,
    instrument: u8,
    maturity: Maturity,
    month: u16,
) -> Option<usize>
    ensures { Sought (starts_in (table_of table.now) instrument maturity month) (size (table_of table.now)) result }
{
    table
        .contracts
        .rows
        .iter()
        .rposition(|c| is_part(table, instrument, maturity, month, *c))
}

// Whether the instrument of that number is one of options.
fn is_option<P: Drop>(table: &ContractTable<P>, instrument: u8) -> bool
    ensures { result ≡ option_in (table_of table.now) instrument }
{
    table
        .kind_of(instrument)
        .is_some_and(|kind| kind.is_option())
}

// Whether a contract is open, no option, and of the tier's longer maturity.
fn is_whole<P: Drop>(table: &ContractTable<P>, shape: Shape, contract: Contract) -> bool
    ensures { result ≡ whole_of (table_of table.now) (shaped shape) (listed contract) }
{
    !is_option(table, contract.terms.instrument)
        && (contract.terms.maturity == shape.whole && table.is_open(contract.terms))
}

// The places of a contract's parts, where it is to be netted: all of them are listed and open.
pub(crate) fn parts_of<P: Drop>(
    table: &ContractTable<P>,
    tier: Tier,
    contract: Contract,
) -> Option<ArrayVec<usize, 4>>
    ensures { PartsOf (table_of table.now) (tier_of tier) (listed contract) result }
{
    let shape = tier.shape();
    if !is_whole(table, shape, contract) {
        return None;
    }
    find_parts(
        table,
        shape,
        contract.terms.instrument,
        contract.terms.first.month(),
    )
}

// The places of the parts from a month on.
fn find_parts<P: Drop>(
    table: &ContractTable<P>,
    shape: Shape,
    instrument: u8,
    month: u16,
) -> Option<ArrayVec<usize, 4>>
    requires { month < 1200 }
    ensures { Found (table_of table.now) instrument (shaped shape) month result }
{
    let mut places = ArrayVec::new();
    // A count of parts, each so many months after the one before, and no index.
    for k in 0..shape.count {
        let start = month + shape.months * k;
        places.push(find_part(table, instrument, shape.part, start)?);
    }
    Some(places)
}
