ghost use Rattle.std.specs.Prelude.{◌≡◌, IfOk};
ghost use Rattle.contracts.specs.Rows.{listed};
ghost use Rattle.contracts.specs.Views.{table_of};
ghost use Rattle.opening.specs.Views.{opening_of, opened_on, listing_of, listings_of};

use crate::opening::Opening;
use crate::rows::MOST_ACCOUNTS;
use books::Listing;
use contracts::{Contract, ContractTable, Kind};
use std::alloc::{AllocError, Global};
use terms::Rows;

impl Opening {
    // An opening over the contracts of a table, with no account, row or limit yet. All room is made here: what is added
    // later needs no memory.
    pub fn on<P: Drop>(heap: Global, table: &ContractTable<P>) -> Result<Opening, AllocError>
        ensures { IfOk result (λ o. opening_of o ≡ opened_on (table_of table.now)) }
    {
        let listings = listings_of(heap, table)?;
        let amounts = vec![in heap; None; MOST_ACCOUNTS * listings.len()]?;
        Ok(Opening {
            date: table.date,
            listings,
            accounts: Rows::new(heap)?,
            rows: Rows::new(heap)?,
            limits: Rows::new(heap)?,
            amounts,
        })
    }
}

// The contracts of a table, each with the type of its instrument.
fn listings_of<P: Drop>(heap: Global, table: &ContractTable<P>) -> Result<Vec<Listing>, AllocError>
    ensures { IfOk result (λ v. v.items ≡ listings_of (table_of table.now)) }
{
    table
        .contracts
        .rows
        .iter()
        .map(|contract| listing_of(table, *contract))
        .collect(heap)
}

// A contract of a table, with the type of its instrument.
fn listing_of<P: Drop>(table: &ContractTable<P>, contract: Contract) -> Listing
    ensures { result ≡ listing_of (table_of table.now).instruments (listed contract) }
{
    let kind = table.kind_of(contract.terms.instrument);
    Listing {
        number: contract.terms.number,
        kind: kind.unwrap_or(Kind::Option),
        registration: contract.terms.registration,
    }
}
