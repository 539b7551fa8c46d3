ghost use Rattle.std.specs.Prelude.{◌≡◌, IfOk, ◌==◌};
ghost use Rattle.std.specs.List.{find};
ghost use Rattle.books.specs.declared.entry.Scope.TheVariants.{Member, Agents};
ghost use Rattle.opening.specs.declared.rows.Limit.{Limit};
ghost use Rattle.limits.specs.Openings.{most_in, limit_on, limits_by};

use crate::table::{LimitTable, Limits};
use books::{Listing, Scope};
use opening::{Limit, Opening};
use std::alloc::{AllocError, Global};

// The limit of a row on the sums of a scope.
fn most_in(scope: Scope, limit: Limit) -> u32
    ensures { result ≡ most_in scope limit }
{
    match scope {
        Scope::Member => limit.member,
        Scope::Agents => limit.agents,
    }
}

// The limit on a contract, if it has one.
fn limit_on(scope: Scope, limits: &[Limit], contract: u16) -> Option<u32>
    ensures { result ≡ limit_on scope limits.now contract }
{
    row_on(limits, contract).map(|limit| most_in(scope, limit))
}

// The row of a contract, if it has one. A limit has no number of its own, so books' search by number is not for it.
fn row_on(limits: &[Limit], contract: u16) -> Option<Limit>
    ensures { result ≡ find (λ (y : Limit). y.contract == contract) limits.now }
{
    limits
        .iter()
        .copied()
        .find(|limit| limit.contract == contract)
}

impl LimitTable {
    // The limits of a scope, by the places of the contracts.
    fn of(
        heap: Global,
        scope: Scope,
        limits: &[Limit],
        listings: &[Listing],
    ) -> Result<LimitTable, AllocError>
        ensures { IfOk result (λ t. t.limits.items ≡ limits_by scope limits.now listings.now) }
    {
        let limits = listings
            .iter()
            .map(|listing| limit_on(scope, limits, listing.number))
            .collect(heap)?;
        Ok(LimitTable { limits })
    }
}

impl Limits {
    // The limits that an opening sets.
    pub fn of(heap: Global, opening: &Opening) -> Result<Limits, AllocError>
        ensures members { IfOk result (λ l. l.members.limits.items ≡ limits_by Member opening.now.limits.rows.items opening.now.listings.items) }
        ensures agents { IfOk result (λ l. l.agents.limits.items ≡ limits_by Agents opening.now.limits.rows.items opening.now.listings.items) }
    {
        let members = LimitTable::of(heap, Scope::Member, &opening.limits.rows, &opening.listings)?;
        let agents = LimitTable::of(heap, Scope::Agents, &opening.limits.rows, &opening.listings)?;
        Ok(Limits { members, agents })
    }
}
