ghost use Rattle.std.specs.Prelude.{◌≡◌};
ghost use Rattle.books.specs.declared.entry.Scope.{Scope};
ghost use Rattle.books.specs.declared.entry.Scope.TheVariants.{Member, Agents};
ghost use Rattle.limits.specs.Layers.{limit_in};

use books::{Call, Scope};

// What a concentration limit sums up, as a type.
pub trait Summing: Copy {
    ghost scope: { Scope };

    fn scope(&self) -> Scope
        ensures { result ≡ scope };
}

// The net positions of all accounts.
#[derive(Clone, Copy, PartialEq, Eq, Debug)]
pub struct OfMember;

impl Summing for OfMember {
    ghost scope = { Member };

    fn scope(&self) -> Scope {
        Scope::Member
    }
}

// The net positions of each agent's accounts.
#[derive(Clone, Copy, PartialEq, Eq, Debug)]
pub struct OfAgents;

impl Summing for OfAgents {
    ghost scope = { Agents };

    fn scope(&self) -> Scope {
        Scope::Agents
    }
}

// A limit that a call sets.
#[derive(Clone, Copy, PartialEq, Eq, Debug)]
pub struct NewLimit {
    pub contract: u16,
    pub most: u32,
}

// The limit that a call sets, if it is one of the scope.
pub fn limit_in(scope: Scope, call: Call) -> Option<NewLimit>
    ensures { result ≡ limit_in scope call }
{
    match (scope, call) {
        (Scope::Member, Call::LimitMember(contract, most))
        | (Scope::Agents, Call::LimitAgents(contract, most)) => Some(NewLimit { contract, most }),
        _ => None,
    }
}
