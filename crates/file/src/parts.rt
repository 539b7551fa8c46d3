ghost use Rattle.std.specs.Prelude.{◌≡◌, OnOk};
ghost use Rattle.file.specs.Meaning.{view_of};
ghost use Rattle.file.specs.Parts.{accounts_at, risks_at, calls_at, contract_parts, opening_parts, tariff_parts, last_parts};
ghost use Rattle.file.specs.Tells.{Tells};

use crate::body::read_rows;
use crate::counts::Counts;
use crate::fault::{Fault, Unread};
use crate::lines::Lines;
use crate::reading::Reading;
use books::{Account, Call};
use forms::{ContractRow, InstrumentRow, RiskRow};
use opening::{Limit, Opened};
use std::alloc::Global;
use tariff::{Credit, GroupRange};
use terms::Refusal;

// The head, the instruments and the contracts.
#[tactic(auto, unfolding(crate::specs::Says::line_says))]
pub(crate) fn read_contracts(
    heap: Global,
    counts: Counts,
    lines: &mut Lines<'_>,
) -> Result<Reading, Unread>
    requires { lines.old.number ≡ 12 }
    ensures parts { Tells (λ r. (view_of r, lines.new.rest.now)) result (contract_parts counts lines.old.rest.now) }
    ensures number { OnOk result (lines.new.number ≡ accounts_at counts) }
{
    let mut draft = lines.head(heap)?;
    read_rows::<InstrumentRow>(&mut draft, counts.instruments, lines)?;
    read_rows::<ContractRow>(&mut draft, counts.contracts, lines)?;
    Ok(Reading::of(heap, draft)?)
}

impl Reading {
    // The accounts, the opening positions and the limits.
    #[tactic(auto, unfolding(crate::specs::Says::line_says))]
    pub(crate) fn read_opening(
        &mut self,
        counts: Counts,
        lines: &mut Lines<'_>,
    ) -> Result<(), Unread>
        requires { lines.old.number ≡ accounts_at counts }
        ensures parts { Tells (λ _. (view_of self.new, lines.new.rest.now)) result (opening_parts counts (view_of self.old) lines.old.rest.now) }
        ensures number { OnOk result (lines.new.number ≡ risks_at counts) }
    {
        read_rows::<Account>(self, counts.accounts, lines)?;
        read_rows::<Opened>(self, counts.openings, lines)?;
        read_rows::<Limit>(self, counts.limits, lines)
    }

    // The risk lines, the price ranges and the credits.
    #[tactic(auto, unfolding(crate::specs::Says::line_says))]
    pub(crate) fn read_tariff(
        &mut self,
        counts: Counts,
        lines: &mut Lines<'_>,
    ) -> Result<(), Unread>
        requires { lines.old.number ≡ risks_at counts }
        ensures parts { Tells (λ _. (view_of self.new, lines.new.rest.now)) result (tariff_parts counts (view_of self.old) lines.old.rest.now) }
        ensures number { OnOk result (lines.new.number ≡ calls_at counts) }
    {
        read_rows::<RiskRow>(self, counts.risks, lines)?;
        read_rows::<GroupRange>(self, counts.ranges, lines)?;
        read_rows::<Credit>(self, counts.credits, lines)
    }

    // The calls, and that nothing is left.
    #[tactic(auto, unfolding(crate::specs::Says::line_says))]
    pub(crate) fn read_calls(&mut self, counts: Counts, lines: &mut Lines<'_>) -> Result<(), Unread>
        requires { lines.old.number ≡ calls_at counts }
        ensures { Tells (λ _. view_of self.new) result (last_parts counts (view_of self.old) lines.old.rest.now) }
    {
        read_rows::<Call>(self, counts.calls, lines)?;
        if !lines.rest.is_empty() {
            return Err(Unread::Refused(Fault {
                refusal: Refusal::Form,
                line: lines.number,
            }));
        }
        Ok(())
    }
}
