ghost use Rattle.std.specs.Prelude.{◌≡◌, false, map, IfOk, if◌then◌else◌, Ok, Err};
ghost use Rattle.std.specs.List.{list_all};
ghost use Rattle.terms.specs.Told.{Told};
ghost use Rattle.terms.specs.declared.refusal.Refusal.TheVariants.{MissingRiskLine};
ghost use Rattle.contracts.specs.Seen.{seen};
ghost use Rattle.contracts.specs.Views.{empty_table};
ghost use Rattle.tariff.specs.Rules.{has_risk, is_complete, Given};
ghost use Rattle.tariff.specs.Views.{table_in, said_of, draft_of, no_rows};

use crate::draft::Draft;
use crate::rows::Settlement;
use crate::tariff::Tariff;
use contracts::Line;
use std::alloc::{AllocError, Global};
use terms::{Failure, Refusal};

impl<P: Drop> Draft<P> {
    // The tariff that was said, where no line of the contract table lacks its risk line.
    pub fn complete(self, heap: Global) -> Result<Tariff<P>, Failure>
        ensures answer { Told (λ f. f.draft) result (if is_complete (table_in self) (said_of self).risks then Ok self else Err MissingRiskLine) }
        ensures law { IfOk result (λ f. Given (table_in f.draft) (said_of f.draft)) }
    {
        let lines = self.contracts.lines(heap)?;
        if !self.rates_all(&lines) {
            return Err(Failure::Refused(Refusal::MissingRiskLine));
        }
        Ok(Tariff { draft: self })
    }

    // Whether each of some lines has its risk line.
    fn rates_all(&self, lines: &[Line]) -> bool
        ensures { result ≡ list_all (has_risk (said_of self.now).risks) (map (seen (table_in self.now).date) lines.now) }
    {
        lines.iter().all(|line| self.risk_of(*line).is_some())
    }
}

impl<P: Drop> Tariff<P> {
    // Provisional, on the zero contract table, which has no lines.
    pub fn zero(heap: Global) -> Result<Tariff<P>, AllocError>
        ensures { IfOk result (λ f. draft_of f.draft ≡ (empty_table 0 1, no_rows false)) }
    {
        let draft = Draft::zero(heap)?;
        Ok(Tariff { draft })
    }

    // Whether its prices are final. Every tariff keeps the rules.
    pub fn is_final(&self) -> bool
        ensures value { result ≡ (said_of self.now.draft).settled }
        ensures law { Given (table_in self.now.draft) (said_of self.now.draft) }
    {
        self.draft.settlement == Settlement::Final
    }
}
