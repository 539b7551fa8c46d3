ghost use Rattle.std.specs.Prelude.{◌≡◌, length, is_ok, Some, None, IfOk, IfErr, if◌then◌else◌, nat_le};
ghost use Rattle.terms.specs.declared.refusal.Refusal.TheVariants.{TooLong};
ghost use Rattle.contracts.specs.Rules.{answer_by};
ghost use Rattle.contracts.specs.Seen.{seen};
ghost use Rattle.tariff.specs.Rows.{ranged};
ghost use Rattle.tariff.specs.Rules.{named, risk_refusal, range_refusal, credit_refusal};
ghost use Rattle.tariff.specs.Views.{table_in, said_of, plus_risk, plus_range, plus_credit};

use crate::draft::Draft;
use crate::rows::{Credit, GroupRange, LineName, Risk, RiskLine};
use contracts::Line;
use terms::Refusal;

// Each says that the contracts are as they were, since no field can compare before and after.
impl<P: Drop> Draft<P> {
    // Adds the risk of a line at the end, or refuses it and leaves all as it was.
    pub fn add_risk(&mut self, name: LineName, risk: Risk) -> Result<(), Refusal>
        ensures answer { result ≡ answer_by (risk_refusal (table_in self.old) (said_of self.old).risks name risk) }
        ensures said { said_of self.new ≡ (if is_ok result then plus_risk (said_of self.old) (record { line = named (table_in self.old) name; risk = risk }) else said_of self.old) }
        ensures contracts { self.new.contracts ≡ self.old.contracts }
    {
        let line = self.line_to_rate(name, risk)?;
        self.risks.push(RiskLine { line, risk })
    }

    // The line that a name means, where its risk may be added if there is room.
    fn line_to_rate(&self, name: LineName, risk: Risk) -> Result<Line, Refusal>
        ensures line { IfOk result (λ l. seen (table_in self.now).date l ≡ named (table_in self.now) name) }
        ensures room { IfOk result (λ _. risk_refusal (table_in self.now) (said_of self.now).risks name risk ≡ (if nat_le 256 (length (said_of self.now).risks) then Some TooLong else None)) }
        ensures refused { IfErr result (λ e. risk_refusal (table_in self.now) (said_of self.now).risks name risk ≡ Some e) }
    {
        if !name.holds() || !risk.holds() {
            return Err(Refusal::OutOfRange);
        }
        let line = self.line_of(name).ok_or(Refusal::UnknownReference)?;
        if self.risk_of(line).is_some() {
            return Err(Refusal::RepeatedKey);
        }
        Ok(line)
    }

    // Adds the price range of a group at the end, or refuses it and leaves all as it was.
    pub fn add_range(&mut self, range: GroupRange) -> Result<(), Refusal>
        ensures answer { result ≡ answer_by (range_refusal (said_of self.old).ranges (ranged range)) }
        ensures said { said_of self.new ≡ (if is_ok result then plus_range (said_of self.old) (ranged range) else said_of self.old) }
        ensures contracts { self.new.contracts ≡ self.old.contracts }
    {
        if !range.holds() {
            return Err(Refusal::OutOfRange);
        }
        if self.range_of(range.group).is_some() {
            return Err(Refusal::RepeatedKey);
        }
        self.ranges.push(range)
    }

    // Adds the credit between two groups at the end, or refuses it and leaves all as it was.
    pub fn add_credit(&mut self, credit: Credit) -> Result<(), Refusal>
        ensures answer { result ≡ answer_by (credit_refusal (said_of self.old).credits credit) }
        ensures said { said_of self.new ≡ (if is_ok result then plus_credit (said_of self.old) credit else said_of self.old) }
        ensures contracts { self.new.contracts ≡ self.old.contracts }
    {
        if !credit.holds() || credit.percent > self.percent_left() {
            return Err(Refusal::OutOfRange);
        }
        if credit.first == credit.second || self.is_paired(credit) {
            return Err(Refusal::RepeatedKey);
        }
        self.credits.push(credit)
    }
}
