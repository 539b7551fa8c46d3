ghost use Rattle.std.specs.Prelude.{◌≡◌, true};
ghost use Rattle.tariff.specs.Rules.{is_complete};
ghost use Rattle.tariff.specs.Views.{table_in, said_of};

use crate::draft::Draft;

// A tariff: every line of its contract table has its risk line.
#[derive(Drop)]
pub struct Tariff<P> {
    pub draft: Draft<P>,
    ghost complete: { is_complete (table_in draft) (said_of draft).risks ≡ true },
}
