ghost use Rattle.std.specs.Prelude.{◌≡◌, IfOk};
ghost use Rattle.opening.specs.Views.{listings_of};
ghost use Rattle.tariff.specs.Views.{table_in};

use crate::calls::Calls;
use calendar::Load;
use opening::Opening;
use std::alloc::{AllocError, Global};
use tariff::Draft;

// What has been read of a file, once its contracts are: the opening is over them, on their date.
#[derive(Drop)]
pub struct Reading {
    pub draft: Draft<Load>,
    pub opening: Opening,
    pub calls: Calls,
    ghost listed: { opening.listings.items ≡ listings_of (table_in draft) },
    ghost dated: { opening.date.number ≡ (table_in draft).date },
}

impl Reading {
    ghost use Rattle.file.specs.Meaning.{view_of, draft_view};

    // No accounts, opening positions, limits or calls yet.
    pub(crate) fn of(heap: Global, draft: Draft<Load>) -> Result<Reading, AllocError>
        ensures { IfOk result (λ r. view_of r ≡ draft_view draft) }
    {
        let opening = Opening::on(heap, &draft.contracts)?;
        let calls = Calls::none(heap)?;
        Ok(Reading {
            draft,
            opening,
            calls,
        })
    }
}
