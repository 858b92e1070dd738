// Rows beside their texts.
use crate::cells::compare_cells;
use crate::row_text;
use rsp_multiset::Row;
use rsp_terms::Term;
use std::alloc::{AllocError, Global};
use std::cmp::Ordering;
use std::marker::Model;

// A row beside its text, by which it compares; rows of one text compare by their cells. Contracts see the row.
#[derive(Drop)]
pub(crate) struct Keyed {
    text: Vec<u8>,
    row: Row<Term>,
}

impl Model for Keyed {
    ghost use Rattle.std.specs.Prelude.{◌≡◌};
    ghost use Rattle.rsp_multiset.specs.Rows.{Cells};
    ghost use Rattle.rsp_terms.specs.declared.term.Term.{Term};
    ghost use Rattle.rsp_streams_out.specs.Rows.{row_text};

    ghost Value = { Cells Term };

    ghost view = { λ k. k.row };

    ghost invariant = { λ k. k.text.items ≡ row_text k.row };
}

impl Keyed {
    ghost use Rattle.std.specs.Prelude.{◌≡◌, IfOk};
    ghost use Rattle.rsp_streams_out.specs.Rows.{row_text};

    pub(crate) fn new(alloc: Global, row: Row<Term>) -> Result<Keyed, AllocError>
        ensures { IfOk result (λ keyed. keyed ≡ row) }
    {
        let text = row_text(alloc, &row)?;
        Ok(Keyed { text, row })
    }

    // the row with its text
    pub(crate) fn into_parts(self) -> (Row<Term>, Vec<u8>)
        ensures row { result.0 ≡ self }
        ensures text { result.1.items ≡ row_text self }
    {
        let Keyed { text, row } = self;
        (row, text)
    }
}

impl PartialEq for Keyed {
    ghost use Rattle.std.specs.Ordering.{eq_by_cmp};
    ghost use Rattle.std.specs.Cmp.{eq_by_cmp_equiv, partial_equiv_from_equiv};
    ghost use Rattle.rsp_streams_out.specs.Rows.{row_order};
    ghost use Rattle.rsp_streams_out.specs.RowOrder.{row_order_total};

    ghost eq = { eq_by_cmp row_order };

    ghost laws = { partial_equiv_from_equiv (eq_by_cmp_equiv row_order_total) };

    fn eq(&self, other: &Keyed) -> bool {
        self.cmp(other) == Ordering::Equal
    }
}

impl Eq for Keyed {
    ghost use Rattle.std.specs.Cmp.{eq_by_cmp_equiv};
    ghost use Rattle.rsp_streams_out.specs.RowOrder.{row_order_total};

    ghost laws = { eq_by_cmp_equiv row_order_total };
}

impl PartialOrd for Keyed {
    ghost use Rattle.std.specs.Prelude.{Some, refl};
    ghost use Rattle.std.specs.Cmp.{po};
    ghost use Rattle.rsp_streams_out.specs.Rows.{row_order};
    ghost use Rattle.rsp_streams_out.specs.RowOrder.{row_order_total};

    ghost partial_cmp = { λ a b. Some (row_order a b) };

    ghost laws = { po row_order_total (λ a b. refl) };

    fn partial_cmp(&self, other: &Keyed) -> Option<Ordering> {
        Some(self.cmp(other))
    }
}

impl Ord for Keyed {
    ghost use Rattle.std.specs.Prelude.{refl};
    ghost use Rattle.rsp_streams_out.specs.Rows.{row_order};
    ghost use Rattle.rsp_streams_out.specs.RowOrder.{row_order_total};

    ghost cmp = { row_order };

    ghost total = { row_order_total };

    ghost matches_partial_cmp = { λ _ _. refl };

    ghost matches_eq = { λ _ _. refl };

    fn cmp(&self, other: &Keyed) -> Ordering {
        match self.text.as_slice().cmp(other.text.as_slice()) {
            Ordering::Equal => compare_cells(self.row.cells(), other.row.cells()),
            unequal => unequal,
        }
    }
}
