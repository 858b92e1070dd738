// Tests and values of single rows.
use rsp_multiset::Row;
use rsp_terms::Domain;
use std::alloc::AllocError;

/// A test of a row by the terms that it shows.
pub trait Condition<D: Domain> {
    ghost use Rattle.std.specs.Prelude.{◌≡◌, Bool, true, IsTrue, IfOk, length};
    ghost use Rattle.rsp_multiset.specs.Rows.{Cells, merge};
    ghost use Rattle.rsp_multiset.specs.Shown.{shown_row, IsKnown};
    ghost use Rattle.rsp_terms.specs.declared.term.Term.{Term};

    ghost test: { Self → Cells Term → Bool };

    /// Whether it is known to hold on every row, so that it needn't be asked. Takes no memory.
    fn always(&self) -> bool
        ensures { IsTrue result → (row : Cells Term) → test self.now row ≡ true };

    /// Whether it holds on the row. Fails only where memory is refused.
    fn holds(&self, row: &Row<D::Value>, domain: &D) -> Result<bool, AllocError>
        requires { IsKnown (D.knows domain.now) row.now }
        ensures { IfOk result (λ holds. holds ≡ test self.now (shown_row (D.shown domain.now) row.now)) };

    /// Whether it holds on the merge of the rows (SPARQL 1.1 Query, section 18.3), which need not be made to
    /// ask. Fails only where memory is refused.
    fn holds_on_merge(
        &self,
        left: &Row<D::Value>,
        right: &Row<D::Value>,
        domain: &D,
    ) -> Result<bool, AllocError>
        requires long { length left.now ≡ length right.now }
        requires left { IsKnown (D.knows domain.now) left.now }
        requires right { IsKnown (D.knows domain.now) right.now }
        ensures { IfOk result (λ holds. holds ≡ test self.now
            (merge (shown_row (D.shown domain.now) left.now) (shown_row (D.shown domain.now) right.now))) };
}

/// A value of a row by the terms that it shows; None on an error.
pub trait Computed<D: Domain> {
    ghost use Rattle.std.specs.Prelude.{◌≡◌, Option, IfOk, IfSome};
    ghost use Rattle.std.specs.Option.{option_map};
    ghost use Rattle.rsp_multiset.specs.Rows.{Cells};
    ghost use Rattle.rsp_multiset.specs.Shown.{shown_row, IsKnown};
    ghost use Rattle.rsp_terms.specs.declared.term.Term.{Term};
    ghost use Rattle.rsp_operators.specs.Laws.{IsShownAlike};

    ghost of: { Self → Cells Term → Option Term };

    /// The row's value; None exactly on an error. Fails only where memory is refused.
    fn value(&self, row: &Row<D::Value>, domain: &mut D) -> Result<Option<D::Value>, AllocError>
        requires { IsKnown (D.knows domain.old) row.now }
        ensures value { IfOk result (λ value. option_map (D.shown domain.new) value
            ≡ of self.now (shown_row (D.shown domain.old) row.now)) }
        ensures knows { IfOk result (λ value. IfSome value (D.knows domain.new)) }
        ensures known { (v : D.Value) → D.knows domain.old v
            → IsShownAlike (D.shown domain.old) (D.knows domain.new) (D.shown domain.new) v };
}
