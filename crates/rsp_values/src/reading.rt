// What an expression reads.
ghost use Rattle.std.specs.Prelude.{◌≡◌};
ghost use Rattle.std.specs.Option.{option_copied};
ghost use Rattle.rsp_multiset.specs.Shown.{shown_row, IsKnown};
ghost use Rattle.rsp_multiset.specs.Variables.{cell};

use rsp_multiset::Row;
use rsp_terms::{Domain, Term};
use std::marker::Model;

/// What tells the cells of a row of terms, each by its place. So an expression reads cells where they stand, and no row of terms
/// is made for it.
pub trait ReadRow {
    ghost use Rattle.std.specs.Prelude.{◌≡◌};
    ghost use Rattle.std.specs.Option.{option_copied};
    ghost use Rattle.rsp_multiset.specs.Rows.{Cells};
    ghost use Rattle.rsp_multiset.specs.Variables.{cell};
    ghost use Rattle.rsp_terms.specs.declared.term.Term.{Term};

    ghost cells: { Self → Cells Term };

    /// The term at the place of a variable; None where the row has no such place, or leaves it unbound. Takes no memory.
    fn term_at(&self, place: usize) -> Option<&Term>
        ensures { option_copied result ≡ cell (cells self.now) place };
}

/// A row of terms tells its own cells.
impl ReadRow for Row<Term> {
    ghost cells = { λ row. row };

    fn term_at(&self, place: usize) -> Option<&Term> {
        match self.cells().get(place) {
            Some(Some(term)) => Some(term),
            _ => None,
        }
    }
}

/// A row with the domain that shows its cells. Contracts see the row of the terms that it shows.
#[derive(Drop)]
pub struct ShownRow<'a, D: Domain> {
    row: &'a Row<D::Value>,
    domain: &'a D,
}

impl<'a, D: Domain> Model for ShownRow<'a, D> {
    ghost use Rattle.rsp_multiset.specs.Rows.{Cells};
    ghost use Rattle.rsp_multiset.specs.Shown.{shown_row, IsKnown};
    ghost use Rattle.rsp_terms.specs.declared.term.Term.{Term};

    ghost Value = { Cells Term };

    ghost view = { λ r. shown_row (D.shown r.domain.now) r.row.now };

    ghost invariant = { λ r. IsKnown (D.knows r.domain.now) r.row.now };
}

impl<'a, D: Domain> ShownRow<'a, D> {
    ghost use Rattle.std.specs.Prelude.{◌≡◌};
    ghost use Rattle.rsp_multiset.specs.Shown.{shown_row, IsKnown};

    /// The row in this domain, which knows its cells. Takes no memory.
    pub fn new(row: &'a Row<D::Value>, domain: &'a D) -> ShownRow<'a, D>
        requires { IsKnown (D.knows domain.now) row.now }
        ensures { result ≡ shown_row (D.shown domain.now) row.now }
    {
        ShownRow { row, domain }
    }
}

impl<'a, D: Domain> ReadRow for ShownRow<'a, D> {
    ghost cells = { λ row. row };

    fn term_at(&self, place: usize) -> Option<&Term> {
        shown_at(self.row, self.domain, place)
    }
}

/// Two rows of one length with the domain that shows their cells. Contracts see the merge (SPARQL 1.1 Query, section 18.3) of the
/// rows of the terms that they show: at each place the left row's term, or else the right row's.
#[derive(Drop)]
pub struct MergedRows<'a, D: Domain> {
    left: &'a Row<D::Value>,
    right: &'a Row<D::Value>,
    domain: &'a D,
}

impl<'a, D: Domain> Model for MergedRows<'a, D> {
    ghost use Rattle.std.specs.Prelude.{◌≡◌, length};
    ghost use Rattle.rsp_multiset.specs.Rows.{Cells, merge};
    ghost use Rattle.rsp_multiset.specs.Shown.{shown_row, IsKnown};
    ghost use Rattle.rsp_terms.specs.declared.term.Term.{Term};

    ghost Value = { Cells Term };

    ghost view = { λ r. merge (shown_row (D.shown r.domain.now) r.left.now) (shown_row (D.shown r.domain.now) r.right.now) };

    ghost invariant = { λ r. (length r.left.now ≡ length r.right.now)
        × IsKnown (D.knows r.domain.now) r.left.now
        × IsKnown (D.knows r.domain.now) r.right.now };
}

impl<'a, D: Domain> MergedRows<'a, D> {
    ghost use Rattle.std.specs.Prelude.{◌≡◌, length};
    ghost use Rattle.rsp_multiset.specs.Rows.{merge};
    ghost use Rattle.rsp_multiset.specs.Shown.{shown_row, IsKnown};

    /// The rows in this domain, which knows their cells. Takes no memory.
    pub fn new(
        left: &'a Row<D::Value>,
        right: &'a Row<D::Value>,
        domain: &'a D,
    ) -> MergedRows<'a, D>
        requires long { length left.now ≡ length right.now }
        requires left { IsKnown (D.knows domain.now) left.now }
        requires right { IsKnown (D.knows domain.now) right.now }
        ensures { result ≡ merge (shown_row (D.shown domain.now) left.now) (shown_row (D.shown domain.now) right.now) }
    {
        MergedRows {
            left,
            right,
            domain,
        }
    }
}

impl<'a, D: Domain> ReadRow for MergedRows<'a, D> {
    ghost cells = { λ row. row };

    fn term_at(&self, place: usize) -> Option<&Term> {
        match shown_at(self.left, self.domain, place) {
            Some(term) => Some(term),
            None => shown_at(self.right, self.domain, place),
        }
    }
}

// the term that the row's cell at the place shows
fn shown_at<'a, D: Domain>(row: &'a Row<D::Value>, domain: &'a D, place: usize) -> Option<&'a Term>
    requires { IsKnown (D.knows domain.now) row.now }
    ensures { option_copied result ≡ cell (shown_row (D.shown domain.now) row.now) place }
{
    match row.cells().get(place) {
        Some(Some(value)) => Some(domain.show(value)),
        _ => None,
    }
}
