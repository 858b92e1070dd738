// The rows of a report.
ghost use Rattle.std.specs.Prelude.{◌≡◌, ◌≢◌, List, IfOk, map};
ghost use Rattle.rsp_terms.specs.Same.{term_eq};
ghost use Rattle.rsp_multiset.specs.Weights.{IsChanged, IsSameMultiset, times, weight};
ghost use Rattle.rsp_multiset.specs.Rows.{Cells, row_eq};
ghost use Rattle.rsp_terms.specs.declared.term.Term.{Term};
ghost use Rattle.rsp_report.specs.declared.operator.Operator.TheVariants.{Rstream};
ghost use Rattle.rsp_streams_out.specs.Rows.{in_order};
ghost use Rattle.rsp_streams_out.specs.Streams.{reported};
ghost use Rattle.rsp_engine.specs.Reports.{cells_at};

use rsp_multiset::{Bag, Changes, Row, changes_at};
use rsp_streams_out::{Operator, PrintedRows, printed, turn_owned};
use rsp_terms::{Listed, Term};
use std::alloc::{AllocError, Global};

/// The solutions of a bag, with these places alone, in the byte order of their texts. Fails only where memory is refused.
pub(crate) fn shown_rows(
    alloc: Global,
    solutions: Bag<Term>,
    shown: &[usize],
) -> Result<PrintedRows, AllocError>
    ensures { IfOk result (λ rows. (wanted : _)
        → ((q : _) → weight (row_eq term_eq) solutions q ≡ times (row_eq term_eq) wanted q)
        → rows ≡ in_order (map (cells_at shown.now) wanted)) }
{
    let rows = solutions.into_rows(alloc)?;
    printed(alloc, all_cut(alloc, rows, shown)?)
}

/// The rows that came, for ISTREAM, or went, for DSTREAM, by a change of solutions, with these places alone, in the byte order of
/// their texts. Fails only where memory is refused or a number is out of range.
pub(crate) fn changed_rows(
    alloc: Global,
    operator: Operator,
    net: Changes<Row<Term>>,
    shown: &[usize],
) -> Result<PrintedRows, AllocError>
    requires { operator ≢ Rstream }
    ensures { IfOk result (λ rows. (before after preceding present : List (Cells Term))
        → IsChanged (row_eq term_eq) before net after
        → IsSameMultiset (row_eq term_eq) (map (cells_at shown.now) before) preceding
        → IsSameMultiset (row_eq term_eq) (map (cells_at shown.now) after) present
        → rows ≡ reported operator preceding present) }
{
    let change = changes_at(alloc, net, shown)?;
    let rows = turn_owned(alloc, operator, change, Bag::new(alloc))?;
    Ok(rows)
}

fn all_cut(
    alloc: Global,
    rows: Vec<Row<Term>>,
    shown: &[usize],
) -> Result<Listed<Row<Term>>, AllocError>
    ensures { IfOk result (λ all. all ≡ map (cells_at shown.now) rows.items) }
{
    let mut all = Listed::new(alloc);
    for row in rows {
        all.push(row.into_cells_at(shown)?)?;
    }
    Ok(all)
}
