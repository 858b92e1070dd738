// What a stream operator reports.
ghost use Rattle.std.specs.Prelude.{◌≡◌, List, IfOk};
ghost use Rattle.rsp_multiset.specs.Rows.{Cells, row_eq};
ghost use Rattle.rsp_multiset.specs.Weights.{Holds, IsSameMultiset, times, weight};
ghost use Rattle.rsp_terms.specs.declared.term.Term.{Term};
ghost use Rattle.rsp_terms.specs.Same.{term_eq};
ghost use Rattle.rsp_streams_out.specs.Rows.{in_order};
ghost use Rattle.rsp_streams_out.specs.Streams.{reported};
ghost use Rattle.rsp_streams_out.specs.Turning.{times_reported, StandsFor};

use crate::listing::rows_of;
use crate::{PrintedRows, printed};
use rsp_multiset::{Bag, Changes, Row, incoming_rows, negative, outgoing_rows, positive};
use rsp_report::Operator;
use rsp_terms::{Listed, Term};
use std::alloc::{AllocError, Global};

/// The rows that the operator reports, in the byte order of their texts. RSTREAM reads `solutions` alone, which are those of
/// now; ISTREAM and DSTREAM read `change` alone, by which the solutions of now differ from those of the preceding report.
/// Fails only where memory is refused or a number is out of range.
pub fn turn(
    alloc: Global,
    operator: Operator,
    change: &Changes<Row<Term>>,
    solutions: &Bag<Term>,
) -> Result<Listed<Row<Term>>, AllocError>
    ensures rows { IfOk result (λ rows. (preceding present : List (Cells Term))
        → StandsFor operator change.now solutions.now preceding present → rows ≡ reported operator preceding present) }
    ensures counts { IfOk result (λ rows. (preceding present : List (Cells Term))
        → StandsFor operator change.now solutions.now preceding present
        → (q : Cells Term) → times (row_eq term_eq) rows q ≡ times_reported operator preceding present q) }
{
    Ok(turn_printed(alloc, operator, change, solutions)?.into_rows())
}

/// The same rows with their lines.
pub fn turn_printed(
    alloc: Global,
    operator: Operator,
    change: &Changes<Row<Term>>,
    solutions: &Bag<Term>,
) -> Result<PrintedRows, AllocError>
    ensures rows { IfOk result (λ rows. (preceding present : List (Cells Term))
        → StandsFor operator change.now solutions.now preceding present → rows ≡ reported operator preceding present) }
    ensures counts { IfOk result (λ rows. (preceding present : List (Cells Term))
        → StandsFor operator change.now solutions.now preceding present
        → (q : Cells Term) → times (row_eq term_eq) rows q ≡ times_reported operator preceding present q) }
{
    match operator {
        Operator::Rstream => in_order_of(alloc, solutions),
        Operator::Istream => in_order_of(alloc, &positive(alloc, change)?),
        Operator::Dstream => in_order_of(alloc, &negative(alloc, change)?),
    }
}

/// The same of a change and of solutions that are given away: their rows are moved, and only further copies of a row are shared.
pub fn turn_owned(
    alloc: Global,
    operator: Operator,
    change: Changes<Row<Term>>,
    solutions: Bag<Term>,
) -> Result<PrintedRows, AllocError>
    ensures rows { IfOk result (λ rows. (preceding present : List (Cells Term))
        → StandsFor operator change solutions preceding present → rows ≡ reported operator preceding present) }
    ensures counts { IfOk result (λ rows. (preceding present : List (Cells Term))
        → StandsFor operator change solutions preceding present
        → (q : Cells Term) → times (row_eq term_eq) rows q ≡ times_reported operator preceding present q) }
{
    match operator {
        Operator::Rstream => in_their_order(alloc, solutions.into_rows(alloc)?),
        Operator::Istream => in_their_order(alloc, incoming_rows(alloc, change)?),
        Operator::Dstream => in_their_order(alloc, outgoing_rows(alloc, change)?),
    }
}

// the rows of a bag, in order
fn in_order_of(alloc: Global, bag: &Bag<Term>) -> Result<PrintedRows, AllocError>
    ensures rows { IfOk result (λ rows. (wanted : List (Cells Term))
        → Holds (row_eq term_eq) bag.now wanted → rows ≡ in_order wanted) }
    ensures counts { IfOk result (λ rows. (q : Cells Term) → times (row_eq term_eq) rows q ≡ weight (row_eq term_eq) bag.now q) }
{
    printed(alloc, rows_of(alloc, bag)?)
}

// the rows, in order
fn in_their_order(alloc: Global, rows: Vec<Row<Term>>) -> Result<PrintedRows, AllocError>
    ensures rows { IfOk result (λ out. (wanted : List (Cells Term))
        → IsSameMultiset (row_eq term_eq) rows.items wanted → out ≡ in_order wanted) }
    ensures counts { IfOk result (λ out. (q : Cells Term)
        → times (row_eq term_eq) out q ≡ times (row_eq term_eq) rows.items q) }
{
    printed(alloc, Listed::from_vec(rows))
}
