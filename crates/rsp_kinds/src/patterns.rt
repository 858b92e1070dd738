// Scans of the algebra's patterns.
ghost use Rattle.std.specs.Prelude.{◌≡◌, List, IfOk};
ghost use Rattle.rsp_terms.specs.declared.statement.Fact.{Fact};
ghost use Rattle.rsp_simple_operators.specs.Scanned.{rows_of};
ghost use Rattle.rsp_algebra.specs.Nodes.{pattern};
ghost use Rattle.rsp_algebra.specs.Solutions.{eval};
ghost use Rattle.rsp_kinds.specs.Patterns.{part_of, graph_of};

use rsp_algebra::Place;
use rsp_expr::Slot;
use rsp_simple_operators::{Graph, Part, Pattern, Scan};
use std::alloc::AllocError;

fn part_of(slot: &Slot) -> Result<Part, AllocError>
    ensures { IfOk result (λ part. part ≡ part_of slot.now) }
{
    match slot {
        Slot::Variable(variable) => Ok(Part::Variable(*variable)),
        Slot::Constant(term) => Ok(Part::Constant(term.share()?)),
    }
}

fn parts_of(
    subject: &Slot,
    predicate: &Slot,
    object: &Slot,
) -> Result<(Part, Part, Part), AllocError>
    ensures subject { IfOk result (λ parts. parts.0 ≡ part_of subject.now) }
    ensures predicate { IfOk result (λ parts. parts.1 ≡ part_of predicate.now) }
    ensures object { IfOk result (λ parts. parts.2 ≡ part_of object.now) }
{
    let subject = part_of(subject)?;
    let predicate = part_of(predicate)?;
    Ok((subject, predicate, part_of(object)?))
}

fn graph_of(place: &Place) -> Result<Graph, AllocError>
    ensures { IfOk result (λ graph. graph ≡ graph_of place.now) }
{
    match place {
        Place::Default => Ok(Graph::Default),
        Place::Named(name) => Ok(Graph::Named(name.share()?)),
        Place::AnyNamed(variable) => Ok(Graph::AnyNamed(*variable)),
        Place::Window(index) => Ok(Graph::Window(*index)),
    }
}

/// The scan whose rows are the solutions of the pattern at the place, over whatever facts. Fails only where memory is refused.
pub fn scan_of(
    width: usize,
    place: &Place,
    subject: &Slot,
    predicate: &Slot,
    object: &Slot,
) -> Result<Scan, AllocError>
    ensures width { IfOk result (λ scan. scan.width ≡ width) }
    ensures rows { IfOk result (λ scan. (facts : List Fact) → rows_of scan.width scan.pattern facts
        ≡ eval width (pattern place.now
        (record { subject = subject.now; predicate = predicate.now; object = object.now })) facts) }
{
    let graph = graph_of(place)?;
    let (subject, predicate, object) = parts_of(subject, predicate, object)?;
    let pattern = Pattern {
        graph,
        subject,
        predicate,
        object,
    };
    Ok(Scan::new(width, pattern))
}
