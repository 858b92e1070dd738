// Whether quads are too many to be stored, counted without memory.
ghost use Rattle.std.specs.Prelude.{◌≡◌, ◌≤◌, ◌+◌, ◌&&◌, ◌||◌, not, length};
ghost use Rattle.std.specs.List.{list_any};
ghost use Rattle.rsp_terms.specs.Same.{fact_eq, spot_eq};
ghost use Rattle.rsp_scope.specs.Faults.{IsStoredFault};
ghost use Rattle.rsp_scope.specs.Putting.{IsUncounted};
ghost use Rattle.rsp_scope.specs.Quads.{fact_of, names, spot_of, stored_with};

use crate::StoredFault;
use rsp_spec::limits::MOST_QUADS;
use rsp_terms::{Fact, Quad, Spot, Term};

/// Why quads aren't stored: where memory was refused, they may still be too many. Takes no memory.
pub(crate) fn counted(fault: StoredFault, facts: &[Fact], quads: &[Quad]) -> StoredFault
    requires { IsUncounted (length (stored_with facts.now quads.now)) fault }
    ensures { IsStoredFault (length (stored_with facts.now quads.now)) result }
{
    match fault {
        StoredFault::OutOfMemory => without_memory(facts, quads),
        StoredFault::StoreFull { quads } => StoredFault::StoreFull { quads },
    }
}

// Each quad is compared with all that are stored and all before it, so this is asked only where memory was refused.
fn without_memory(facts: &[Fact], quads: &[Quad]) -> StoredFault
    ensures { IsStoredFault (length (stored_with facts.now quads.now)) result }
{
    let stored = facts.len() as u64;
    if stored + quads.len() as u64 <= MOST_QUADS {
        return StoredFault::OutOfMemory;
    }
    let quads = stored + new_quads(facts, quads);
    if MOST_QUADS < quads {
        StoredFault::StoreFull { quads }
    } else {
        StoredFault::OutOfMemory
    }
}

// how many quads aren't stored, each counted once
fn new_quads(facts: &[Fact], quads: &[Quad]) -> u64
    ensures value { length facts.now + result ≡ length (stored_with facts.now quads.now) }
    ensures few { result ≤ length quads.now }
{
    let mut new = 0;
    for place in 0..quads.len() {
        if is_new(facts, &quads[..place], &quads[place]) {
            new += 1;
        }
    }
    new
}

// neither stored nor one of those before it
fn is_new(facts: &[Fact], before: &[Quad], quad: &Quad) -> bool
    ensures { result ≡ not (list_any (fact_eq (fact_of quad.now)) (stored_with facts.now before.now)) }
{
    !is_stored(facts, quad) && !is_among(before, quad)
}

fn is_stored(facts: &[Fact], quad: &Quad) -> bool
    ensures { result ≡ list_any (fact_eq (fact_of quad.now)) facts.now }
{
    facts.iter().any(|fact| is_fact(quad, fact))
}

fn is_among(quads: &[Quad], quad: &Quad) -> bool
    ensures { result ≡ names quads.now (fact_of quad.now) }
{
    quads.iter().any(|other| is_same(quad, other))
}

fn is_fact(quad: &Quad, fact: &Fact) -> bool
    ensures { result ≡ fact_eq (fact_of quad.now) fact.now }
{
    is_spot(&quad.graph, &fact.spot) && quad.triple == fact.triple
}

fn is_spot(graph: &Option<Term>, spot: &Spot) -> bool
    ensures { result ≡ spot_eq (spot_of graph.now) spot.now }
{
    match (graph, spot) {
        (None, Spot::Default) => true,
        (Some(name), Spot::Named(other)) => name == other,
        _ => false,
    }
}

fn is_same(quad: &Quad, other: &Quad) -> bool
    ensures { result ≡ fact_eq (fact_of quad.now) (fact_of other.now) }
{
    quad == other
}
