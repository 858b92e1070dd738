// Scans of facts.
ghost use Rattle.std.specs.Prelude.{◌≡◌};

use rsp_multiset::{Changes, Row};
use rsp_simple_operators::{Graph, Part, Pattern, Scan};
use rsp_terms::{Domain, Fact, Spot, Term, Triple};
use rsp_trials::{Line, is_change, term};
use std::alloc::{AllocError, Global};
use std::test::Fail;

// a fact of the one predicate: a graph, "" for the default one, a subject, an object, and how often the fact comes
type Given = (&'static str, &'static str, &'static str, i64);

const FACTS: [Given; 5] = [
    ("", "a:1", "a:2", 1),
    ("", "a:1", "a:1", -1),
    ("a:1", "a:1", "a:1", 1),
    ("a:1", "a:3", "a:1", 1),
    ("a:2", "a:1", "a:3", 1),
];

fn spot(alloc: Global, graph: &str) -> Result<Spot, AllocError> {
    if graph.is_empty() {
        return Ok(Spot::Default);
    }
    Ok(Spot::Named(term(alloc, graph)?))
}

fn triple(alloc: Global, subject: &str, object: &str) -> Result<Triple, AllocError> {
    let subject = term(alloc, subject)?;
    let predicate = term(alloc, "a:p")?;
    let object = term(alloc, object)?;
    Ok(Triple {
        subject,
        predicate,
        object,
    })
}

/// The fact of the one predicate.
pub(crate) fn fact(
    alloc: Global,
    graph: &str,
    subject: &str,
    object: &str,
) -> Result<Fact, AllocError> {
    let spot = spot(alloc, graph)?;
    let triple = triple(alloc, subject, object)?;
    Ok(Fact { spot, triple })
}

fn add_facts(alloc: Global, facts: &mut Changes<Fact>) -> Result<(), AllocError> {
    for (graph, subject, object, by) in &FACTS {
        facts.alter(fact(alloc, graph, subject, object)?, *by)?;
    }
    Ok(())
}

fn facts(alloc: Global) -> Result<Changes<Fact>, AllocError> {
    let mut facts = Changes::new(alloc);
    add_facts(alloc, &mut facts)?;
    Ok(facts)
}

// the variables of a pattern: of the graphs, or none for the default graph, of the subject and of the object
type Variables = (Option<usize>, usize, usize);

fn graph_of(variable: Option<usize>) -> Graph {
    match variable {
        Some(variable) => Graph::AnyNamed(variable),
        None => Graph::Default,
    }
}

// the scan of the pattern that has the predicate of all facts, for rows of two cells
fn scan_of(alloc: Global, (graph, subject, object): Variables) -> Result<Scan, AllocError> {
    let predicate = Part::Constant(term(alloc, "a:p")?);
    let pattern = Pattern {
        graph: graph_of(graph),
        subject: Part::Variable(subject),
        predicate,
        object: Part::Variable(object),
    };
    Ok(Scan::new(2, pattern))
}

// terms that show themselves, and how many were taken in
#[derive(Drop)]
struct Noting {
    taken: usize,
}

impl Domain for Noting {
    ghost use Rattle.std.specs.Prelude.{⊤};

    type Value = Term;

    ghost knows = { λ domain value. ⊤ };

    ghost shown = { λ domain value. value };

    ghost told_apart = { λ domain x y _ _ same. same };

    fn show<'a>(&'a self, value: &'a Term) -> &'a Term {
        value
    }

    fn keep(&mut self, term: Term) -> Result<Term, AllocError> {
        self.taken = self.taken.wrapping_add(1);
        Ok(term)
    }
}

fn scanned(
    alloc: Global,
    variables: Variables,
    domain: &mut Noting,
) -> Result<Changes<Row<Term>>, AllocError> {
    let facts = facts(alloc)?;
    scanned_of(alloc, variables, &facts, domain)
}

fn scanned_of(
    alloc: Global,
    variables: Variables,
    facts: &Changes<Fact>,
    domain: &mut Noting,
) -> Result<Changes<Row<Term>>, AllocError> {
    let scan = scan_of(alloc, variables)?;
    scan.apply(alloc, facts, domain)
}

// whether these rows are answered, and the domain takes in so many terms
fn answers(
    alloc: Global,
    variables: Variables,
    rows: &[Line],
    terms: usize,
) -> Result<bool, AllocError> {
    let mut domain = Noting { taken: 0 };
    let net = scanned(alloc, variables, &mut domain)?;
    Ok(domain.taken == terms && is_change(alloc, &net, rows)?)
}

const BOTH_BOUND: [Line; 2] = [(&["a:1", "a:2"], 1), (&["a:1", "a:1"], -1)];

const BOUND_ONCE: [Line; 1] = [(&["a:1", ""], -1)];

const GRAPHS: [Line; 2] = [(&["a:1", "a:1"], 1), (&["a:1", "a:3"], 1)];

const ONE: [Line; 1] = [(&["a:1", "a:1"], 1)];

#[test]
fn subject_and_object_are_bound(rt: HostRuntime) -> Result<(), Fail> {
    assert!(rt; answers(rt.alloc(), (None, 0, 1), &BOTH_BOUND, 4)?);
    Ok(())
}

#[test]
fn a_variable_twice_is_one_term(rt: HostRuntime) -> Result<(), Fail> {
    assert!(rt; answers(rt.alloc(), (None, 0, 0), &BOUND_ONCE, 1)?);
    Ok(())
}

#[test]
fn a_graph_is_bound_with_the_triple(rt: HostRuntime) -> Result<(), Fail> {
    assert!(rt; answers(rt.alloc(), (Some(0), 1, 0), &GRAPHS, 4)?);
    Ok(())
}

#[test]
fn a_variable_past_the_width_is_in_no_row(rt: HostRuntime) -> Result<(), Fail> {
    assert!(rt; answers(rt.alloc(), (None, 2, 1), &[], 0)?);
    Ok(())
}

// of three facts in named graphs one matches
#[test]
fn facts_that_match_alone_give_terms(rt: HostRuntime) -> Result<(), Fail> {
    assert!(rt; answers(rt.alloc(), (Some(0), 0, 1), &ONE, 2)?);
    Ok(())
}
