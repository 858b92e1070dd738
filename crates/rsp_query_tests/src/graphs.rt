// The rows of patterns over stored graphs (SPARQL 1.1 Query, section 13.3), worked out by hand.
use crate::fitting::fits;
use crate::nodes::written;
use rsp_algebra::{Place, Tree};
use rsp_eval::evaluate;
use rsp_expr::Slot;
use rsp_terms::{Fact, Spot, Term, Text, Triple};
use std::alloc::{AllocError, Global};
use std::test::Fail;

// a graph's name, `-` for the default graph and `#` for a window; a subject and an object
const FACTS: [(&str, &str, &str); 6] = [
    ("-", "a", "b"),
    ("g", "g", "b"),
    ("g", "a", "c"),
    ("h", "a", "b"),
    ("h", "b", "h"),
    ("#", "g", "c"),
];

// a place: a graph's name, `-` for the default graph, or the variable that stands for each name; and the rows of the pattern
// whose subject is ?0 and whose object is ?1
const PATTERNS: [(&str, &str); 7] = [
    ("-", "a b -"),
    ("g", "g b -|a c -"),
    ("h", "a b -|b h -"),
    ("x", ""),
    ("?2", "g b g|a c g|a b h|b h h"),
    // the name stands in the triple too
    ("?0", "g b -"),
    ("?1", "b h -"),
];

fn iri(alloc: Global, text: &str) -> Result<Term, AllocError> {
    Ok(Term::Iri(Text::new(alloc, text)?))
}

fn spot(alloc: Global, word: &str) -> Result<Spot, AllocError> {
    match word {
        "-" => Ok(Spot::Default),
        "#" => Ok(Spot::Window(0)),
        _ => Ok(Spot::Named(iri(alloc, word)?)),
    }
}

fn triple(alloc: Global, subject: &str, object: &str) -> Result<Triple, AllocError> {
    let subject = iri(alloc, subject)?;
    let predicate = iri(alloc, "p")?;
    let object = iri(alloc, object)?;
    Ok(Triple {
        subject,
        predicate,
        object,
    })
}

fn fact(alloc: Global, graph: &str, subject: &str, object: &str) -> Result<Fact, AllocError> {
    let triple = triple(alloc, subject, object)?;
    let spot = spot(alloc, graph)?;
    Ok(Fact { spot, triple })
}

fn facts(alloc: Global) -> Result<Vec<Fact>, AllocError> {
    let mut facts = Vec::new(alloc);
    for (graph, subject, object) in FACTS {
        facts.push(fact(alloc, graph, subject, object)?)?;
    }
    Ok(facts)
}

fn place(alloc: Global, word: &str) -> Result<Place, AllocError> {
    match word {
        "-" => Ok(Place::Default),
        "?0" => Ok(Place::AnyNamed(0)),
        "?1" => Ok(Place::AnyNamed(1)),
        "?2" => Ok(Place::AnyNamed(2)),
        _ => Ok(Place::Named(iri(alloc, word)?)),
    }
}

fn pattern(alloc: Global, word: &str) -> Result<Tree, AllocError> {
    let place = place(alloc, word)?;
    let predicate = Slot::Constant(iri(alloc, "p")?);
    Ok(Tree::Pattern {
        place,
        subject: Slot::Variable(0),
        predicate,
        object: Slot::Variable(1),
    })
}

fn evaluated(alloc: Global, tree: &Tree, facts: &[Fact]) -> Result<String, Fail> {
    if !fits(tree, 3) {
        return Err("the tree doesn't fit".into());
    }
    let rows = evaluate(alloc, tree, 3, facts)?.ok_or("overfull")?;
    Ok(written(alloc, &rows)?)
}

// the rows of the pattern at a place, written
fn found(alloc: Global, place: &str) -> Result<String, Fail> {
    let facts = facts(alloc)?;
    let tree = pattern(alloc, place)?;
    evaluated(alloc, &tree, &facts)
}

#[test]
fn rows_of_patterns(rt: HostRuntime) -> Result<(), Fail> {
    let alloc = rt.alloc();
    for (place, wanted) in &PATTERNS {
        let found = found(alloc, place)?;
        assert_eq!(rt; found.as_str(), *wanted, "at {place}");
    }
    Ok(())
}
