// Facts by numbers.
use rsp_multiset::Changes;
use rsp_terms::{Fact, Spot, Term, Text, Triple};
use rsp_trials::Numbers;
use std::alloc::{AllocError, Global};

/// How many facts there are.
pub(crate) const FACTS: u64 = 54;

const INTEGER: &str = "http://www.w3.org/2001/XMLSchema#integer";

fn iri(alloc: Global, text: &str) -> Result<Term, AllocError> {
    Ok(Term::Iri(Text::new(alloc, text)?))
}

fn integer(alloc: Global, lexical: &str) -> Result<Term, AllocError> {
    Ok(Term::Literal {
        lexical: Text::new(alloc, lexical)?,
        datatype: Text::new(alloc, INTEGER)?,
    })
}

fn subject(alloc: Global, number: u64) -> Result<Term, AllocError> {
    match number % 2 {
        0 => iri(alloc, "i:1"),
        _ => iri(alloc, "i:2"),
    }
}

fn predicate(alloc: Global, number: u64) -> Result<Term, AllocError> {
    match number % 3 {
        0 => iri(alloc, "p:m"),
        1 => iri(alloc, "p:n"),
        _ => iri(alloc, "p:v"),
    }
}

// an item
fn item(alloc: Global, number: u64) -> Result<Term, AllocError> {
    match number % 3 {
        0 => iri(alloc, "i:1"),
        1 => iri(alloc, "i:2"),
        _ => iri(alloc, "i:3"),
    }
}

// a number, or what is none
fn value(alloc: Global, number: u64) -> Result<Term, AllocError> {
    match number % 3 {
        0 => integer(alloc, "1"),
        1 => integer(alloc, "2"),
        _ => iri(alloc, "i:1"),
    }
}

// `p:v` leads to values, and each other predicate to items
fn object(alloc: Global, predicate: u64, number: u64) -> Result<Term, AllocError> {
    if predicate % 3 == 2 {
        return value(alloc, number);
    }
    item(alloc, number)
}

// in the window, or stored without a graph's name or with one
fn spot(alloc: Global, number: u64) -> Result<Spot, AllocError> {
    match number % 3 {
        0 => Ok(Spot::Window(0)),
        1 => Ok(Spot::Default),
        _ => Ok(Spot::Named(iri(alloc, "g:1")?)),
    }
}

/// The fact of this number.
pub(crate) fn fact(alloc: Global, number: u64) -> Result<Fact, AllocError> {
    let spot = spot(alloc, number / 18)?;
    let triple = triple(alloc, number)?;
    Ok(Fact { spot, triple })
}

fn triple(alloc: Global, number: u64) -> Result<Triple, AllocError> {
    let subject = subject(alloc, number)?;
    let predicate = predicate(alloc, number / 2)?;
    let object = object(alloc, number / 2, number / 6)?;
    Ok(Triple {
        subject,
        predicate,
        object,
    })
}

/// One to four facts of which each comes if it isn't there, and else goes.
pub(crate) fn next_changes(
    alloc: Global,
    numbers: &mut Numbers,
    there: &Changes<Fact>,
) -> Result<Changes<Fact>, AllocError> {
    let mut changes = Changes::new(alloc);
    add_next(alloc, &mut changes, numbers, there)?;
    Ok(changes)
}

fn add_next(
    alloc: Global,
    changes: &mut Changes<Fact>,
    numbers: &mut Numbers,
    there: &Changes<Fact>,
) -> Result<(), AllocError> {
    for _ in 0..numbers.below(4) + 1 {
        turn(changes, there, fact(alloc, numbers.below(FACTS))?)?;
    }
    Ok(())
}

// the fact comes or goes, unless it does so already
fn turn(changes: &mut Changes<Fact>, there: &Changes<Fact>, fact: Fact) -> Result<(), AllocError> {
    if !changes.count(&fact).is_zero() {
        return Ok(());
    }
    let by = if there.count(&fact).is_zero() { 1 } else { -1 };
    changes.alter(fact, by)
}

/// So many facts of `p:m` that come in the window, and as many of `p:n` that come to the default graph.
pub(crate) fn many(alloc: Global, count: u64) -> Result<Changes<Fact>, AllocError> {
    let mut changes = Changes::new(alloc);
    add_many(alloc, &mut changes, count)?;
    Ok(changes)
}

fn add_many(alloc: Global, changes: &mut Changes<Fact>, count: u64) -> Result<(), AllocError> {
    for number in 0..count {
        let triple = numbered(alloc, "p:m", number)?;
        changes.alter(in_window(triple), 1)?;
        let triple = numbered(alloc, "p:n", number)?;
        changes.alter(in_default_graph(triple), 1)?;
    }
    Ok(())
}

fn in_window(triple: Triple) -> Fact {
    Fact {
        spot: Spot::Window(0),
        triple,
    }
}

fn in_default_graph(triple: Triple) -> Fact {
    Fact {
        spot: Spot::Default,
        triple,
    }
}

fn numbered(alloc: Global, predicate: &str, number: u64) -> Result<Triple, AllocError> {
    let subject = numbered_item(alloc, number)?;
    let predicate = iri(alloc, predicate)?;
    let object = iri(alloc, "i:1")?;
    Ok(Triple {
        subject,
        predicate,
        object,
    })
}

fn numbered_item(alloc: Global, number: u64) -> Result<Term, AllocError> {
    let name = format!(in alloc; "i:{number}")?;
    iri(alloc, name.as_str())
}
