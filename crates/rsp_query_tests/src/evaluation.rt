// Trees over facts, and the plain answer.
ghost use Rattle.std.specs.Prelude.{◌≡◌, ◌<◌, IfOk, []};
ghost use Rattle.rsp_algebra.specs.Fitting.{IsPlaced};
ghost use Rattle.rsp_algebra.specs.Changing.{MayChange};

use crate::fitting::fits;
use rsp_algebra::{Answer, Place, Translated, Tree, Turn};
use rsp_eval::{Plain, evaluate};
use rsp_expr::Slot;
use rsp_multiset::Changes;
use rsp_steps::Steps;
use rsp_terms::{Fact, Listed, Spot, Term, Text, Triple};
use std::alloc::{AllocError, Global};
use std::marker::Brand;
use std::sync::ledger::{Blank, Ledger};
use std::test::Fail;

fn iri(alloc: Global, text: &str) -> Result<Term, AllocError> {
    Ok(Term::Iri(Text::new(alloc, text)?))
}

fn fact(alloc: Global, subject: &str, predicate: &str, object: &str) -> Result<Fact, AllocError> {
    let subject = iri(alloc, subject)?;
    let predicate = iri(alloc, predicate)?;
    let object = iri(alloc, object)?;
    Ok(Fact {
        spot: Spot::Window(0),
        triple: Triple {
            subject,
            predicate,
            object,
        },
    })
}

// two variables linked by a predicate
fn links(
    alloc: Global,
    subject: usize,
    predicate: &str,
    object: usize,
) -> Result<Tree, AllocError> {
    let predicate = iri(alloc, predicate)?;
    Ok(Tree::Pattern {
        place: Place::Window(0),
        subject: Slot::Variable(subject),
        predicate: Slot::Constant(predicate),
        object: Slot::Variable(object),
    })
}

fn join(alloc: Global, left: Tree, right: Tree) -> Result<Tree, AllocError> {
    let left = Box::new(alloc, left)?;
    let right = Box::new(alloc, right)?;
    Ok(Tree::Join { left, right })
}

fn only(alloc: Global, child: Tree, variable: usize) -> Result<Tree, AllocError> {
    let variables = Vec::from_slice(alloc, &[variable])?;
    let child = Box::new(alloc, child)?;
    Ok(Tree::Project { child, variables })
}

fn chain(alloc: Global) -> Result<Vec<Fact>, AllocError> {
    let mut facts = Vec::new(alloc);
    for (subject, object) in [("a:1", "a:2"), ("a:2", "a:3"), ("a:3", "a:3")] {
        facts.push(fact(alloc, subject, "p:v", object)?)?;
    }
    Ok(facts)
}

// how many rows the tree has; None where it is overfull, or doesn't fit the width
fn rows_of(
    alloc: Global,
    tree: &Tree,
    width: usize,
    facts: &[Fact],
) -> Result<Option<usize>, AllocError> {
    if !fits(tree, width) {
        return Ok(None);
    }
    match evaluate(alloc, tree, width, facts)? {
        None => Ok(None),
        Some(rows) => Ok(Some(rows.len())),
    }
}

fn rows_of_a_variable_twice(alloc: Global) -> Result<Option<usize>, AllocError> {
    let facts = chain(alloc)?;
    let tree = links(alloc, 1, "p:v", 1)?;
    rows_of(alloc, &tree, 2, &facts)
}

// of the chain's triples one has its subject as its object
#[test]
fn a_variable_twice_is_one_term(rt: HostRuntime) -> Result<(), Fail> {
    assert_eq!(rt; rows_of_a_variable_twice(rt.alloc())?, Some(1));
    Ok(())
}

// each subject of the chain, its object unbound, with the triples of that subject
fn subjects_and_links(alloc: Global) -> Result<Tree, AllocError> {
    let subjects = only(alloc, links(alloc, 0, "p:v", 1)?, 0)?;
    join(alloc, subjects, links(alloc, 0, "p:v", 1)?)
}

fn rows_of_subjects_and_links(alloc: Global) -> Result<Option<usize>, AllocError> {
    let facts = chain(alloc)?;
    let tree = subjects_and_links(alloc)?;
    rows_of(alloc, &tree, 2, &facts)
}

// SPARQL 1.1 Query, section 18.3: an unbound variable is compatible with each term
#[test]
fn an_unbound_variable_fits_each_term(rt: HostRuntime) -> Result<(), Fail> {
    assert_eq!(rt; rows_of_subjects_and_links(rt.alloc())?, Some(3));
    Ok(())
}

fn push_both_kinds(alloc: Global, facts: &mut Vec<Fact>, name: &str) -> Result<(), AllocError> {
    facts.push(fact(alloc, name, "p:v", name)?)?;
    facts.push(fact(alloc, name, "p:m", name)?)?;
    Ok(())
}

fn push_number(alloc: Global, facts: &mut Vec<Fact>, number: u32) -> Result<(), AllocError> {
    let name = format!(in alloc; "a:{number}")?;
    push_both_kinds(alloc, facts, &name)
}

// so many facts of each of two predicates
fn two_kinds(alloc: Global, count: u32) -> Result<Vec<Fact>, AllocError> {
    let mut facts = Vec::new(alloc);
    for number in 0..count {
        push_number(alloc, &mut facts, number)?;
    }
    Ok(facts)
}

fn each_with_each(alloc: Global) -> Result<Tree, AllocError> {
    let left = links(alloc, 0, "p:v", 1)?;
    let right = links(alloc, 2, "p:m", 3)?;
    join(alloc, left, right)
}

// of 1,002,001 pairs
fn rows_of_too_many_pairs(alloc: Global) -> Result<Option<usize>, AllocError> {
    let facts = two_kinds(alloc, 1001)?;
    let tree = each_with_each(alloc)?;
    rows_of(alloc, &tree, 4, &facts)
}

#[test]
fn a_join_of_too_many_pairs_is_left(rt: HostRuntime) -> Result<(), Fail> {
    assert_eq!(rt; rows_of_too_many_pairs(rt.alloc())?, None);
    Ok(())
}

fn one_fact(alloc: Global) -> Result<Changes<Fact>, AllocError>
    ensures { IfOk result (λ changes. MayChange [] changes) }
{
    let mut changes = Changes::new(alloc);
    changes.alter(fact(alloc, "a:1", "p:v", "a:2")?, 1)?;
    Ok(changes)
}

// how many solutions there are after one fact
fn solutions_after_one<A: Answer, L: Ledger>(
    alloc: Global,
    query: &Translated,
    blank: Blank,
) -> Result<Option<u64>, AllocError>
    requires query { IsPlaced query.now }
    requires name { blank.name ≡ L.name }
    requires parts { blank.parts ≡ L.parts }
    requires some { 0 < blank.parts }
{
    let Some(mut answer) = A::start(alloc, query)? else {
        return Ok(None);
    };
    let mut steps: Steps<L> = Steps::new(blank);
    match answer.change(&one_fact(alloc)?, &mut steps)? {
        Turn::Overfull => Ok(None),
        Turn::Net(_) => Ok(Some(answer.solutions()?.rows())),
    }
}

// the plain answer of the tree that has one row over any facts
fn solutions_of_unit(alloc: Global) -> Result<Option<u64>, AllocError> {
    let query = Translated {
        tree: Tree::Unit,
        width: 1,
        shown: Listed::new(alloc),
    };
    solutions_after_one::<Plain, Brand>(alloc, &query, Blank::new(1))
}

#[test]
fn plain_is_an_answer(rt: HostRuntime) -> Result<(), Fail> {
    assert_eq!(rt; solutions_of_unit(rt.alloc())?, Some(1));
    Ok(())
}
