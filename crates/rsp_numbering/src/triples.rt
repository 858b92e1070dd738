// Triples with numbers in place of names.
ghost use Rattle.std.specs.Prelude.{◌≡◌, ◌++◌, ◌∷◌, [], IfOk, OnOk, map};
ghost use Rattle.rsp_query.specs.Groups.{triple};
ghost use Rattle.rsp_query.specs.Meanings.{part_of, way_of};
ghost use Rattle.rsp_written.specs.Building.{nodes_in};
ghost use Rattle.rsp_written.specs.Meanings as written;
ghost use Rattle.rsp_numbering.specs.Naming as naming;
ghost use Rattle.rsp_numbering.specs.Seeing.{scopes_of};
ghost use Rattle.rsp_numbering.specs.TripleSteps as numbered;

use crate::Before;
use crate::paths::path_of;
use crate::scopes::{Scope, number_of};
use rsp_expr::Slot;
use rsp_query::{Element, Path};
use rsp_terms::Term;
use rsp_written::{Node, Property, Subject, Verb};
use std::alloc::{AllocError, Global};

fn verb_of(
    alloc: Global,
    at: &[Scope],
    before: &mut Before,
    verb: &Verb,
) -> Result<Path, AllocError>
    ensures way { IfOk result (λ path. way_of path ≡ numbered.verb_of (scopes_of at.now) before.old (written.verb_of verb.now)) }
    ensures behind { OnOk result (before.new ≡ numbered.behind_verb (scopes_of at.now) before.old (written.verb_of verb.now)) }
{
    match verb {
        Verb::Named(name) => Ok(Path::Step(Slot::Variable(number_of(at, before, name)?))),
        Verb::Along(path) => path_of(alloc, path),
    }
}

fn slot_of(at: &[Scope], before: &mut Before, node: &Node) -> Result<Slot, AllocError>
    ensures slot { IfOk result (λ slot. slot ≡ numbered.slot_of (scopes_of at.now) before.old (written.node_of node.now)) }
    ensures behind { OnOk result (before.new ≡ numbered.behind_slot (scopes_of at.now) before.old (written.node_of node.now)) }
{
    match node {
        Node::Variable(name) => Ok(Slot::Variable(number_of(at, before, name)?)),
        Node::Iri(name) => Ok(Slot::Constant(Term::Iri(name.share()?))),
        Node::Constant(term) => Ok(Slot::Constant(term.share()?)),
        Node::Label(label) => Ok(Slot::Variable(before.label(label)?)),
        Node::Blank => Ok(Slot::Variable(before.bracket()?)),
        Node::Described(_) => Ok(Slot::Variable(before.bracket()?)),
    }
}

fn put_triple(
    alloc: Global,
    parts: &mut Vec<Element>,
    subject: &Slot,
    verb: &Path,
    object: &Slot,
) -> Result<(), AllocError>
    ensures { OnOk result (map part_of parts.new.items
        ≡ map part_of parts.old.items ++ (triple subject.now (way_of verb.now) object.now ∷ [])) }
{
    let subject = subject.share()?;
    let verb = verb.share(alloc)?;
    let object = object.share()?;
    parts.push(Element::Triple {
        subject,
        verb,
        object,
    })?;
    Ok(())
}

// what stands in a node's brackets
#[cycle(triples)]
fn put_inner(
    alloc: Global,
    at: &[Scope],
    before: &mut Before,
    node: &Node,
    slot: &Slot,
    parts: &mut Vec<Element>,
) -> Result<(), AllocError>
    ensures parts { OnOk result (map part_of parts.new.items
        ≡ numbered.with_inner (scopes_of at.now) before.old (map part_of parts.old.items) slot.now (written.node_of node.now)) }
    ensures behind { OnOk result (before.new ≡ numbered.behind_inner (scopes_of at.now) before.old (written.node_of node.now)) }
{
    match node {
        Node::Described(properties) => {
            put_properties(alloc, at, before, properties, slot, parts)
        }
        _ => Ok(()),
    }
}

#[cycle(triples)]
fn put_objects(
    alloc: Global,
    at: &[Scope],
    before: &mut Before,
    nodes: &[Node],
    subject: &Slot,
    verb: &Path,
    parts: &mut Vec<Element>,
) -> Result<(), AllocError>
    ensures parts { OnOk result (map part_of parts.new.items
        ≡ numbered.with_objects (scopes_of at.now) before.old (map part_of parts.old.items) subject.now (way_of verb.now)
        (nodes_in (map written.node_of nodes.now))) }
    ensures behind { OnOk result (before.new
        ≡ numbered.behind_nodes (scopes_of at.now) before.old (nodes_in (map written.node_of nodes.now))) }
{
    for node in nodes {
        let slot = slot_of(at, before, node)?;
        put_triple(alloc, parts, subject, verb, &slot)?;
        put_inner(alloc, at, before, node, &slot, parts)?;
    }
    Ok(())
}

#[cycle(triples)]
fn put_properties(
    alloc: Global,
    at: &[Scope],
    before: &mut Before,
    properties: &[Property],
    subject: &Slot,
    parts: &mut Vec<Element>,
) -> Result<(), AllocError>
    ensures parts { OnOk result (map part_of parts.new.items
        ≡ numbered.with_properties (scopes_of at.now) before.old (map part_of parts.old.items) subject.now
        (written.properties_of properties.now)) }
    ensures behind { OnOk result (before.new
        ≡ numbered.behind_properties (scopes_of at.now) before.old (written.properties_of properties.now)) }
{
    for property in properties {
        let verb = verb_of(alloc, at, before, &property.verb)?;
        put_objects(alloc, at, before, &property.objects, subject, &verb, parts)?;
    }
    Ok(())
}

/// Puts the triples of a subject behind the parts that are there: those in its brackets come first. Fails only where memory
/// is refused.
pub(crate) fn put_triples(
    alloc: Global,
    at: &[Scope],
    before: &mut Before,
    subject: &Subject,
    parts: &mut Vec<Element>,
) -> Result<(), AllocError>
    ensures parts { OnOk result (map part_of parts.new.items
        ≡ numbered.with_triples (scopes_of at.now) before.old (map part_of parts.old.items) (written.subject_of subject.now).0
        (written.subject_of subject.now).1) }
    ensures behind { OnOk result (before.new
        ≡ numbered.behind_triples (scopes_of at.now) before.old (written.subject_of subject.now).0
        (written.subject_of subject.now).1) }
{
    let slot = slot_of(at, before, &subject.node)?;
    put_inner(alloc, at, before, &subject.node, &slot, parts)?;
    put_properties(alloc, at, before, &subject.properties, &slot, parts)
}
