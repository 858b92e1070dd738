// The trees of property paths.
ghost use Rattle.std.specs.Prelude.{◌≡◌, ◌+◌, IfOk, map, unwrap_or};
ghost use Rattle.std.specs.Option.{option_map};
ghost use Rattle.rsp_expr.specs.declared.slot.Slot.TheVariants.{Variable};
ghost use Rattle.rsp_query.specs.Paths.{slashes, ways_in};
ghost use Rattle.rsp_query.specs.Meanings.{way_of};
ghost use Rattle.rsp_algebra.specs.Nodes as node;
ghost use Rattle.rsp_algebra.specs.Meanings.{node_of};
ghost use Rattle.rsp_translation.specs.Paths as paths;

use crate::folding::{join_all, unite_all};
use crate::slashes::slashes;
use crate::sums::sum;
use rsp_algebra::{Place, Tree, nodes};
use rsp_query::{Path, Slot};
use std::alloc::{AllocError, Global};

/// The tree of a path from subject to object at a place. Its `/` have the variables from `fresh` on, in the order of the text.
/// Fails only where memory is refused.
#[cycle(paths)]
pub(crate) fn path_tree(
    path: &Path,
    alloc: Global,
    place: &Place,
    fresh: usize,
    subject: &Slot,
    object: &Slot,
) -> Result<Tree, AllocError>
    ensures { IfOk result (λ tree. node_of tree ≡ paths.path_node place.now fresh subject.now (way_of path.now) object.now) }
{
    match path {
        Path::Step(predicate) => nodes::pattern(place, subject, predicate, object),
        Path::Inverse(part) => path_tree(part, alloc, place, fresh, object, subject),
        Path::Sequence(parts) => {
            join_all(alloc, steps(parts, alloc, place, fresh, subject, object)?)
        }
        Path::Choice(parts) => {
            unite_all(alloc, choices(parts, alloc, place, fresh, subject, object)?)
        }
    }
}

// one behind the other
#[cycle(paths)]
fn steps(
    parts: &[Path],
    alloc: Global,
    place: &Place,
    fresh: usize,
    subject: &Slot,
    object: &Slot,
) -> Result<Vec<Tree>, AllocError>
    ensures { IfOk result (λ trees. map node_of trees.items
        ≡ paths.steps place.now fresh subject.now (ways_in (map way_of parts.now)) object.now) }
{
    let mut trees = Vec::new(alloc);
    let mut next = fresh;
    let mut before = None;
    for index in 0..parts.len() {
        let variable = behind(&parts[index], next)?;
        trees.push(step(
            &parts[index],
            &parts[index + 1..],
            alloc,
            place,
            next,
            subject,
            before,
            variable,
            object,
        )?)?;
        before = Some(variable);
        next = sum(variable, 1)?;
    }
    Ok(trees)
}

// one part of a `/`, between the variables of the `/` before and behind it; both ends are owned here, and not in the loop
#[cycle(paths)]
fn step(
    part: &Path,
    following: &[Path],
    alloc: Global,
    place: &Place,
    fresh: usize,
    subject: &Slot,
    before: Option<usize>,
    variable: usize,
    object: &Slot,
) -> Result<Tree, AllocError>
    ensures { IfOk result (λ tree. node_of tree
        ≡ paths.path_node place.now fresh (unwrap_or (option_map Variable before) subject.now) (way_of part.now)
        (paths.end_of object.now variable (ways_in (map way_of following.now)))) }
{
    let begin = begin_of(before, subject)?;
    let end = end_of(following, variable, object)?;
    path_tree(part, alloc, place, fresh, &begin, &end)
}

// the variable of the `/` behind a part
fn behind(part: &Path, fresh: usize) -> Result<usize, AllocError>
    ensures { IfOk result (λ variable. variable ≡ fresh + slashes (way_of part.now)) }
{
    sum(fresh, slashes(part)?)
}

// where a part of a `/` begins: at the variable of the `/` before it, or at the begin of the whole
fn begin_of(before: Option<usize>, subject: &Slot) -> Result<Slot, AllocError>
    ensures { IfOk result (λ begin. begin ≡ unwrap_or (option_map Variable before) subject.now) }
{
    match before {
        None => subject.share(),
        Some(variable) => Ok(Slot::Variable(variable)),
    }
}

// where a part of a `/` ends: at the end of the whole, or at the variable of the `/` behind it
fn end_of(following: &[Path], variable: usize, object: &Slot) -> Result<Slot, AllocError>
    ensures { IfOk result (λ end. end ≡ paths.end_of object.now variable (ways_in (map way_of following.now))) }
{
    match following {
        [] => object.share(),
        [_, ..] => Ok(Slot::Variable(variable)),
    }
}

// each from subject to object
#[cycle(paths)]
fn choices(
    parts: &[Path],
    alloc: Global,
    place: &Place,
    fresh: usize,
    subject: &Slot,
    object: &Slot,
) -> Result<Vec<Tree>, AllocError>
    ensures { IfOk result (λ trees. map node_of trees.items
        ≡ paths.choices place.now fresh subject.now (ways_in (map way_of parts.now)) object.now) }
{
    let mut trees = Vec::new(alloc);
    let mut next = fresh;
    for part in parts {
        trees.push(path_tree(part, alloc, place, next, subject, object)?)?;
        next = sum(next, slashes(part)?)?;
    }
    Ok(trees)
}
