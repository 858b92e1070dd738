// The number of `/` in a path, and in what stands in a group.
ghost use Rattle.std.specs.Prelude.{◌≡◌, IfOk, map};
ghost use Rattle.rsp_query.specs.Groups.{groups_in, parts_in};
ghost use Rattle.rsp_query.specs.Meanings.{part_of, selection_of, way_of};
ghost use Rattle.rsp_query.specs.Paths.{ways_in};
ghost use Rattle.rsp_shapes.specs.Seeing.{branches_of};
ghost use Rattle.rsp_query.specs.Paths as paths;
ghost use Rattle.rsp_translation.specs.Begun as trees;

use crate::sums::sum;
use rsp_query::{Element, Path, Select};
use std::alloc::AllocError;

/// The number of `/` in a path.
#[cycle(slashes)]
pub(crate) fn slashes(path: &Path) -> Result<usize, AllocError>
    ensures { IfOk result (λ number. number ≡ paths.slashes (way_of path.now)) }
{
    match path {
        Path::Step(_) => Ok(0),
        Path::Inverse(part) => slashes(part),
        Path::Sequence(parts) => Ok(slashes_following(parts)?.saturating_sub(1)),
        Path::Choice(parts) => slashes_among(parts),
    }
}

#[cycle(slashes)]
fn slashes_among(parts: &[Path]) -> Result<usize, AllocError>
    ensures { IfOk result (λ number. number ≡ paths.slashes_among (ways_in (map way_of parts.now))) }
{
    let mut number = 0;
    for part in parts {
        number = sum(number, slashes(part)?)?;
    }
    Ok(number)
}

// with a `/` before each part
#[cycle(slashes)]
fn slashes_following(parts: &[Path]) -> Result<usize, AllocError>
    ensures { IfOk result (λ number. number ≡ paths.slashes_following (ways_in (map way_of parts.now))) }
{
    let mut number = 0;
    for part in parts {
        number = sum(sum(number, slashes(part)?)?, 1)?;
    }
    Ok(number)
}

/// The number of `/` in an element.
#[cycle(slashes_in_groups)]
pub(crate) fn slashes_of(element: &Element) -> Result<usize, AllocError>
    ensures { IfOk result (λ number. number ≡ trees.slashes_of (part_of element.now)) }
{
    match element {
        Element::Triple { verb, .. } => slashes(verb),
        Element::Optional(body) => slashes_in(body),
        Element::Minus(body) => slashes_in(body),
        Element::Union(branches) => slashes_in_branches(branches),
        Element::Graph { body, .. } => slashes_in(body),
        Element::Window { body, .. } => slashes_in(body),
        Element::Filter(_) => Ok(0),
        Element::Exists { body, .. } => slashes_in(body),
        Element::Bind { .. } => Ok(0),
        Element::Values { .. } => Ok(0),
        Element::Sub(select) => slashes_within(select),
    }
}

/// The number of `/` in a group.
#[cycle(slashes_in_groups)]
pub(crate) fn slashes_in(body: &[Element]) -> Result<usize, AllocError>
    ensures { IfOk result (λ number. number ≡ trees.slashes_in (parts_in (map part_of body.now))) }
{
    let mut number = 0;
    for element in body {
        number = sum(number, slashes_of(element)?)?;
    }
    Ok(number)
}

#[cycle(slashes_in_groups)]
fn slashes_in_branches(branches: &[Vec<Element>]) -> Result<usize, AllocError>
    ensures { IfOk result (λ number. number ≡ trees.slashes_among (groups_in (branches_of branches.now))) }
{
    let mut number = 0;
    for branch in branches {
        number = sum(number, slashes_in(branch)?)?;
    }
    Ok(number)
}

/// The number of `/` in the group of a SELECT.
#[cycle(slashes_in_groups)]
pub(crate) fn slashes_within(select: &Select) -> Result<usize, AllocError>
    ensures { IfOk result (λ number. number ≡ trees.slashes_within (selection_of select.now)) }
{
    slashes_in(&select.body)
}
