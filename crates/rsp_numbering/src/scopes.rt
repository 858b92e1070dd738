// The SELECTs that a place stands in.
ghost use Rattle.std.specs.Prelude.{◌≡◌, List, ℕ, IfOk, OnOk, map};
ghost use Rattle.std.specs.List.{list_any};
ghost use Rattle.std.specs.Str.{bytes_eq};
ghost use Rattle.rsp_written.specs.GroupMeanings.{item_of, projection_of};
ghost use Rattle.rsp_numbering.specs.Naming as naming;
ghost use Rattle.rsp_numbering.specs.Seeing.{scope_by, scope_of, scopes_of};
ghost use Rattle.rsp_numbering.specs.Selections.{is_star, items_in};

use crate::Before;
use indexmap::IndexSet;
use rsp_terms::Text;
use rsp_written::{Item, Projection};
use std::alloc::{AllocError, Global};
use std::rc::Rc;

/// A SELECT, by how many begin before it, and the names that it projects: every one, or these.
#[derive(Drop)]
pub struct Scope {
    number: usize,
    every: bool,
    shown: Rc<IndexSet<Text>, Global>,
}

// the SELECT that a name belongs to
fn owner(at: &[Scope], name: &Text) -> usize
    ensures { result ≡ naming.owner (scopes_of at.now) name.now }
{
    match at {
        [] => 0,
        [here] => here.number,
        [here, outer @ ..] => {
            if shares(here, name) {
                owner(outer, name)
            } else {
                here.number
            }
        }
    }
}

fn shares(here: &Scope, name: &Text) -> bool
    ensures { result ≡ (scope_of here.now).shares name.now }
{
    if here.every {
        return true;
    }
    here.shown.as_ref().contains(name)
}

fn shown_name(item: &Item) -> &Text
    ensures { result.now ≡ naming.shown_name (item_of item.now) }
{
    match item {
        Item::Shown(name) => name,
        Item::Computed { name, .. } => name,
    }
}

fn names_of(alloc: Global, items: &[Item]) -> Result<IndexSet<Text>, AllocError>
    ensures { IfOk result (λ shown. (x : List ℕ)
        → list_any (bytes_eq x) shown.keys ≡ naming.is_shown (map item_of items.now) x) }
{
    let mut shown = IndexSet::new(alloc);
    for item in items {
        let name = shown_name(item).share()?;
        shown.insert(name)?;
    }
    Ok(shown)
}

// the names of a SELECT's items, none under `*`
fn shown_names(alloc: Global, projection: &Projection) -> Result<IndexSet<Text>, AllocError>
    ensures { IfOk result (λ shown. (x : List ℕ)
        → list_any (bytes_eq x) shown.keys ≡ naming.is_shown (items_in (projection_of projection.now)) x) }
{
    match projection {
        Projection::Every => Ok(IndexSet::new(alloc)),
        Projection::These(items) => names_of(alloc, items),
    }
}

/// Whether a SELECT projects every name.
pub(crate) fn is_every(projection: &Projection) -> bool
    ensures { result ≡ is_star (projection_of projection.now) }
{
    match projection {
        Projection::Every => true,
        Projection::These(_) => false,
    }
}

/// The number of a name at a place. Fails only where memory is refused.
pub(crate) fn number_of(at: &[Scope], before: &mut Before, name: &Text) -> Result<usize, AllocError>
    ensures number { IfOk result (λ n. n ≡ naming.number before.old (naming.named (scopes_of at.now) name.now)) }
    ensures behind { OnOk result (before.new ≡ naming.behind before.old (naming.named (scopes_of at.now) name.now)) }
{
    before.name(owner(at, name), name)
}

// the scope of a SELECT
fn new_scope(alloc: Global, number: usize, projection: &Projection) -> Result<Scope, AllocError>
    ensures { IfOk result (λ made. scope_of made ≡ scope_by number (naming.projects (projection_of projection.now))) }
{
    let every = is_every(projection);
    let names = shown_names(alloc, projection)?;
    let shown = Rc::new(alloc, names)?;
    Ok(Scope {
        number,
        every,
        shown,
    })
}

fn share(scope: &Scope) -> Result<Scope, AllocError>
    ensures { IfOk result (λ other. scope_of other ≡ scope_of scope.now) }
{
    let shown = scope.shown.clone()?;
    Ok(Scope {
        number: scope.number,
        every: scope.every,
        shown,
    })
}

/// The scopes within a SELECT. Fails only where memory is refused.
pub(crate) fn within(
    alloc: Global,
    number: usize,
    projection: &Projection,
    at: &[Scope],
) -> Result<Vec<Scope>, AllocError>
    ensures { IfOk result (λ scopes. scopes_of scopes.items
        ≡ naming.scope number (projection_of projection.now) (scopes_of at.now)) }
{
    let mut scopes = Vec::new(alloc);
    scopes.push(new_scope(alloc, number, projection)?)?;
    for outer in at {
        scopes.push(share(outer)?)?;
    }
    Ok(scopes)
}
