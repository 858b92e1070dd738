// The translation of a query.
ghost use Rattle.std.specs.Prelude.{◌≡◌, IfOk, Some, length};
ghost use Rattle.rsp_query.specs.Queries.{Registered};
ghost use Rattle.rsp_query.specs.Groups.{no_part, part_then, sub};
ghost use Rattle.rsp_query.specs.Meanings.{registered, selection_of};
ghost use Rattle.rsp_query.specs.Walks.{slashes_in};
ghost use Rattle.rsp_algebra.specs.Meanings.{node_of};
ghost use Rattle.rsp_algebra.specs.Fitting.{IsPlaced};
ghost use Rattle.rsp_shapes.specs.Sound.{IsSound};
ghost use Rattle.rsp_translation.specs.Selects as selects;
ghost use Rattle.rsp_translation.specs.Building.{fixed_by};
ghost use Rattle.rsp_translation.specs.Trees as trees;
ghost use Rattle.rsp_translation.specs.Translation as translation;
ghost use Rattle.rsp_translation.specs.Translation.{IsAnswer, tree_of, width_of};
ghost use Rattle.rsp_translation.specs.declared.shape.Shape.TheVariants.{OutOfMemory};

use crate::Shape;
use crate::faults::first_fault;
use crate::groups::select_tree;
use crate::selects::projected;
use crate::setting::Setting;
use crate::slashes::slashes_within;
use crate::sums::sum;
use rsp_algebra::{Place, Translated, Tree};
use rsp_query::{Query, Select};
use rsp_terms::Listed;
use std::alloc::{AllocError, Global};

/// The algebra tree of a query (SPARQL 1.1 Query, section 18.2), with the width of its rows and the places that it shows, or
/// the first reason why it has none: any GraphShape before any ExistsShape before any Scope, wherever they stand.
pub fn translate(alloc: Global, query: &Query) -> Result<Translated, Shape>
    ensures answer { IsAnswer (registered query.now) result }
    ensures causes { (q : Registered) → translation.first_fault q ≡ Some OutOfMemory → ⊥ }
    ensures placed { IsSound (registered query.now) → IfOk result IsPlaced }
{
    if let Some(fault) = first_fault(alloc, query)? {
        return Err(fault);
    }
    Ok(translated(alloc, query)?)
}

// one for each `/` of a query
fn slashes_of_query(select: &Select) -> Result<usize, AllocError>
    ensures { IfOk result (λ number. number ≡ slashes_in (part_then (sub (selection_of select.now)) no_part)) }
{
    slashes_within(select)
}

fn tree_of_query(
    alloc: Global,
    setting: &Setting<'_>,
    place: &Place,
    fresh: usize,
    select: &Select,
) -> Result<Tree, AllocError>
    ensures { IfOk result (λ tree. node_of tree
        ≡ trees.select_node (fixed_by setting.now) place.now fresh (selection_of select.now)) }
{
    select_tree(select, alloc, setting, place, fresh)
}

// of a query, whether it has a fault or not
fn translated(alloc: Global, query: &Query) -> Result<Translated, AllocError>
    ensures tree { IfOk result (λ made. node_of made.tree ≡ tree_of (registered query.now)) }
    ensures width { IfOk result (λ made. made.width ≡ width_of (registered query.now)) }
    ensures shown { IfOk result (λ made. made.shown
        ≡ selects.projected query.now.variables.items (registered query.now).selection) }
{
    let named = query.variables.len();
    let width = sum(named, slashes_of_query(&query.select)?)?;
    let setting = Setting {
        names: &query.variables,
        windows: &query.windows,
        width,
    };
    let shown = projected(alloc, &query.variables, &query.select)?;
    let tree = tree_of_query(alloc, &setting, &Place::Default, named, &query.select)?;
    Ok(Translated {
        tree,
        width,
        shown: Listed::from_vec(shown),
    })
}
