// The first reason why a query has no translation.
ghost use Rattle.std.specs.Prelude.{◌≡◌, IfOk};
ghost use Rattle.rsp_query.specs.Meanings.{registered};
ghost use Rattle.rsp_shapes.specs.Visible.{name_of};
ghost use Rattle.rsp_translation.specs.Translation as translation;

use crate::Shape;
use rsp_query::Query;
use rsp_shapes::{Unscoped, exists_shape, graph_shape, scope};
use rsp_terms::Text;
use std::alloc::{AllocError, Global};

/// The first GraphShape, else the first ExistsShape, else the first Scope of a query. Fails only where memory is refused.
pub(crate) fn first_fault(alloc: Global, query: &Query) -> Result<Option<Shape>, AllocError>
    ensures { IfOk result (λ fault. fault ≡ translation.first_fault (registered query.now)) }
{
    if let Some(at) = graph_shape(query) {
        return Ok(Some(Shape::GraphShape { at }));
    }
    if let Some(at) = exists_shape(query) {
        return Ok(Some(Shape::ExistsShape { at }));
    }
    scope_fault(alloc, query)
}

fn scope_fault(alloc: Global, query: &Query) -> Result<Option<Shape>, AllocError>
    ensures { IfOk result (λ fault. fault ≡ translation.scope_shape (registered query.now)) }
{
    match scope(query) {
        None => Ok(None),
        Some(unscoped) => Ok(Some(Shape::Scope {
            variable: unscoped_name(alloc, &query.variables, unscoped)?,
        })),
    }
}

fn unscoped_name(alloc: Global, names: &[Text], unscoped: Unscoped) -> Result<Text, AllocError>
    ensures { IfOk result (λ name. name ≡ translation.name_of_unscoped names.now unscoped) }
{
    match unscoped {
        Unscoped::Star => Text::new(alloc, "*"),
        Unscoped::Variable(variable) => variable_name(alloc, names, variable),
    }
}

fn variable_name(alloc: Global, names: &[Text], variable: usize) -> Result<Text, AllocError>
    ensures { IfOk result (λ name. name ≡ name_of names.now variable) }
{
    match names.get(variable) {
        Some(name) => name.share(),
        None => Text::new(alloc, ""),
    }
}
