// The places of GRAPH and WINDOW.
ghost use Rattle.std.specs.Prelude.{◌≡◌, IfOk};
ghost use Rattle.std.specs.List.{position_or_len};
ghost use Rattle.std.specs.Str.{bytes_eq};
ghost use Rattle.rsp_shapes.specs.Shapes.{declared};
ghost use Rattle.rsp_translation.specs.Trees as trees;

use rsp_algebra::Place;
use rsp_query::{Slot, WindowClause};
use rsp_terms::Text;
use std::alloc::AllocError;

/// The place of GRAPH. Fails only where memory is refused.
pub(crate) fn graph_place(name: &Slot) -> Result<Place, AllocError>
    ensures { IfOk result (λ place. place ≡ trees.graph_place name.now) }
{
    match name {
        Slot::Variable(variable) => Ok(Place::AnyNamed(*variable)),
        Slot::Constant(term) => Ok(Place::Named(term.share()?)),
    }
}

/// The place of WINDOW. Fails where there are more windows than memory has room for.
pub(crate) fn window_place(windows: &[WindowClause], name: &Text) -> Result<Place, AllocError>
    ensures { IfOk result (λ place. place ≡ trees.window_place (declared windows.now) name.now) }
{
    match u32::try_from(window_index(windows, name)) {
        Ok(index) => Ok(Place::Window(index)),
        Err(_) => Err(AllocError),
    }
}

// the first window of this name; the number of windows where there is none
fn window_index(windows: &[WindowClause], name: &Text) -> usize
    ensures { result ≡ position_or_len (bytes_eq name.now) (declared windows.now) }
{
    for index in 0..windows.len() {
        if name.as_str() == windows[index].name.as_str() {
            return index;
        }
    }
    windows.len()
}
