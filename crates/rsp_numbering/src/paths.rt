// Paths, which name no variable.
ghost use Rattle.std.specs.Prelude.{◌≡◌, IfOk, map};
ghost use Rattle.rsp_query.specs.Paths.{ways_in};
ghost use Rattle.rsp_query.specs.Meanings.{way_of};
ghost use Rattle.rsp_written.specs.Building as building;
ghost use Rattle.rsp_written.specs.Meanings as written;
ghost use Rattle.rsp_numbering.specs.Triples as numbered;

use rsp_expr::Slot;
use rsp_query::Path;
use rsp_terms::Term;
use std::alloc::{AllocError, Global};

/// The path with slots in place of IRIs. Fails only where memory is refused.
#[cycle(paths)]
pub(crate) fn path_of(alloc: Global, path: &rsp_written::Path) -> Result<Path, AllocError>
    ensures { IfOk result (λ made. way_of made ≡ numbered.path_of (written.way_of path.now)) }
{
    match path {
        rsp_written::Path::Step(name) => {
            Ok(Path::Step(Slot::Constant(Term::Iri(name.share()?))))
        }
        rsp_written::Path::Inverse(part) => {
            Ok(Path::Inverse(Box::new(alloc, path_of(alloc, part)?)?))
        }
        rsp_written::Path::Sequence(parts) => Ok(Path::Sequence(paths_of(alloc, parts)?)),
        rsp_written::Path::Choice(parts) => Ok(Path::Choice(paths_of(alloc, parts)?)),
    }
}

#[cycle(paths)]
fn paths_of(alloc: Global, paths: &[rsp_written::Path]) -> Result<Vec<Path>, AllocError>
    ensures { IfOk result (λ made. map way_of made.items ≡ numbered.paths_of (building.ways_in (map written.way_of paths.now))) }
{
    let mut made = Vec::new(alloc);
    for path in paths {
        made.push(path_of(alloc, path)?)?;
    }
    Ok(made)
}
