// Property paths.
ghost use Rattle.std.specs.Prelude.{◌≡◌, IfOk, map};
ghost use Rattle.rsp_query.specs.Meanings.{way_of};

use rsp_expr::Slot;
use std::alloc::{AllocError, Global};

/// A property path (SPARQL 1.1 Query, section 9). A path that is one variable or IRI is a step.
#[derive(Drop)]
pub enum Path {
    Step(Slot),
    /// `^`: subject and object change places.
    Inverse(Box<Path>),
    /// `/`; it has a part.
    Sequence(Vec<Path>),
    /// `|`; it has a part.
    Choice(Vec<Path>),
}

impl Path {
    /// A path that says the same. Fails only where memory is refused.
    #[cycle(sharing)]
    pub fn share(&self, alloc: Global) -> Result<Path, AllocError>
        ensures { IfOk result (λ other. way_of other ≡ way_of self.now) }
    {
        match self {
            Path::Step(slot) => Ok(Path::Step(slot.share()?)),
            Path::Inverse(part) => Ok(Path::Inverse(Box::new(alloc, part.share(alloc)?)?)),
            Path::Sequence(parts) => Ok(Path::Sequence(share_all(parts, alloc)?)),
            Path::Choice(parts) => Ok(Path::Choice(share_all(parts, alloc)?)),
        }
    }
}

#[cycle(sharing)]
fn share_all(parts: &[Path], alloc: Global) -> Result<Vec<Path>, AllocError>
    ensures { IfOk result (λ others. map way_of others.items ≡ map way_of parts.now) }
{
    let mut others = Vec::new(alloc);
    for part in parts {
        others.push(part.share(alloc)?)?;
    }
    Ok(others)
}
