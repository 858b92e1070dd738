// Aggregates.
ghost use Rattle.std.specs.Prelude.{◌≡◌, IfOk};
ghost use Rattle.rsp_expr.specs.Meanings.{aggregation_of, maybe_formula};

use crate::{Expression, Kind};
use std::alloc::{AllocError, Global};

/// An aggregate of an argument; COUNT(*) has none.
#[derive(Drop)]
pub struct Aggregate {
    pub kind: Kind,
    /// Whether each term counts once.
    pub distinct: bool,
    pub argument: Option<Expression>,
}

impl Aggregate {
    /// An aggregate of the same kind and formula. Fails only where memory is refused.
    pub fn share(&self, alloc: Global) -> Result<Aggregate, AllocError>
        ensures { IfOk result (λ other. aggregation_of other ≡ aggregation_of self.now) }
    {
        Ok(Aggregate {
            kind: self.kind,
            distinct: self.distinct,
            argument: share_argument(&self.argument, alloc)?,
        })
    }
}

fn share_argument(
    argument: &Option<Expression>,
    alloc: Global,
) -> Result<Option<Expression>, AllocError>
    ensures { IfOk result (λ other. maybe_formula other ≡ maybe_formula argument.now) }
{
    match argument {
        None => Ok(None),
        Some(expression) => Ok(Some(expression.share(alloc)?)),
    }
}
