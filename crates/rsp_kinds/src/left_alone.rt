// Left rows that no right row touches.
ghost use Rattle.std.specs.Prelude.{◌≡◌, IfOk};
ghost use Rattle.rsp_multiset.specs.Weights.{weight};

use rsp_multiset::{Cell, Changes, Row};
use rsp_operators::Binary;
use rsp_steps::Steps;
use rsp_terms::Domain;
use std::alloc::{AllocError, Global};
use std::sync::ledger::Ledger;

/// The left rows, whatever is on the right: what Minus leaves of them where no right row shares a variable with any (SPARQL 1.1
/// Query, section 18.5). It keeps nothing.
#[derive(Drop)]
pub struct LeftAlone {
    width: usize,
}

impl LeftAlone {
    ghost use Rattle.std.specs.Prelude.{◌≡◌};

    /// The operator over rows of this width.
    pub fn new(width: usize) -> LeftAlone
        ensures { result.width ≡ width }
    {
        LeftAlone { width }
    }
}

impl<D: Domain> Binary<D> for LeftAlone {
    ghost use Rattle.std.specs.Prelude.{⊤, []};

    ghost width = { λ operator. operator.width };

    ghost key = { λ operator. [] };

    ghost factor = { λ operator. 0 };

    ghost value = { λ operator lefts rights. lefts };

    ghost stands = { λ operator domain lefts rights. ⊤ };

    ghost kept = { λ operator. [] };

    ghost carried = { λ operator before after lefts rights known stands. stands };

    fn apply<L: Ledger>(
        &mut self,
        alloc: Global,
        left: &Changes<Row<D::Value>>,
        _right: &Changes<Row<D::Value>>,
        _domain: &mut D,
        _steps: &mut Steps<L>,
    ) -> Result<Changes<Row<D::Value>>, AllocError> {
        let _width = self.width;
        copied(alloc, left)
    }
}

fn copied<V: Cell>(alloc: Global, change: &Changes<V>) -> Result<Changes<V>, AllocError>
    ensures { IfOk result (λ net. (q : V) → weight V.eq net q ≡ weight V.eq change.now q) }
{
    let mut net = Changes::new(alloc);
    net.add_changes(change)?;
    Ok(net)
}
