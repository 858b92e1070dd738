// The union of two inputs.
ghost use Rattle.std.specs.Prelude.{◌≡◌, ◌+ℤ◌, IfOk};
ghost use Rattle.rsp_multiset.specs.Weights.{weight};

use rsp_multiset::{Cell, Changes, Row};
use rsp_operators::Binary;
use rsp_steps::Steps;
use rsp_terms::Domain;
use std::alloc::{AllocError, Global};
use std::sync::ledger::Ledger;

/// The union of two inputs (SPARQL 1.1 Query, section 18.5): the rows of both, each as often as in both together. It
/// keeps nothing, and takes no step.
#[derive(Drop)]
pub struct Joining {
    width: usize,
}

impl Joining {
    ghost use Rattle.std.specs.Prelude.{◌≡◌};

    /// The operator over rows of this width.
    pub fn new(width: usize) -> Joining
        ensures { result.width ≡ width }
    {
        Joining { width }
    }
}

impl<D: Domain> Binary<D> for Joining {
    ghost use Rattle.std.specs.Prelude.{⊤, [], ◌++◌};

    ghost width = { λ operator. operator.width };

    ghost key = { λ operator. [] };

    ghost factor = { λ operator. 0 };

    ghost value = { λ operator lefts rights. lefts ++ rights };

    ghost stands = { λ operator domain lefts rights. ⊤ };

    ghost kept = { λ operator. [] };

    ghost carried = { λ operator before after lefts rights known stands. stands };

    fn apply<L: Ledger>(
        &mut self,
        alloc: Global,
        left: &Changes<Row<D::Value>>,
        right: &Changes<Row<D::Value>>,
        _domain: &mut D,
        _steps: &mut Steps<L>,
    ) -> Result<Changes<Row<D::Value>>, AllocError> {
        both(alloc, left, right)
    }
}

fn both<V: Cell>(
    alloc: Global,
    left: &Changes<V>,
    right: &Changes<V>,
) -> Result<Changes<V>, AllocError>
    ensures { IfOk result (λ net. (q : V) → weight V.eq net q ≡ weight V.eq left.now q +ℤ weight V.eq right.now q) }
{
    let mut net = Changes::new(alloc);
    net.add_changes(left)?;
    net.add_changes(right)?;
    Ok(net)
}
