// Operators made of the nodes of trees.
use crate::keeping::{Keeping, KeepingBoth};
use rsp_algebra::Tree;
use rsp_terms::Domain;
use std::alloc::{AllocError, Global};

/// The operators on one child of all kinds of nodes, as one type.
pub trait SingleNode<D: Domain>: Keeping<D> {
    ghost use Rattle.std.specs.Prelude.{[], IfOk};
    ghost use Rattle.rsp_algebra.specs.Meanings.{node_of};
    ghost use Rattle.rsp_kinds.specs.Made.{HasOne, SingleFor};

    /// The operator of the tree's root, which is a node on one child. It stands for no rows, under every domain. Fails only
    /// where memory is refused.
    fn of_root(alloc: Global, tree: &Tree, width: usize) -> Result<Self, AllocError>
        requires { HasOne (node_of tree.now) }
        ensures node { IfOk result (λ made.
            SingleFor width (node_of tree.now) (Self.width made) (Self.key made) (Self.value made)) }
        ensures nothing { IfOk result (λ made. (domain : D) → Self.stands made domain []) };
}

/// The operators on two children of all kinds of nodes, as one type.
pub trait DoubleNode<D: Domain>: KeepingBoth<D> {
    ghost use Rattle.std.specs.Prelude.{[], IfOk};
    ghost use Rattle.rsp_algebra.specs.Fitting.{Fits};
    ghost use Rattle.rsp_algebra.specs.Meanings.{node_of};
    ghost use Rattle.rsp_kinds.specs.Made.{HasTwo, DoubleFor};

    /// The operator of the tree's root, which is a node on two children. It stands for no rows on either side, under every
    /// domain. Fails only where memory is refused.
    fn of_root(alloc: Global, tree: &Tree, width: usize) -> Result<Self, AllocError>
        requires two { HasTwo (node_of tree.now) }
        requires fits { Fits width (node_of tree.now) }
        ensures node { IfOk result (λ made. DoubleFor width (node_of tree.now)
            (Self.width made) (Self.key made) (Self.factor made) (Self.value made)) }
        ensures nothing { IfOk result (λ made. (domain : D) → Self.stands made domain [] []) };
}
