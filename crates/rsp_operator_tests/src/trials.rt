// Operators on trial, over rows of three cells.
ghost use Rattle.std.specs.Prelude.{◌≡◌, ⊤, [], IfOk};
ghost use Rattle.rsp_terms.specs.Same.{term_eq};
ghost use Rattle.rsp_joins.specs.Stands.{Stands};

use crate::bounded::Bounded;
use rsp_joins::{Compatible, JoinOp};
use rsp_operators::Pairing;
use rsp_outer::{AntiOp, KeyedAntiOp, KeyedSemiOp, LeftJoinOp, SemiOp};
use rsp_simple_operators::Deduping;
use rsp_terms::Same;
use rsp_trials::{BinaryTrial, UnaryTrial};
use std::alloc::{AllocError, Global};

/// How many cells each row has.
pub(crate) const WIDTH: usize = 3;

/// Each row once.
pub(crate) fn once(alloc: Global) -> Result<UnaryTrial<Deduping<Same>>, AllocError> {
    let operator: Deduping<Same> = Deduping::new(alloc, WIDTH)?;
    Ok(UnaryTrial::new(alloc, operator, WIDTH, Vec::new(alloc)))
}

fn compatible_join(alloc: Global, key: &[usize]) -> Result<JoinOp<Same, Compatible>, AllocError>
    ensures width { IfOk result (λ made. made.width ≡ 3) }
    ensures key { IfOk result (λ made. made.pairing.key.items ≡ key.now) }
    ensures nothing { IfOk result (λ made. (domain : Same) → Stands term_eq (λ v. ⊤) (λ v. v)
        made.width made.pairing.key.items made.left made.right [] []) }
{
    let pairing = Compatible::new(Vec::from_slice(alloc, key)?);
    let operator = JoinOp::new(alloc, WIDTH, pairing)?;
    Ok(operator)
}

/// A join by compatibility, with this key.
pub(crate) fn joined(
    alloc: Global,
    key: &[usize],
) -> Result<BinaryTrial<JoinOp<Same, Compatible>>, AllocError> {
    let operator = compatible_join(alloc, key)?;
    BinaryTrial::new(alloc, operator, WIDTH, Vec::from_slice(alloc, key)?)
}

/// The same, of which so many pairs may come in a call.
pub(crate) fn bounded_join(
    alloc: Global,
    key: &[usize],
    most: u64,
) -> Result<BinaryTrial<Bounded<JoinOp<Same, Compatible>>>, AllocError> {
    let operator = Bounded {
        operator: compatible_join(alloc, key)?,
        most,
        full: false,
    };
    BinaryTrial::new(alloc, operator, WIDTH, Vec::from_slice(alloc, key)?)
}

/// A left join by this pairing.
pub(crate) fn left_join<P: Pairing<Same> + Drop>(
    alloc: Global,
    pairing: P,
) -> Result<BinaryTrial<LeftJoinOp<Same, P>>, AllocError> {
    let key = Vec::from_slice(alloc, pairing.key())?;
    let operator = LeftJoinOp::new(alloc, WIDTH, pairing)?;
    BinaryTrial::new(alloc, operator, WIDTH, key)
}

/// The same, of which so many pairs may come in a call.
pub(crate) fn bounded_left_join<P: Pairing<Same> + Drop>(
    alloc: Global,
    pairing: P,
    most: u64,
) -> Result<BinaryTrial<Bounded<LeftJoinOp<Same, P>>>, AllocError> {
    let key = Vec::from_slice(alloc, pairing.key())?;
    let operator = LeftJoinOp::new(alloc, WIDTH, pairing)?;
    let bounded = Bounded {
        operator,
        most,
        full: false,
    };
    BinaryTrial::new(alloc, bounded, WIDTH, key)
}

/// The left rows with no partner by this pairing.
pub(crate) fn anti<P: Pairing<Same> + Drop>(
    alloc: Global,
    pairing: P,
) -> Result<BinaryTrial<AntiOp<Same, P>>, AllocError> {
    let key = Vec::from_slice(alloc, pairing.key())?;
    let operator = AntiOp::new(alloc, WIDTH, pairing)?;
    BinaryTrial::new(alloc, operator, WIDTH, key)
}

/// The left rows with some partner by this pairing.
pub(crate) fn semi<P: Pairing<Same> + Drop>(
    alloc: Global,
    pairing: P,
) -> Result<BinaryTrial<SemiOp<Same, P>>, AllocError> {
    let key = Vec::from_slice(alloc, pairing.key())?;
    let operator = SemiOp::new(alloc, WIDTH, pairing)?;
    BinaryTrial::new(alloc, operator, WIDTH, key)
}

/// The left rows with whose key no right row agrees.
pub(crate) fn keyed_anti(
    alloc: Global,
    key: &[usize],
) -> Result<BinaryTrial<KeyedAntiOp<Same>>, AllocError> {
    let operator = KeyedAntiOp::new(alloc, WIDTH, Vec::from_slice(alloc, key)?);
    BinaryTrial::new(alloc, operator, WIDTH, Vec::from_slice(alloc, key)?)
}

/// The left rows with whose key some right row agrees.
pub(crate) fn keyed_semi(
    alloc: Global,
    key: &[usize],
) -> Result<BinaryTrial<KeyedSemiOp<Same>>, AllocError> {
    let operator = KeyedSemiOp::new(alloc, WIDTH, Vec::from_slice(alloc, key)?);
    BinaryTrial::new(alloc, operator, WIDTH, Vec::from_slice(alloc, key)?)
}
