// Counts whose change tells what they gain and lose.
ghost use Rattle.std.specs.Prelude.{◌≡◌, ◌+ℤ◌, OnOk, IfOk};
ghost use Rattle.rsp_multiset.specs.Weights.{only, weight};
ghost use Rattle.rsp_scope.specs.Moves.{presence, Tells};

use rsp_multiset::{Cell, Changes, Count};
use std::alloc::AllocError;

/// Counts the value `by` more. The change gains it where it wasn't counted before, and loses it where it ceases to be.
pub(crate) fn count_by<V: Cell>(
    counts: &mut Changes<V>,
    change: &mut Changes<V>,
    value: V,
    by: Count,
) -> Result<(), AllocError>
    ensures counts { OnOk result ((q : V) → weight V.eq counts.new q ≡ weight V.eq counts.old q +ℤ only (V.eq q value) by) }
    ensures tells { OnOk result (Tells V.eq counts.old counts.new change.old change.new) }
{
    let before = counts.count(&value);
    let after = before.checked_add(by)?;
    let turn = turn(before, after)?;
    change.add(value.share()?, turn)?;
    counts.add(value, by)?;
    Ok(())
}

// what comes in or goes out where the count changes
fn turn(before: Count, after: Count) -> Result<Count, AllocError>
    ensures { IfOk result (λ turn. presence before +ℤ turn ≡ presence after) }
{
    let was = presence(before)?;
    let is = presence(after)?;
    is.checked_add(was.opposite())
}

fn presence(count: Count) -> Result<Count, AllocError>
    ensures { IfOk result (λ n. n ≡ presence count) }
{
    if count.is_zero() {
        return Ok(Count::zero());
    }
    Count::of_many(1)
}
