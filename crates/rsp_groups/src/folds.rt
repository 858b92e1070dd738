// The folds of a group.
ghost use Rattle.std.specs.Prelude.{◌≡◌, List, Option, length, map, IfOk, OnOk};
ghost use Rattle.std.specs.List.{AllZip};
ghost use Rattle.rsp_terms.specs.declared.term.Term.{Term};
ghost use Rattle.rsp_groups.specs.Moves.{Moved, AllMoved, MayMove, MayAllMove, IsShort, AreShort, results_over};

use rsp_folds::Fold;
use rsp_terms::Term;
use std::alloc::{AllocError, Global};

// takes the value into the fold, or gives it back
fn move_value<F: Fold>(
    alloc: Global,
    fold: &mut F,
    value: &Option<Term>,
    times: u64,
    out: bool,
) -> Result<(), AllocError>
    requires { MayMove (F.stands fold.old) out times value.now }
    ensures aggregate { F.aggregate fold.new ≡ F.aggregate fold.old }
    ensures law { OnOk result ((before after : List (Option Term)) → Moved out times value.now before after → IsShort after
        → F.stands fold.old before → F.stands fold.new after) }
{
    if out {
        fold.give(alloc, value, times)
    } else {
        fold.take(alloc, value, times)
    }
}

/// Takes the values into the folds, each so many times, or gives them back.
pub(crate) fn move_values<F: Fold>(
    alloc: Global,
    folds: &mut Vec<F>,
    values: &[Option<Term>],
    times: u64,
    out: bool,
) -> Result<(), AllocError>
    requires long { length values.now ≡ length folds.old.items }
    requires may { MayAllMove (AllZip F.stands folds.old.items) out times values.now }
    ensures aggregates { OnOk result (map F.aggregate folds.new.items ≡ map F.aggregate folds.old.items) }
    ensures law { OnOk result ((befores afters : List (List (Option Term))) → AllMoved out times values.now befores afters
        → AreShort afters → AllZip F.stands folds.old.items befores → AllZip F.stands folds.new.items afters) }
{
    for place in 0..folds.len() {
        move_value(alloc, &mut folds[place], &values[place], times, out)?;
    }
    Ok(())
}

/// The aggregates of the folds.
pub(crate) fn results_of<F: Fold>(
    alloc: Global,
    folds: &[F],
) -> Result<Vec<Option<Term>>, AllocError>
    ensures { IfOk result (λ results. (lists : List (List (Option Term))) → AllZip F.stands folds.now lists
        → results.items ≡ results_over (map F.aggregate folds.now) lists) }
{
    let mut results = Vec::new(alloc);
    for fold in folds {
        results.push(fold.result(alloc)?)?;
    }
    Ok(results)
}
