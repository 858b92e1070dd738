// The least and the greatest of terms.
ghost use Rattle.std.specs.Prelude.{◌≡◌, IfOk};
ghost use Rattle.std.specs.List.{reduce};
ghost use Rattle.std.specs.Ordering.{is_lt, ord_min, ord_max};
ghost use Rattle.rsp_expr.specs.Order.{term_order};
ghost use Rattle.rsp_values.specs.Extremes.{better, better_or_first};

use rsp_operands::compare_terms;
use rsp_terms::Term;
use std::alloc::{AllocError, Global};
use std::cmp::Ordering;

/// The greatest of the terms, or else the least; None exactly where there is none. Fails only where memory is refused.
pub(crate) fn greatest_or_least(
    alloc: Global,
    greatest: bool,
    terms: Vec<Term>,
) -> Result<Option<Term>, AllocError>
    ensures { IfOk result (λ term. term ≡ reduce (better greatest) terms.items) }
{
    let mut best = None;
    for term in terms {
        best = Some(better_or_first(alloc, greatest, best, term)?);
    }
    Ok(best)
}

fn better_or_first(
    alloc: Global,
    greatest: bool,
    best: Option<Term>,
    term: Term,
) -> Result<Term, AllocError>
    ensures { IfOk result (λ found. found ≡ better_or_first greatest best term) }
{
    match best {
        None => Ok(term),
        Some(best) => better(alloc, greatest, best, term),
    }
}

fn better(alloc: Global, greatest: bool, first: Term, second: Term) -> Result<Term, AllocError>
    ensures { IfOk result (λ found. found ≡ better greatest first second) }
{
    if greatest {
        greater(alloc, first, second)
    } else {
        lesser(alloc, first, second)
    }
}

fn greater(alloc: Global, first: Term, second: Term) -> Result<Term, AllocError>
    ensures { IfOk result (λ found. found ≡ ord_max term_order first second) }
{
    if is_less(alloc, &second, &first)? {
        Ok(first)
    } else {
        Ok(second)
    }
}

fn lesser(alloc: Global, first: Term, second: Term) -> Result<Term, AllocError>
    ensures { IfOk result (λ found. found ≡ ord_min term_order first second) }
{
    if is_less(alloc, &second, &first)? {
        Ok(second)
    } else {
        Ok(first)
    }
}

fn is_less(alloc: Global, left: &Term, right: &Term) -> Result<bool, AllocError>
    ensures { IfOk result (λ less. less ≡ is_lt (term_order left.now right.now)) }
{
    match compare_terms(alloc, left, right)? {
        Ordering::Less => Ok(true),
        Ordering::Equal => Ok(false),
        Ordering::Greater => Ok(false),
    }
}
