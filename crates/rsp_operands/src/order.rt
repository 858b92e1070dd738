// The order of terms.
ghost use Rattle.std.specs.Prelude.{◌≡◌, IfOk, is_some, if◌then◌else◌};
ghost use Rattle.std.specs.Cmp.{IsTotalOrder};
ghost use Rattle.std.specs.Cmp.Lexicographic.{slice_cmp};
ghost use Rattle.std.specs.Option.{option_cmp};
ghost use Rattle.std.specs.Ordering.{nat_cmp, ordering_then};
ghost use Rattle.std.specs.declared.cmp.Ordering.TheVariants.{Equal};
ghost use Rattle.rsp_number.specs.Numbers.{comparison};
ghost use Rattle.rsp_terms.specs.Terms.{term_text, HasShortNumber};
ghost use Rattle.rsp_expr.specs.Forms.{number_of as number};
ghost use Rattle.rsp_expr.specs.Order.{order, term_order, term_rank};

use rsp_literals::number_of;
use rsp_number::Number;
use rsp_terms::{Term, print};
use std::alloc::{AllocError, Global};
use std::cmp::Ordering;

/// How two terms stand in order (SPARQL 1.1 Query, section 15.1, made total): blank nodes, IRIs, literals that have a
/// number, other literals; numbers by value, and what is left by the bytes that are printed. Only a term itself is equal
/// to it. Fails only where memory is refused.
pub fn compare_terms(alloc: Global, left: &Term, right: &Term) -> Result<Ordering, AllocError>
    ensures order { IfOk result (λ found. found ≡ term_order left.now right.now) }
    ensures total { IsTotalOrder order }
    ensures same { IfOk result (λ found. found ≡ Equal → left.now ≡ right.now) }
{
    match rank(left).cmp(&rank(right)) {
        Ordering::Less => Ok(Ordering::Less),
        Ordering::Greater => Ok(Ordering::Greater),
        Ordering::Equal => compare_within_rank(alloc, left, right),
    }
}

fn compare_within_rank(alloc: Global, left: &Term, right: &Term) -> Result<Ordering, AllocError>
    ensures { IfOk result (λ found. found ≡ ordering_then (option_cmp comparison (number left.now) (number right.now))
        (slice_cmp nat_cmp (term_text left.now) (term_text right.now))) }
{
    match compare_numbers(number_of(left), number_of(right)) {
        Ordering::Less => Ok(Ordering::Less),
        Ordering::Greater => Ok(Ordering::Greater),
        Ordering::Equal => compare_printed(alloc, left, right),
    }
}

// blank nodes, IRIs, literals that have a number, other literals
pub(crate) fn rank(term: &Term) -> u8
    ensures value { result ≡ term_rank term.now }
    ensures numbered { HasShortNumber term.now }
{
    match term {
        Term::Blank { document, .. } => {
            let _document = *document;
            1
        }
        Term::Iri(_) => 2,
        Term::Literal { .. } => rank_of_literal(number_of(term)),
        Term::Tagged { .. } => rank_of_literal(number_of(term)),
    }
}

fn rank_of_literal(number: Option<Number>) -> u8
    ensures { result ≡ (if is_some number then 3 else 4) }
{
    if number.is_some() { 3 } else { 4 }
}

pub(crate) fn compare_numbers(left: Option<Number>, right: Option<Number>) -> Ordering
    ensures { result ≡ option_cmp comparison left right }
{
    match (left, right) {
        (None, None) => Ordering::Equal,
        (None, Some(_)) => Ordering::Less,
        (Some(_), None) => Ordering::Greater,
        (Some(left), Some(right)) => rsp_number::compare(&left, &right),
    }
}

fn compare_printed(alloc: Global, left: &Term, right: &Term) -> Result<Ordering, AllocError>
    ensures { IfOk result (λ found. found ≡ slice_cmp nat_cmp (term_text left.now) (term_text right.now)) }
{
    let mut first = Vec::new(alloc);
    print(left, &mut first)?;
    let mut second = Vec::new(alloc);
    print(right, &mut second)?;
    Ok(first.as_slice().cmp(second.as_slice()))
}
