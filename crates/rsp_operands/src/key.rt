// Terms that compare without memory.
use crate::order::{compare_numbers, rank};
use rsp_literals::number_of;
use rsp_number::Number;
use rsp_terms::{Term, print};
use std::alloc::{AllocError, Global};
use std::cmp::Ordering;
use std::marker::Model;

/// A term beside what it is compared by: its kind, its number and its printed bytes, made once. Keys stand in the order of
/// terms (SPARQL 1.1 Query, section 15.1, made total), and comparing them takes no memory. Contracts see the term.
#[derive(Drop)]
pub struct TermKey {
    rank: u8,
    number: Option<Number>,
    text: Vec<u8>,
    term: Term,
}

impl Model for TermKey {
    ghost use Rattle.rsp_terms.specs.declared.term.Term.{Term};
    ghost use Rattle.rsp_operands.specs.Keys.{IsKeyOf};

    ghost Value = { Term };

    ghost view = { λ k. k.term };

    ghost invariant = { λ k. IsKeyOf k.term k.rank k.number k.text.items };
}

impl TermKey {
    ghost use Rattle.std.specs.Prelude.{◌≡◌, IfOk};

    /// The key of a term. Fails only where memory is refused.
    pub fn new(alloc: Global, term: Term) -> Result<TermKey, AllocError>
        ensures { IfOk result (λ key. key ≡ term) }
    {
        let mut text = Vec::new(alloc);
        print(&term, &mut text)?;
        Ok(TermKey {
            rank: rank(&term),
            number: number_of(&term),
            text,
            term,
        })
    }

    /// The term.
    pub fn term(&self) -> &Term
        ensures { result.now ≡ self.now }
    {
        &self.term
    }
}

impl PartialEq for TermKey {
    ghost use Rattle.std.specs.Cmp.{partial_equiv_from_equiv};
    ghost use Rattle.rsp_terms.specs.Same.{term_eq};
    ghost use Rattle.rsp_operands.specs.Keys.{terms_equal};

    ghost eq = { term_eq };

    ghost laws = { partial_equiv_from_equiv terms_equal };

    fn eq(&self, other: &TermKey) -> bool {
        self.term == other.term
    }
}

impl Eq for TermKey {
    ghost use Rattle.rsp_operands.specs.Keys.{terms_equal};

    ghost laws = { terms_equal };
}

impl PartialOrd for TermKey {
    ghost use Rattle.std.specs.Prelude.{Some};
    ghost use Rattle.rsp_expr.specs.Order.{term_order};
    ghost use Rattle.rsp_operands.specs.Keys.{terms_in_order};

    ghost partial_cmp = { λ a b. Some (term_order a b) };

    ghost laws = { terms_in_order };

    fn partial_cmp(&self, other: &TermKey) -> Option<Ordering> {
        Some(self.cmp(other))
    }
}

impl Ord for TermKey {
    ghost use Rattle.std.specs.Prelude.{refl};
    ghost use Rattle.rsp_expr.specs.Order.{term_order};
    ghost use Rattle.rsp_expr.proofs.TermOrder.{term_order_total};
    ghost use Rattle.rsp_operands.specs.Keys.{terms_tied};

    ghost cmp = { term_order };

    ghost total = { term_order_total };

    ghost matches_partial_cmp = { λ _ _. refl };

    ghost matches_eq = { terms_tied };

    fn cmp(&self, other: &TermKey) -> Ordering {
        let ranks = self.rank.cmp(&other.rank);
        let numbers = compare_numbers(self.number, other.number);
        let texts = self.text.as_slice().cmp(other.text.as_slice());
        ranks.then(numbers.then(texts))
    }
}
