// Rows with a computed value.
ghost use Rattle.std.specs.Prelude.{◌≡◌, ◌+ℤ◌, ℤ, pos, List, Option, IfOk};
ghost use Rattle.std.specs.List.{AllByRecursion};
ghost use Rattle.rsp_multiset.specs.Rows.{Cells, row_eq};
ghost use Rattle.rsp_multiset.specs.Shown.{shown_row, weight_shown, IsKnown};
ghost use Rattle.rsp_multiset.specs.Variables.{extension};
ghost use Rattle.rsp_multiset.specs.Weights.{only, total};
ghost use Rattle.rsp_terms.specs.declared.term.Term.{Term};
ghost use Rattle.rsp_terms.specs.Same.{term_eq};
ghost use Rattle.rsp_operators.specs.Laws.{AnswersFit, IsShownAlike};

use rsp_multiset::{Changes, Row};
use rsp_operators::{Computed, Unary};
use rsp_terms::Domain;
use std::alloc::{AllocError, Global};

/// The rows with a computed value for a variable, whatever was bound there; an error leaves it unbound (SPARQL 1.1 Query,
/// section 18.5, Extend). It keeps nothing.
#[derive(Drop)]
pub struct Extending<E> {
    width: usize,
    variable: usize,
    computed: E,
}

impl<E> Extending<E> {
    ghost use Rattle.std.specs.Prelude.{◌≡◌};

    /// The operator over rows of this width.
    pub fn new(width: usize, variable: usize, computed: E) -> Extending<E>
        ensures width { result.width ≡ width }
        ensures variable { result.variable ≡ variable }
        ensures computed { result.computed ≡ computed }
    {
        Extending {
            width,
            variable,
            computed,
        }
    }
}

impl<D: Domain, E: Computed<D>> Unary<D> for Extending<E> {
    ghost use Rattle.std.specs.Prelude.{⊤, [], map};
    ghost use Rattle.rsp_multiset.specs.Variables.{extension};

    ghost width = { λ operator. operator.width };

    ghost key = { λ operator. [] };

    ghost value = { λ operator rows.
        map (λ row. extension operator.width operator.variable (E.of operator.computed row) row) rows };

    ghost stands = { λ operator domain rows. ⊤ };

    ghost kept = { λ operator. [] };

    ghost carried = { λ operator before after rows known stands. stands };

    fn apply(
        &mut self,
        alloc: Global,
        change: &Changes<Row<D::Value>>,
        domain: &mut D,
    ) -> Result<Changes<Row<D::Value>>, AllocError> {
        extended(
            alloc,
            self.width,
            self.variable,
            &self.computed,
            change,
            domain,
        )
    }
}

fn extended<D: Domain, E: Computed<D>>(
    alloc: Global,
    width: usize,
    variable: usize,
    computed: &E,
    change: &Changes<Row<D::Value>>,
    domain: &mut D,
) -> Result<Changes<Row<D::Value>>, AllocError>
    requires { AllByRecursion (λ (e : List (Option D.Value) × ℤ). IsKnown (D.knows domain.old) e.0) change.now }
    ensures known { (v : D.Value) → D.knows domain.old v
        → IsShownAlike (D.shown domain.old) (D.knows domain.new) (D.shown domain.new) v }
    ensures rows { IfOk result (λ net. AnswersFit D.Value.eq width (D.knows domain.new) net) }
    ensures net { IfOk result (λ net. (q : Cells Term) → weight_shown (row_eq term_eq) (shown_row (D.shown domain.new)) net q
        ≡ total (λ row. only (row_eq term_eq q (extension width variable (E.of computed.now (shown_row (D.shown domain.old) row))
        (shown_row (D.shown domain.old) row))) (pos 1)) change.now) }
{
    let mut net = Changes::new(alloc);
    for index in 0..change.distinct() {
        let (row, count) = change.counted_at(index);
        let value = computed.value(row, domain)?;
        net.add(row.extended(width, variable, &value)?, count)?;
    }
    Ok(net)
}
