// Conditions and values by expressions.
ghost use Rattle.std.specs.Prelude.{◌≡◌, true, IsTrue, IfOk};
ghost use Rattle.rsp_multiset.specs.Rows.{Cells};
ghost use Rattle.rsp_multiset.specs.Shown.{shown_row, IsKnown};
ghost use Rattle.rsp_terms.specs.declared.term.Term.{Term};
ghost use Rattle.rsp_expr.specs.Meanings.{formula_of};
ghost use Rattle.rsp_expr.specs.Values.{truth as passes, value as value_of};

use rsp_expr::Expression;
use rsp_multiset::Row;
use rsp_operators::{Computed, Condition};
use rsp_terms::{Domain, Term};
use rsp_values::{MergedRows, ShownRow, truth, value};
use std::alloc::{AllocError, Global};

/// An expression, as a test and as a value of a row by the terms that it shows. It reads the row's cells where they stand.
#[derive(Drop)]
pub struct ByExpression {
    alloc: Global,
    expression: Expression,
}

impl ByExpression {
    ghost use Rattle.std.specs.Prelude.{◌≡◌};

    /// The test and the value by this expression.
    pub fn new(alloc: Global, expression: Expression) -> ByExpression
        ensures { result.expression ≡ expression }
    {
        ByExpression { alloc, expression }
    }
}

impl<D: Domain> Condition<D> for ByExpression {
    ghost use Rattle.rsp_expr.specs.Meanings.{formula_of};
    ghost use Rattle.rsp_expr.specs.Values.{truth as passes};

    ghost test = { λ condition row. passes (formula_of condition.expression) row };

    fn always(&self) -> bool {
        asks_nothing(&self.expression)
    }

    fn holds(&self, row: &Row<D::Value>, domain: &D) -> Result<bool, AllocError> {
        truth(self.alloc, &self.expression, &ShownRow::new(row, domain))
    }

    fn holds_on_merge(
        &self,
        left: &Row<D::Value>,
        right: &Row<D::Value>,
        domain: &D,
    ) -> Result<bool, AllocError> {
        let rows = MergedRows::new(left, right, domain);
        truth(self.alloc, &self.expression, &rows)
    }
}

impl<D: Domain> Computed<D> for ByExpression {
    ghost use Rattle.rsp_expr.specs.Meanings.{formula_of};
    ghost use Rattle.rsp_expr.specs.Values.{value as value_of};

    ghost of = { λ computed row. value_of (formula_of computed.expression) row };

    fn value(&self, row: &Row<D::Value>, domain: &mut D) -> Result<Option<D::Value>, AllocError> {
        match shown_value(self.alloc, &self.expression, row, domain)? {
            None => Ok(None),
            Some(term) => Ok(Some(domain.keep(term)?)),
        }
    }
}

// the value of the expression by the terms that the row shows
fn shown_value<D: Domain>(
    alloc: Global,
    expression: &Expression,
    row: &Row<D::Value>,
    domain: &D,
) -> Result<Option<Term>, AllocError>
    requires { IsKnown (D.knows domain.now) row.now }
    ensures { IfOk result (λ found. found ≡ value_of (formula_of expression.now) (shown_row (D.shown domain.now) row.now)) }
{
    value(alloc, expression, &ShownRow::new(row, domain))
}

/// Whether the expression is the conjunction of none, which holds on every row. Takes no memory.
pub(crate) fn asks_nothing(expression: &Expression) -> bool
    ensures { IsTrue result → (row : Cells Term) → passes (formula_of expression.now) row ≡ true }
{
    match expression {
        Expression::And(parts) => parts.is_empty(),
        _ => false,
    }
}

/// The argument of an aggregate. That of COUNT(*), which has none, has no value in any row.
#[derive(Drop)]
pub struct Argument {
    expression: Option<ByExpression>,
}

impl Argument {
    ghost use Rattle.rsp_expr.specs.Meanings.{maybe_formula};
    ghost use Rattle.rsp_kinds.specs.Arguments.{IsArgumentOf};

    /// The argument by this expression, if there is one.
    pub fn new(alloc: Global, expression: Option<Expression>) -> Argument
        ensures { IsArgumentOf (maybe_formula expression) result }
    {
        match expression {
            None => Argument { expression: None },
            Some(expression) => Argument {
                expression: Some(ByExpression::new(alloc, expression)),
            },
        }
    }
}

impl<D: Domain> Computed<D> for Argument {
    ghost use Rattle.rsp_kinds.specs.Arguments.{argument_value};

    ghost of = { λ argument row. argument_value argument.expression row };

    fn value(&self, row: &Row<D::Value>, domain: &mut D) -> Result<Option<D::Value>, AllocError> {
        match &self.expression {
            None => Ok(None),
            Some(expression) => expression.value(row, domain),
        }
    }
}
