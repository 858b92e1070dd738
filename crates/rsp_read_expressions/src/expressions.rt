// Expressions without aggregates.
ghost use Rattle.std.specs.Prelude.{◌≡◌};
ghost use Rattle.rsp_written.specs.Gives.{Gives};
ghost use Rattle.rsp_written.specs.Meanings.{expr_of};
ghost use Rattle.rsp_written.specs.Readings as readings;

use crate::primaries::Plain;
use crate::rows;
use rsp_written::{Expression, Halt, Said, Symbol, sign};
use std::alloc::Global;

/// An expression without aggregates.
#[tactic(auto, unfolding(crate::specs::Levels::inner_read, rsp_written::specs::Readings::expression_read))]
pub fn expression(alloc: Global, tokens: &[Said]) -> Result<(Expression, &[Said]), Halt>
    ensures { Gives (λ x. (expr_of x.0, x.1.now)) result (readings.expression_read tokens.now) }
{
    rows::expression::<Plain>(tokens.len() + 1, alloc, tokens)
}

/// An expression without aggregates, in parentheses.
pub fn in_parens(alloc: Global, tokens: &[Said]) -> Result<(Expression, &[Said]), Halt>
    ensures { Gives (λ x. (expr_of x.0, x.1.now)) result (readings.in_parens_read readings.expression_read tokens.now) }
{
    let (_, rest) = sign(Symbol::OpenParen, tokens)?;
    let (inner, rest) = expression(alloc, rest)?;
    let (_, rest) = sign(Symbol::CloseParen, rest)?;
    Ok((inner, rest))
}

/// A call of a function by its name, without aggregates.
pub fn call(alloc: Global, tokens: &[Said]) -> Result<(Expression, &[Said]), Halt>
    ensures { Gives (λ x. (expr_of x.0, x.1.now)) result (readings.call_read readings.expression_read tokens.now) }
{
    rows::call::<Plain>(tokens.len() + 1, alloc, tokens)
}
