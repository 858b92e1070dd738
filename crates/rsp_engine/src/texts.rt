// What the text of a query asks, or why it can't be registered.
ghost use Rattle.std.specs.Prelude.{◌≡◌, IfOk, List, MatchResult, Ok, Err, Result, Some, ℕ};
ghost use Rattle.rsp_query.specs.Meanings.{registered};
ghost use Rattle.rsp_query.specs.Queries.{Registered};
ghost use Rattle.rsp_algebra.specs.Fitting.{IsPlaced};
ghost use Rattle.rsp_shapes.specs.Sound.{IsSound};
ghost use Rattle.rsp_syntax.specs.Answers.{IsParsed};
ghost use Rattle.rsp_syntax.specs.Deciding.{parse};
ghost use Rattle.rsp_syntax.specs.Periods.{HasPeriods};
ghost use Rattle.rsp_syntax.specs.declared.fault.SyntaxFault as syntax;
ghost use Rattle.rsp_syntax.specs.declared.fault.SyntaxFault.TheVariants as grammar;
ghost use Rattle.rsp_translation.specs.Translation.{IsFault, IsTranslated};
ghost use Rattle.rsp_translation.specs.declared.shape.Shape.TheVariants as shapes;
ghost use Rattle.rsp_engine.specs.Passing.{IsAsked};
ghost use Rattle.rsp_engine.specs.Refusals.{query_fault, sound, text_fault};
ghost use Rattle.rsp_engine.specs.declared.refused.TextFault.TheVariants as fault;

use crate::TextFault;
use rsp_algebra::Translated;
use rsp_query::Query;
use rsp_report::{Chosen, policy};
use rsp_syntax::{SyntaxFault, parse};
use rsp_translation::{Shape, translate};
use std::alloc::{AllocError, Global};

/// A query without fault, with its tree and with what its policy asks.
#[derive(Drop)]
pub(crate) struct Asked {
    pub query: Box<Query>,
    pub made: Box<Translated>,
    pub policy: Chosen,
}

/// The first fault of a query's text; None where the text can be registered, if the engine has room for it. Fails only where
/// memory is refused.
pub fn text_fault(alloc: Global, text: &str) -> Result<Option<TextFault>, AllocError>
    ensures value { IfOk result (λ fault. fault ≡ text_fault text.now) }
    ensures grammar { (text : List ℕ) → text_fault text ≡ Some (fault.Syntax grammar.OutOfMemory) → ⊥ }
    ensures shape { (text : List ℕ) → text_fault text ≡ Some (fault.Shape shapes.OutOfMemory) → ⊥ }
{
    match read(alloc, text)? {
        Ok(_asked) => Ok(None),
        Err(fault) => Ok(Some(fault)),
    }
}

/// What a query's text asks, or its first fault. Fails only where memory is refused.
pub(crate) fn read(alloc: Global, text: &str) -> Result<Result<Asked, TextFault>, AllocError>
    ensures { IfOk result (λ found. MatchResult found
        (λ asked. (parse text.now ≡ Ok (registered asked.query.value)) × IsAsked asked)
        (λ why. text_fault text.now ≡ Some why)) }
{
    match parse(alloc, text) {
        Ok(query) => of_query(alloc, query),
        Err(fault) => Ok(Err(syntax_fault(fault)?)),
    }
}

fn syntax_fault(found: SyntaxFault) -> Result<TextFault, AllocError>
    ensures { (wanted : Result Registered syntax.SyntaxFault) → IsParsed (Err found) wanted
        → IfOk result (λ why. sound wanted ≡ Err why) }
{
    match found {
        SyntaxFault::OutOfMemory => Err(AllocError),
        fault => Ok(TextFault::Syntax(fault)),
    }
}

fn of_query(alloc: Global, query: Query) -> Result<Result<Asked, TextFault>, AllocError>
    requires sound { IsSound (registered query) }
    requires periods { HasPeriods (registered query).policy }
    ensures { IfOk result (λ found. MatchResult found
        (λ asked. (registered asked.query.value ≡ registered query) × IsAsked asked)
        (λ why. query_fault (registered query) ≡ Some why)) }
{
    match translate(alloc, &query) {
        Ok(made) => under_policy(alloc, query, made),
        Err(fault) => Ok(Err(shape_fault(fault)?)),
    }
}

// the fault that a query without a translation has
fn shape_fault(found: Shape) -> Result<TextFault, AllocError>
    ensures { (q : Registered) → IsFault q found → IfOk result (λ why. query_fault q ≡ Some why) }
{
    match found {
        Shape::OutOfMemory => Err(AllocError),
        fault => Ok(TextFault::Shape(fault)),
    }
}

// a query that has a translation, under its policy
fn under_policy(
    alloc: Global,
    query: Query,
    made: Translated,
) -> Result<Result<Asked, TextFault>, AllocError>
    requires periods { HasPeriods (registered query).policy }
    requires translated { IsTranslated (registered query) made }
    requires placed { IsPlaced made }
    ensures { IfOk result (λ found. MatchResult found
        (λ asked. (registered asked.query.value ≡ registered query) × IsAsked asked)
        (λ why. query_fault (registered query) ≡ Some why)) }
{
    match policy(&query.policy) {
        Ok(policy) => {
            let query = Box::new(alloc, query)?;
            let made = Box::new(alloc, made)?;
            Ok(Ok(Asked {
                query,
                made,
                policy,
            }))
        }
        Err(mixed) => Ok(Err(TextFault::Policy(mixed))),
    }
}
