// MIN and MAX.
ghost use Rattle.std.specs.Prelude.{◌≡◌, ◌&&◌, ◌||◌, not, List, [], Option, Some, IfOk, OnOk, IfSome, IfNone, IsTrue, false};
ghost use Rattle.std.specs.BTreeSet.{BTreeSet as Keys, contains};
ghost use Rattle.std.specs.Option.{option_eq};
ghost use Rattle.rsp_expr.specs.Order.{term_order};
ghost use Rattle.rsp_terms.specs.declared.term.Term.{Term};
ghost use Rattle.rsp_terms.specs.Same.{term_eq};
ghost use Rattle.rsp_aggregates.specs.Ordered.{IsEnd};

use crate::copies::Copies;
use rsp_folds::Fold;
use rsp_operands::TermKey;
use rsp_terms::Term;
use std::alloc::{AllocError, Global};
use std::collections::BTreeSet;

/// The values that are in, and the terms among them, each once, in the order of terms.
#[derive(Drop)]
pub struct Extreme {
    greatest: bool,
    copies: Copies,
    keys: BTreeSet<TermKey>,
}

impl Extreme {
    ghost use Rattle.std.specs.Prelude.{◌≡◌, []};
    ghost use Rattle.rsp_aggregates.specs.Ordered.{ExtremeStands};

    /// MAX, or else MIN, with nothing in it. Takes no memory.
    pub fn new(alloc: Global, greatest: bool) -> Extreme
        ensures greatest { result.greatest ≡ greatest }
        ensures nothing { ExtremeStands result.copies.errors result.copies.terms result.keys [] }
    {
        Extreme {
            greatest,
            copies: Copies::new(alloc),
            keys: BTreeSet::new(alloc),
        }
    }
}

// puts the term, if it is one, among the keys
fn put_key(
    alloc: Global,
    keys: &mut BTreeSet<TermKey>,
    value: &Option<Term>,
) -> Result<(), AllocError>
    ensures { OnOk result ((term : Term) → contains term_order keys.new term
        ≡ (option_eq term_eq (Some term) value.now || contains term_order keys.old term)) }
{
    match value {
        None => Ok(()),
        Some(term) => {
            let key = TermKey::new(alloc, term.share()?)?;
            keys.insert(key)?;
            Ok(())
        }
    }
}

// takes the term, if it is one, out of the keys
fn drop_key(
    alloc: Global,
    keys: &mut BTreeSet<TermKey>,
    value: &Option<Term>,
) -> Result<(), AllocError>
    ensures { OnOk result ((term : Term) → contains term_order keys.new term
        ≡ (not (option_eq term_eq (Some term) value.now) && contains term_order keys.old term)) }
{
    match value {
        None => Ok(()),
        Some(term) => {
            let key = TermKey::new(alloc, term.share()?)?;
            keys.remove(&key);
            Ok(())
        }
    }
}

// the greatest key, or else the least
fn end(keys: &BTreeSet<TermKey>, greatest: bool) -> Option<&TermKey>
    ensures end { IfSome result (λ key. IsEnd greatest keys.now key.now) }
    ensures none { IfNone result ((term : Term) → contains term_order keys.now term ≡ false) }
{
    if greatest { keys.last() } else { keys.first() }
}

impl Fold for Extreme {
    ghost use Rattle.rsp_aggregates.specs.Ordered.{extreme_aggregate, ExtremeStands, extremes_alike, extreme_aggregates_alike};

    ghost aggregate = { λ fold values. extreme_aggregate fold.greatest values };

    ghost stands = { λ fold values. ExtremeStands fold.copies.errors fold.copies.terms fold.keys values };

    ghost stands_alike = { λ fold values others same stands.
        extremes_alike fold.copies.errors fold.copies.terms fold.keys values others same stands };

    ghost aggregates_alike = { λ fold values others same. extreme_aggregates_alike fold.greatest values others same };

    fn fresh(&self, alloc: Global) -> Result<Extreme, AllocError> {
        Ok(Extreme::new(alloc, self.greatest))
    }

    fn take(&mut self, alloc: Global, value: &Option<Term>, times: u64) -> Result<(), AllocError> {
        if self.copies.take(value, times)? {
            put_key(alloc, &mut self.keys, value)?;
        }
        Ok(())
    }

    fn give(&mut self, alloc: Global, value: &Option<Term>, times: u64) -> Result<(), AllocError> {
        if self.copies.give(value, times)? {
            drop_key(alloc, &mut self.keys, value)?;
        }
        Ok(())
    }

    fn result(&self, _alloc: Global) -> Result<Option<Term>, AllocError> {
        if self.copies.has_error() {
            return Ok(None);
        }
        match end(&self.keys, self.greatest) {
            None => Ok(None),
            Some(key) => Ok(Some(key.term().share()?)),
        }
    }
}
