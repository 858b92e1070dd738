// How often each value is in.
ghost use Rattle.std.specs.Prelude.{◌≡◌, ◌≤◌, ◌+◌, ◌++◌, List, [], Option, length, IfOk, OnOk};
ghost use Rattle.rsp_spec.specs.Limits.{most_counted};
ghost use Rattle.rsp_folds.specs.Copies.{copies};
ghost use Rattle.rsp_terms.specs.declared.term.Term.{Term};
ghost use Rattle.rsp_aggregates.specs.Held.{HoldsValues, is_in, differ};

use rsp_multiset::{Changes, Count};
use rsp_terms::Term;
use std::alloc::{AllocError, Global};

/// The values that are in: how many errors, and how often each term.
#[derive(Drop)]
pub(crate) struct Copies {
    errors: u64,
    terms: Changes<Term>,
}

impl Copies {
    ghost use Rattle.std.specs.Prelude.{◌≡◌, ◌≤◌, ◌+◌, ◌++◌, List, [], Option, length, IfOk, OnOk};
    ghost use Rattle.rsp_folds.specs.Copies.{copies};
    ghost use Rattle.rsp_terms.specs.declared.term.Term.{Term};
    ghost use Rattle.rsp_aggregates.specs.Held.{HoldsValues, is_in, differ};

    /// No values. Takes no memory.
    pub(crate) fn new(alloc: Global) -> Copies
        ensures { HoldsValues result.errors result.terms [] }
    {
        Copies {
            errors: 0,
            terms: Changes::new(alloc),
        }
    }

    /// Whether the value is in.
    pub(crate) fn has(&self, value: &Option<Term>) -> bool
        ensures { (values : List (Option Term)) → HoldsValues self.now.errors self.now.terms values
            → result ≡ is_in value.now values }
    {
        match value {
            None => self.has_error(),
            Some(term) => !self.terms.count(term).is_zero(),
        }
    }

    /// Whether an error is in.
    pub(crate) fn has_error(&self) -> bool
        ensures { (values : List (Option Term)) → HoldsValues self.now.errors self.now.terms values
            → result ≡ is_in None values }
    {
        self.errors > 0
    }

    // puts copies in
    fn put(&mut self, value: &Option<Term>, times: u64) -> Result<(), AllocError>
        requires { (values : List (Option Term)) × (HoldsValues self.old.errors self.old.terms values
            × (length values + times ≤ most_counted)) }
        ensures { OnOk result ((values : List (Option Term)) → HoldsValues self.old.errors self.old.terms values
            → length values + times ≤ most_counted → HoldsValues self.new.errors self.new.terms (copies times value.now ++ values)) }
    {
        match value {
            None => {
                self.errors += times;
                Ok(())
            }
            Some(term) => self.terms.add(term.share()?, Count::of_many(times)?),
        }
    }

    // takes copies out
    fn draw(&mut self, value: &Option<Term>, times: u64) -> Result<(), AllocError>
        requires { (values : List (Option Term)) × HoldsValues self.old.errors self.old.terms (copies times value.now ++ values) }
        ensures { OnOk result ((values : List (Option Term))
            → HoldsValues self.old.errors self.old.terms (copies times value.now ++ values)
            → HoldsValues self.new.errors self.new.terms values) }
    {
        match value {
            None => {
                self.errors -= times;
                Ok(())
            }
            Some(term) => {
                let count = Count::of_many(times)?;
                self.terms.add(term.share()?, count.opposite())
            }
        }
    }

    /// Takes the value in, so many times; says whether its first copy came. Fails only where memory is refused.
    pub(crate) fn take(&mut self, value: &Option<Term>, times: u64) -> Result<bool, AllocError>
        requires { (values : List (Option Term)) × (HoldsValues self.old.errors self.old.terms values
            × (length values + times ≤ most_counted)) }
        ensures values { OnOk result ((values : List (Option Term)) → HoldsValues self.old.errors self.old.terms values
            → length values + times ≤ most_counted → HoldsValues self.new.errors self.new.terms (copies times value.now ++ values)) }
        ensures first { IfOk result (λ first. (values : List (Option Term)) → HoldsValues self.old.errors self.old.terms values
            → length values + times ≤ most_counted
            → differ (is_in value.now values) (is_in value.now (copies times value.now ++ values)) ≡ first) }
    {
        let before = self.has(value);
        self.put(value, times)?;
        Ok(before != self.has(value))
    }

    /// Gives the value back, so many times; says whether its last copy went. Fails only where memory is refused.
    pub(crate) fn give(&mut self, value: &Option<Term>, times: u64) -> Result<bool, AllocError>
        requires { (values : List (Option Term)) × HoldsValues self.old.errors self.old.terms (copies times value.now ++ values) }
        ensures values { OnOk result ((values : List (Option Term))
            → HoldsValues self.old.errors self.old.terms (copies times value.now ++ values)
            → HoldsValues self.new.errors self.new.terms values) }
        ensures last { IfOk result (λ last. (values : List (Option Term))
            → HoldsValues self.old.errors self.old.terms (copies times value.now ++ values)
            → differ (is_in value.now values) (is_in value.now (copies times value.now ++ values)) ≡ last) }
    {
        let before = self.has(value);
        self.draw(value, times)?;
        Ok(before != self.has(value))
    }
}
