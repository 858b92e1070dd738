// Folds.
use rsp_terms::Term;
use std::alloc::{AllocError, Global};

/// An aggregate of values, each a term or an error, that come and go. Each call costs the same whatever is in, or grows
/// with the logarithm of the different values.
pub trait Fold: Sized + Drop {
    ghost use Rattle.std.specs.Prelude.{◌≡◌, ◌+◌, ◌≤◌, ◌++◌, List, [], length, Option, IfOk, OnOk};
    ghost use Rattle.std.specs.Option.{option_eq};
    ghost use Rattle.rsp_spec.specs.Limits.{most_counted};
    ghost use Rattle.rsp_multiset.specs.Weights.{IsSameMultiset};
    ghost use Rattle.rsp_terms.specs.declared.term.Term.{Term};
    ghost use Rattle.rsp_terms.specs.Same.{term_eq};
    ghost use Rattle.rsp_folds.specs.Copies.{copies};

    // None of a value is an error, and so is None of the aggregate
    ghost aggregate: { Self → List (Option Term) → Option Term };

    ghost stands: { Self → List (Option Term) → Type 0 };

    /// A fold of the same aggregate, into which nothing is taken. Fails only where memory is refused.
    fn fresh(&self, alloc: Global) -> Result<Self, AllocError>
        ensures aggregate { IfOk result (λ made. aggregate made ≡ aggregate self.now) }
        ensures nothing { IfOk result (λ made. stands made []) };

    /// Takes the value in, so many times at once; at most 2^32 values are then in. Fails only where memory is refused, and
    /// is then only to be dropped.
    fn take(&mut self, alloc: Global, value: &Option<Term>, times: u64) -> Result<(), AllocError>
        requires { (values : List (Option Term)) × (stands self.old values × (length values + times ≤ most_counted)) }
        ensures aggregate { aggregate self.new ≡ aggregate self.old }
        ensures law { OnOk result ((values : List (Option Term)) → stands self.old values → length values + times ≤ most_counted
            → stands self.new (copies times value.now ++ values)) };

    /// Gives the value back, so many times at once; so many are in. Fails only where memory is refused, and is then only to
    /// be dropped.
    fn give(&mut self, alloc: Global, value: &Option<Term>, times: u64) -> Result<(), AllocError>
        requires { (values : List (Option Term)) × stands self.old (copies times value.now ++ values) }
        ensures aggregate { aggregate self.new ≡ aggregate self.old }
        ensures law { OnOk result ((values : List (Option Term)) → stands self.old (copies times value.now ++ values)
            → stands self.new values) };

    /// The aggregate of the values that are in; None exactly where that is an error. Fails only where memory is refused.
    fn result(&self, alloc: Global) -> Result<Option<Term>, AllocError>
        ensures { IfOk result (λ found. (values : List (Option Term)) → stands self.now values
            → found ≡ aggregate self.now values) };

    ghost stands_alike: { (fold : Self) (values others : List (Option Term)) → IsSameMultiset (option_eq term_eq) values others
        → stands fold values → stands fold others };

    ghost aggregates_alike: { (fold : Self) (values others : List (Option Term))
        → IsSameMultiset (option_eq term_eq) values others → aggregate fold values ≡ aggregate fold others };
}
