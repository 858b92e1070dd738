// Values that stand for terms in the cells of rows.
ghost use Rattle.std.specs.Prelude.{◌≡◌, OnErr, IfOk};
ghost use Rattle.rsp_multiset.specs.Shown.{AreToldApart};
ghost use Rattle.rsp_terms.specs.declared.term.Term.{Term};

use crate::Term;
use rsp_multiset::Cell;
use std::alloc::AllocError;

/// What the cells of rows stand for: each value that is known shows a term, and known values that show one term are one.
pub trait Domain: Sized + Drop {
    ghost use Rattle.std.specs.Prelude.{◌≡◌, OnErr, IfOk};
    ghost use Rattle.rsp_multiset.specs.Shown.{AreToldApart};
    ghost use Rattle.rsp_terms.specs.declared.term.Term.{Term};

    type Value: Cell;

    ghost knows: { Self → Self.Value → Type 0 };

    ghost shown: { Self → Self.Value → Term };

    /// The term that the value shows. Takes no memory.
    fn show<'a>(&'a self, value: &'a Self::Value) -> &'a Term
        requires { knows self.now value.now }
        ensures { result.now ≡ shown self.now value.now };

    /// A value that shows the term. Fails only where memory is refused, and then changes nothing.
    fn keep(&mut self, term: Term) -> Result<Self::Value, AllocError>
        ensures kept { IfOk result (λ value. knows self.new value × (shown self.new value ≡ term)) }
        ensures known { (value : Self.Value) → knows self.old value
            → knows self.new value × (shown self.new value ≡ shown self.old value) }
        ensures err { OnErr result (self.new ≡ self.old) };

    ghost told_apart: { (domain : Self) → AreToldApart (knows domain) (shown domain) };
}

/// The domain of terms that show themselves. It knows each term.
#[derive(Drop)]
pub struct Same {}

impl Same {
    /// The domain. Takes no memory.
    pub fn new() -> Same {
        Same {}
    }
}

impl Domain for Same {
    ghost use Rattle.std.specs.Prelude.{⊤};

    type Value = Term;

    ghost knows = { λ domain value. ⊤ };

    ghost shown = { λ domain value. value };

    ghost told_apart = { λ domain x y _ _ same. same };

    fn show<'a>(&'a self, value: &'a Term) -> &'a Term {
        value
    }

    fn keep(&mut self, term: Term) -> Result<Term, AllocError> {
        Ok(term)
    }
}
