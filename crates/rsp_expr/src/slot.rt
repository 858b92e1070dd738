// Slots.
ghost use Rattle.std.specs.Prelude.{◌≡◌, IfOk};

use rsp_terms::Term;
use std::alloc::AllocError;

/// A part of a triple pattern: a variable by its number, or a term.
#[derive(Drop)]
pub enum Slot {
    Variable(usize),
    Constant(Term),
}

impl Slot {
    /// An equal slot. Fails only where memory is refused.
    pub fn share(&self) -> Result<Slot, AllocError>
        ensures { IfOk result (λ other. other ≡ self.now) }
    {
        match self {
            Slot::Variable(variable) => Ok(Slot::Variable(*variable)),
            Slot::Constant(term) => Ok(Slot::Constant(term.share()?)),
        }
    }
}
