// Values that rows are made of.
ghost use Rattle.std.specs.Prelude.{◌≡◌, IfOk, Decides};

use std::alloc::AllocError;
use std::hash::Hash;

/// A value that stands in a cell. Equal cells are identical.
pub trait Cell: Sized + Eq + Hash + Drop {
    ghost use Rattle.std.specs.Prelude.{◌≡◌, IfOk, Decides};

    /// An equal value. Fails only where memory is refused.
    fn share(&self) -> Result<Self, AllocError>
        ensures { IfOk result (λ other. other ≡ self.now) };

    ghost identical: { (a b : Self) → Decides (Self.eq a b) (a ≡ b) };
}

impl Cell for u64 {
    ghost use Rattle.std.specs.Cmp.{unsigned_Decides};

    ghost identical = { unsigned_Decides };

    fn share(&self) -> Result<u64, AllocError> {
        Ok(*self)
    }
}
