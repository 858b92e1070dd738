// A value with several holders.
ghost use Rattle.std.specs.Prelude.{◌≡◌, IfOk, IfErr};

use std::alloc::{AllocError, AllocFailed, Global};
use std::marker::Model;
use std::rc::Rc;

/// A value that several holders share without a copy of it. Contracts see the value.
#[derive(Drop)]
pub struct Shared<T> {
    shared: Rc<T, Global>,
}

impl<T> Model for Shared<T> {
    ghost Value = { T };

    ghost view = { λ s. s.shared.value };
}

impl<T> Shared<T> {
    /// The value with its first holder. Gives the value back where memory is refused.
    pub fn new(alloc: Global, value: T) -> Result<Shared<T>, AllocFailed<T>>
        ensures ok { IfOk result (λ made. made ≡ value) }
        ensures err { IfErr result (λ e. e.value ≡ value) }
    {
        let shared = Rc::new(alloc, value)?;
        Ok(Shared { shared })
    }

    /// The value.
    pub fn get(&self) -> &T
        ensures { result.now ≡ self.now }
    {
        self.shared.as_ref()
    }
}

impl<T: Drop> Shared<T> {
    /// One more holder of the value. Fails only where memory is refused.
    pub fn share(&self) -> Result<Shared<T>, AllocError>
        ensures { IfOk result (λ other. other ≡ self.now) }
    {
        let shared = self.shared.clone()?;
        Ok(Shared { shared })
    }
}

impl<T: PartialEq> PartialEq for Shared<T> {
    ghost eq = { T.eq };

    ghost laws = { T.laws };

    fn eq(&self, other: &Shared<T>) -> bool {
        self.get() == other.get()
    }
}

impl<T: Eq> Eq for Shared<T> {
    ghost laws = { T.Eq.laws };
}
