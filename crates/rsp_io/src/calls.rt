// The numbers of calls, and which of them fail.
ghost use Rattle.std.specs.Prelude.{◌≡◌};
ghost use Rattle.rsp_io.specs.Objects.{is_listed, one_more};

use std::marker::Model;

/// Counts the calls of an object, from 0, and knows which of them fail.
#[derive(Drop)]
pub(crate) struct Calls {
    failing: Vec<u64>,
    next: u64,
}

impl Model for Calls {
    ghost use Rattle.rsp_io.specs.Parts.{CallsState};

    ghost Value = { CallsState };

    ghost view = { λ c. record { calls = c.next; failing = c.failing.items } };
}

impl Calls {
    /// Calls of which those of the numbers `failing` fail.
    pub(crate) fn new(failing: Vec<u64>) -> Calls
        ensures calls { result.calls ≡ 0 }
        ensures failing { result.failing ≡ failing.items }
    {
        Calls { failing, next: 0 }
    }

    /// Counts one call, and answers whether it fails.
    pub(crate) fn fails_now(&mut self) -> bool
        ensures fails { result ≡ is_listed self.old.calls self.old.failing }
        ensures calls { self.new.calls ≡ one_more self.old.calls }
        ensures failing { self.new.failing ≡ self.old.failing }
    {
        let fails = self.failing.contains(&self.next);
        self.next = self.next.saturating_add(1);
        fails
    }
}
