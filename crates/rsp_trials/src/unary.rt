// Operators on one input, on trial.
ghost use Rattle.std.specs.Prelude.{◌≡◌, List, [], IfOk};

use crate::Refused;
use crate::rows::{Line, change, is_change};
use crate::side::Side;
use rsp_multiset::{Bag, Changes, Row};
use rsp_operators::Unary;
use rsp_terms::{Same, Term};
use std::alloc::{AllocError, Global};
use std::marker::Model;

/// An operator with the rows that its input holds, over terms that show themselves, and the sum of what it answered.
#[derive(Drop)]
pub struct UnaryTrial<O: Unary<Same>> {
    operator: O,
    domain: Same,
    side: Side,
    answers: Changes<Row<Term>>,
    ready: bool,
}

impl<O: Unary<Same>> Model for UnaryTrial<O> {
    ghost use Rattle.std.specs.Prelude.{◌≡◌, true};
    ghost use Rattle.rsp_trials.specs.Held.{Counted, StandsForRows};

    ghost Value = { Counted × Counted };

    ghost view = { λ t. (t.side.rows, t.answers) };

    ghost invariant = { λ t. t.ready ≡ true → StandsForRows (O.width t.operator) (O.key t.operator) (O.stands t.operator t.domain)
        t.side.width t.side.key.items t.side.rows };
}

impl<O: Unary<Same>> UnaryTrial<O> {
    ghost use Rattle.std.specs.Prelude.{◌≡◌, List, [], IfOk, IsErrOf};
    ghost use Rattle.rsp_trials.specs.Held.{IsSum};
    ghost use Rattle.rsp_trials.specs.declared.refused.Refused.TheVariants.{Misfit, Missing};

    /// The operator as it is made, which stands for no rows.
    pub fn new(alloc: Global, operator: O, width: usize, key: Vec<usize>) -> UnaryTrial<O>
        requires width { O.width operator ≡ width }
        requires key { O.key operator ≡ key.items }
        requires nothing { (domain : Same) → O.stands operator domain [] }
        ensures rows { result.0 ≡ [] }
        ensures answers { result.1 ≡ [] }
    {
        UnaryTrial {
            operator,
            domain: Same::new(),
            side: Side::new(alloc, width, key),
            answers: Changes::new(alloc),
            ready: true,
        }
    }

    /// Gives the operator the change, and tells its answer. Refuses what may not come.
    pub fn change(
        &mut self,
        alloc: Global,
        change: &Changes<Row<Term>>,
    ) -> Result<Changes<Row<Term>>, Refused>
        ensures rows { IfOk result (λ net. IsSum self.old.0 change.now self.new.0) }
        ensures answers { IfOk result (λ net. IsSum self.old.1 net self.new.1) }
        ensures misfit { IsErrOf result Misfit → self.new ≡ self.old }
        ensures missing { IsErrOf result Missing → self.new ≡ self.old }
    {
        if !self.ready {
            return Err(Refused::GaveUp);
        }
        self.side.check(change)?;
        self.ready = false;
        self.side.take(change)?;
        let net = self.operator.apply(alloc, change, &mut self.domain)?;
        self.answers.add_changes(&net)?;
        self.ready = true;
        Ok(net)
    }

    /// Gives the operator the change of these lines, and tells whether it answers that of the wanted ones.
    pub fn gives(
        &mut self,
        alloc: Global,
        lines: &[Line],
        wanted: &[Line],
    ) -> Result<bool, Refused> {
        let net = self.change(alloc, &change(alloc, lines)?)?;
        Ok(is_change(alloc, &net, wanted)?)
    }

    /// The rows that the input holds.
    pub fn rows(&self) -> &Bag<Term>
        ensures { result.now ≡ self.now.0 }
    {
        &self.side.rows
    }

    /// The sum of all answers so far: the operator's value, if nothing was refused for want of memory.
    pub fn answers(&self) -> &Changes<Row<Term>>
        ensures { result.now ≡ self.now.1 }
    {
        &self.answers
    }

    /// The operator.
    pub fn operator(&self) -> &O {
        &self.operator
    }
}
