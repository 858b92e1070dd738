// Operators on two inputs, on trial.
ghost use Rattle.std.specs.Prelude.{◌≡◌, ◌<◌, List, [], IfOk};
ghost use Rattle.rsp_multiset.specs.Rows.{Cells};
ghost use Rattle.rsp_terms.specs.declared.term.Term.{Term};
ghost use Rattle.rsp_operators.specs.Laws.{Leads, MayBothBeGiven};

use crate::Refused;
use crate::rows::{Line, change, is_change};
use crate::side::Side;
use rsp_multiset::{Bag, Changes, Row};
use rsp_operators::Binary;
use rsp_steps::Steps;
use rsp_terms::{Domain, Same, Term};
use std::alloc::{AllocError, Global};
use std::marker::{Brand, Model};
use std::sync::ledger::{Blank, Ledger};

/// An operator with the rows that its two inputs hold, over terms that show themselves, and the sum of what it answered.
#[derive(Drop)]
pub struct BinaryTrial<O: Binary<Same>> {
    operator: O,
    domain: Same,
    left: Side,
    right: Side,
    answers: Changes<Row<Term>>,
    ready: bool,
}

impl<O: Binary<Same>> Model for BinaryTrial<O> {
    ghost use Rattle.std.specs.Prelude.{◌≡◌, true};
    ghost use Rattle.rsp_trials.specs.Held.{Counted, StandsForBoth};

    ghost Value = { Counted × (Counted × Counted) };

    ghost view = { λ t. (t.left.rows, (t.right.rows, t.answers)) };

    ghost invariant = { λ t. t.ready ≡ true → StandsForBoth (O.width t.operator) (O.key t.operator) (O.stands t.operator t.domain)
        t.left.width t.left.key.items t.left.rows t.right.width t.right.key.items t.right.rows };
}

impl<O: Binary<Same> + Drop> BinaryTrial<O> {
    ghost use Rattle.std.specs.Prelude.{◌≡◌, List, [], IfOk, IsErrOf};
    ghost use Rattle.rsp_trials.specs.Held.{IsSum};
    ghost use Rattle.rsp_trials.specs.declared.refused.Refused.TheVariants.{Misfit, Missing};

    /// The operator as it is made, which stands for no rows on either side. Fails only where memory is refused.
    pub fn new(
        alloc: Global,
        operator: O,
        width: usize,
        key: Vec<usize>,
    ) -> Result<BinaryTrial<O>, AllocError>
        requires width { O.width operator ≡ width }
        requires key { O.key operator ≡ key.items }
        requires nothing { (domain : Same) → O.stands operator domain [] [] }
        ensures lefts { IfOk result (λ made. made.0 ≡ []) }
        ensures rights { IfOk result (λ made. made.1.0 ≡ []) }
        ensures answers { IfOk result (λ made. made.1.1 ≡ []) }
    {
        let others = Vec::from_slice(alloc, &key)?;
        Ok(BinaryTrial {
            operator,
            domain: Same::new(),
            left: Side::new(alloc, width, key),
            right: Side::new(alloc, width, others),
            answers: Changes::new(alloc),
            ready: true,
        })
    }

    /// Gives the operator the changes of both sides, and tells its answer. Refuses what may not come.
    pub fn change(
        &mut self,
        alloc: Global,
        left: &Changes<Row<Term>>,
        right: &Changes<Row<Term>>,
    ) -> Result<Changes<Row<Term>>, Refused>
        ensures lefts { IfOk result (λ net. IsSum self.old.0 left.now self.new.0) }
        ensures rights { IfOk result (λ net. IsSum self.old.1.0 right.now self.new.1.0) }
        ensures answers { IfOk result (λ net. IsSum self.old.1.1 net self.new.1.1) }
        ensures misfit { IsErrOf result Misfit → self.new ≡ self.old }
        ensures missing { IsErrOf result Missing → self.new ≡ self.old }
    {
        if !self.ready {
            return Err(Refused::GaveUp);
        }
        self.left.check(left)?;
        self.right.check(right)?;
        self.ready = false;
        self.left.take(left)?;
        self.right.take(right)?;
        let net = answer::<Same, O, Brand>(
            alloc,
            Blank::new(1),
            &mut self.operator,
            left,
            right,
            &mut self.domain,
        )?;
        self.answers.add_changes(&net)?;
        self.ready = true;
        Ok(net)
    }

    /// Gives the operator the changes of these lines, and tells whether it answers that of the wanted ones.
    pub fn gives(
        &mut self,
        alloc: Global,
        left: &[Line],
        right: &[Line],
        wanted: &[Line],
    ) -> Result<bool, Refused> {
        let net = self.answer_to(alloc, left, right)?;
        Ok(is_change(alloc, &net, wanted)?)
    }

    fn answer_to(
        &mut self,
        alloc: Global,
        left: &[Line],
        right: &[Line],
    ) -> Result<Changes<Row<Term>>, Refused> {
        let left = change(alloc, left)?;
        let right = change(alloc, right)?;
        self.change(alloc, &left, &right)
    }

    /// The rows that the left input holds.
    pub fn lefts(&self) -> &Bag<Term>
        ensures { result.now ≡ self.now.0 }
    {
        &self.left.rows
    }

    /// The rows that the right input holds.
    pub fn rights(&self) -> &Bag<Term>
        ensures { result.now ≡ self.now.1.0 }
    {
        &self.right.rows
    }

    /// The sum of all answers so far: the operator's value, if nothing was refused for want of memory.
    pub fn answers(&self) -> &Changes<Row<Term>>
        ensures { result.now ≡ self.now.1.1 }
    {
        &self.answers
    }

    /// The operator.
    pub fn operator(&self) -> &O {
        &self.operator
    }
}

// the operator's answer, its steps counted and forgotten
fn answer<D: Domain, O: Binary<D>, L: Ledger>(
    alloc: Global,
    blank: Blank,
    operator: &mut O,
    left: &Changes<Row<D::Value>>,
    right: &Changes<Row<D::Value>>,
    domain: &mut D,
) -> Result<Changes<Row<D::Value>>, AllocError>
    requires name { blank.name ≡ L.name }
    requires parts { blank.parts ≡ L.parts }
    requires some { 0 < blank.parts }
    requires given { MayBothBeGiven (O.width operator.old) (O.key operator.old) (D.knows domain.old) (D.shown domain.old)
        (O.stands operator.old domain.old) left.now right.now }
    ensures width { O.width operator.new ≡ O.width operator.old }
    ensures key { O.key operator.new ≡ O.key operator.old }
    ensures law { IfOk result (λ net. (lefts lefts' rights rights' : List (Cells Term))
        → O.stands operator.old domain.old lefts rights
        → Leads (D.shown domain.old) lefts left.now lefts' → Leads (D.shown domain.old) rights right.now rights'
        → O.stands operator.new domain.new lefts' rights') }
{
    let mut steps: Steps<L> = Steps::new(blank);
    operator.apply(alloc, left, right, domain, &mut steps)
}
