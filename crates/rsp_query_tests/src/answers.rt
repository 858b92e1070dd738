// Laws of every answer, from the clauses of `Answer` alone.
ghost use Rattle.std.specs.Prelude.{◌≡◌, ◌+◌, false, IfOk, IfSome, ◌+ℤ◌};
ghost use Rattle.rsp_multiset.specs.Weights.{weight, times, IsChanged};
ghost use Rattle.rsp_multiset.specs.Rows.{row_eq};
ghost use Rattle.rsp_terms.specs.declared.statement.Fact.{Fact};
ghost use Rattle.rsp_terms.specs.Same.{term_eq, fact_eq};
ghost use Rattle.rsp_algebra.specs.Solutions.{eval};
ghost use Rattle.rsp_algebra.specs.Overfull.{overfull};
ghost use Rattle.rsp_algebra.specs.Changing.{IsSet, MayChange, IfNet};

use rsp_algebra::{Answer, Turn};
use rsp_multiset::{Bag, Changes};
use rsp_steps::Steps;
use rsp_terms::{Fact, Term};
use std::alloc::AllocError;
use std::sync::ledger::Ledger;

// What the clauses give to whoever uses an answer: the solutions after a change are those of the new facts, and there is
// no answer where the tree is overfull.
fn solutions_after<A: Answer, L: Ledger>(
    answer: &mut A,
    changes: &Changes<Fact>,
    steps: &mut Steps<L>,
) -> Result<Option<Bag<Term>>, AllocError>
    requires ready { A.spent answer.old ≡ false }
    requires allowed { MayChange (A.facts answer.old) changes.now }
    ensures facts { IfOk result (λ _. IsChanged fact_eq (A.facts answer.old) changes.now (A.facts answer.new)) }
    ensures set { IfOk result (λ _. IsSet (A.facts answer.new)) }
    ensures node { IfOk result (λ _. A.node answer.new ≡ A.node answer.old) }
    ensures width { IfOk result (λ _. A.width answer.new ≡ A.width answer.old) }
    ensures some { IfOk result (λ solutions. IfSome solutions (λ bag. (q : _) → weight (row_eq term_eq) bag q
        ≡ times (row_eq term_eq) (eval (A.width answer.new) (A.node answer.new) (A.facts answer.new)) q)) }
    ensures fits { IfOk result (λ solutions. IfSome solutions (λ _.
        overfull (A.width answer.old) (A.node answer.old) (A.facts answer.new) ≡ false)) }
{
    match answer.change(changes, steps)? {
        Turn::Overfull => Ok(None),
        Turn::Net(_) => held(answer),
    }
}

// the solutions that an answer holds
fn held<A: Answer>(answer: &A) -> Result<Option<Bag<Term>>, AllocError>
    requires { A.spent answer.now ≡ false }
    ensures { IfOk result (λ solutions. IfSome solutions (λ bag. (q : _) → weight (row_eq term_eq) bag q
        ≡ times (row_eq term_eq) (eval (A.width answer.now) (A.node answer.now) (A.facts answer.now)) q)) }
{
    Ok(Some(answer.solutions()?))
}

// the change and the old solutions give the new ones
fn change_of<A: Answer, L: Ledger>(
    answer: &mut A,
    changes: &Changes<Fact>,
    steps: &mut Steps<L>,
) -> Result<Turn, AllocError>
    requires ready { A.spent answer.old ≡ false }
    requires allowed { MayChange (A.facts answer.old) changes.now }
    ensures net { IfOk result (λ turn. IfNet turn (λ net. (q : _)
        → times (row_eq term_eq) (eval (A.width answer.old) (A.node answer.old) (A.facts answer.new)) q
        ≡ times (row_eq term_eq) (eval (A.width answer.old) (A.node answer.old) (A.facts answer.old)) q
        +ℤ weight (row_eq term_eq) net q)) }
{
    answer.change(changes, steps)
}
