// What keeps a query's answer while the facts change.
use crate::Translated;
use rsp_multiset::{Bag, Changes, Row};
use rsp_steps::Steps;
use rsp_terms::{Fact, Term};
use std::alloc::{AllocError, Global};
use std::sync::ledger::Ledger;

/// What a change of the facts makes of a tree's solutions.
#[derive(Drop)]
pub enum Turn {
    /// The solutions after it less those before.
    Net(Changes<Row<Term>>),
    /// Some subtree has more than 1,000,000 solutions after it.
    Overfull,
}

/// A tree and the set of facts over which its solutions are kept.
pub trait Answer: Sized + Drop {
    ghost use Rattle.std.specs.Prelude.{◌≡◌, ℕ, ◌+◌, ◌≤◌, Bool, false, not, is_none, IfOk, IfSome, List, []};
    ghost use Rattle.rsp_multiset.specs.Weights.{weight, times, IsChanged};
    ghost use Rattle.rsp_multiset.specs.Rows.{row_eq};
    ghost use Rattle.rsp_terms.specs.declared.statement.Fact.{Fact};
    ghost use Rattle.rsp_terms.specs.Same.{term_eq};
    ghost use Rattle.rsp_terms.specs.Same.{fact_eq};
    ghost use Rattle.rsp_algebra.specs.Nodes.{Node};
    ghost use Rattle.rsp_algebra.specs.Meanings.{node_of};
    ghost use Rattle.rsp_algebra.specs.Fitting.{IsPlaced};
    ghost use Rattle.rsp_algebra.specs.Solutions.{eval};
    ghost use Rattle.rsp_algebra.specs.Overfull.{overfull as is_too_full};
    ghost use Rattle.rsp_algebra.specs.Work.{work};
    ghost use Rattle.rsp_algebra.specs.Changing.{IsSet, MayChange, is_overfull, IfNet, goes_on};

    ghost node: { Self → Node };

    ghost width: { Self → ℕ };

    ghost facts: { Self → List Fact };

    ghost spent: { Self → Bool };

    /// An answer for this tree over no facts. None exactly where some subtree has more than 1,000,000 solutions over no
    /// facts at all.
    fn start(alloc: Global, translated: &Translated) -> Result<Option<Self>, AllocError>
        requires { IsPlaced translated.now }
        ensures none { IfOk result (λ started. is_none started
            ≡ is_too_full translated.now.width (node_of translated.now.tree) []) }
        ensures node { IfOk result (λ started. IfSome started (λ answer. node answer ≡ node_of translated.now.tree)) }
        ensures width { IfOk result (λ started. IfSome started (λ answer. width answer ≡ translated.now.width)) }
        ensures facts { IfOk result (λ started. IfSome started (λ answer. facts answer ≡ [])) }
        ensures ready { IfOk result (λ started. IfSome started (λ answer. spent answer ≡ false)) };

    /// Takes the changes of the facts and answers how the solutions change; Overfull exactly where some subtree has more
    /// than 1,000,000 solutions over the new facts. After Overfull, or where memory is refused, the answer is spent.
    fn change<L: Ledger>(
        &mut self,
        changes: &Changes<Fact>,
        steps: &mut Steps<L>,
    ) -> Result<Turn, AllocError>
        requires ready { spent self.old ≡ false }
        requires allowed { MayChange (facts self.old) changes.now }
        ensures node { node self.new ≡ node self.old }
        ensures width { width self.new ≡ width self.old }
        ensures facts { IfOk result (λ _. IsChanged fact_eq (facts self.old) changes.now (facts self.new)) }
        ensures set { IfOk result (λ _. IsSet (facts self.new)) }
        ensures overfull { IfOk result (λ turn. is_overfull turn
            ≡ is_too_full (width self.old) (node self.old) (facts self.new)) }
        ensures net { IfOk result (λ turn. IfNet turn (λ net.
            IsChanged (row_eq term_eq) (eval (width self.old) (node self.old) (facts self.old)) net
            (eval (width self.old) (node self.old) (facts self.new)))) }
        ensures spent { spent self.new ≡ not (goes_on result) }
        ensures cost { (after : List Fact) → IsSet after → IsChanged fact_eq (facts self.old) changes.now after
            → steps.new ≤ steps.old + work (width self.old) (node self.old) (facts self.old) after };

    /// The solutions.
    fn solutions(&self) -> Result<Bag<Term>, AllocError>
        requires { spent self.now ≡ false }
        ensures { IfOk result (λ bag. (q : _) → weight (row_eq term_eq) bag q
            ≡ times (row_eq term_eq) (eval (width self.now) (node self.now) (facts self.now)) q) };
}
