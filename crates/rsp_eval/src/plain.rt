// An answer that is evaluated anew.
ghost use Rattle.std.specs.Prelude.{◌≡◌, false, is_none, IfOk, IfSome, OnOk, []};
ghost use Rattle.std.specs.Option.{ForSome};
ghost use Rattle.rsp_multiset.specs.Weights.{IsChanged};
ghost use Rattle.rsp_terms.specs.Same.{fact_eq};
ghost use Rattle.rsp_algebra.specs.Fitting.{Fits-prop, Fits, IsPlaced};
ghost use Rattle.rsp_algebra.specs.Meanings.{node_of};
ghost use Rattle.rsp_algebra.specs.Solutions.{eval};
ghost use Rattle.rsp_algebra.specs.Overfull.{overfull};
ghost use Rattle.rsp_algebra.specs.Changing.{IsSet, MayChange};
ghost use Rattle.rsp_algebra.specs.Solutions.{same_row};

use crate::changing::{bag_of, difference};
use crate::evaluation::evaluate;
use crate::facts::change_facts;
use indexmap::IndexSet;
use rsp_algebra::{Answer, Translated, Tree, Turn};
use rsp_multiset::{Bag, Changes, Row};
use rsp_steps::Steps;
use rsp_terms::{Fact, Term};
use std::alloc::{AllocError, Global};
use std::sync::ledger::Ledger;

/// An answer that keeps its facts and evaluates its tree anew at each change. It takes no step.
#[derive(Drop)]
pub struct Plain {
    alloc: Global,
    tree: Tree,
    width: usize,
    facts: IndexSet<Fact>,
    /// The rows over the facts; None once the answer is spent.
    rows: Option<Vec<Row<Term>>>,
    ghost fits: { Fits width (node_of tree) } by { Fits-prop width (node_of tree) },
    ghost kept: { ForSome rows (λ kept. kept.items ≡ eval width (node_of tree) facts.keys) },
}

// the rows after the changes and how they differ from those before; None exactly where the tree is overfull
fn evaluate_anew(
    alloc: Global,
    tree: &Tree,
    width: usize,
    facts: &mut IndexSet<Fact>,
    before: Vec<Row<Term>>,
    changes: &Changes<Fact>,
) -> Result<Option<(Vec<Row<Term>>, Changes<Row<Term>>)>, AllocError>
    requires fits { Fits width (node_of tree.now) }
    requires allowed { MayChange facts.old.keys changes.now }
    ensures facts { OnOk result (IsChanged fact_eq facts.old.keys changes.now facts.new.keys) }
    ensures set { OnOk result (IsSet facts.new.keys) }
    ensures none { IfOk result (λ turn. is_none turn ≡ overfull width (node_of tree.now) facts.new.keys) }
    ensures rows { IfOk result (λ turn. IfSome turn (λ turn. turn.0.items ≡ eval width (node_of tree.now) facts.new.keys)) }
    ensures net { IfOk result (λ turn. IfSome turn (λ turn. IsChanged same_row before.items turn.1 turn.0.items)) }
{
    change_facts(facts, changes)?;
    match evaluate(alloc, tree, width, facts.as_slice())? {
        None => Ok(None),
        Some(after) => {
            let net = difference(alloc, after.as_slice(), before)?;
            Ok(Some((after, net)))
        }
    }
}

// an answer over no facts; the tree is shared last, so that it is never let go
fn with_rows(
    alloc: Global,
    translated: &Translated,
    rows: Vec<Row<Term>>,
) -> Result<Plain, AllocError>
    requires placed { IsPlaced translated.now }
    requires rows { rows.items ≡ eval translated.now.width (node_of translated.now.tree) [] }
    ensures node { IfOk result (λ answer. node_of answer.tree ≡ node_of translated.now.tree) }
    ensures width { IfOk result (λ answer. answer.width ≡ translated.now.width) }
    ensures facts { IfOk result (λ answer. answer.facts.keys ≡ []) }
    ensures ready { IfOk result (λ answer. is_none answer.rows ≡ false) }
{
    Ok(Plain {
        alloc,
        width: translated.width,
        facts: IndexSet::new(alloc),
        rows: Some(rows),
        tree: translated.tree.share(alloc)?,
    })
}

impl Answer for Plain {
    ghost use Rattle.std.specs.Prelude.{◌≡◌, ◌+◌, ◌≤◌, false, is_none, not, IfOk, List};
    ghost use Rattle.rsp_terms.specs.declared.statement.Fact.{Fact};
    ghost use Rattle.rsp_algebra.specs.Meanings.{node_of};
    ghost use Rattle.rsp_algebra.specs.Work.{work};
    ghost use Rattle.rsp_algebra.specs.Changing.{IfNet, goes_on, is_overfull};

    ghost node = { λ p. node_of p.tree };

    ghost width = { λ p. p.width };

    ghost facts = { λ p. p.facts.keys };

    ghost spent = { λ p. is_none p.rows };

    fn start(alloc: Global, translated: &Translated) -> Result<Option<Plain>, AllocError> {
        match evaluate(alloc, &translated.tree, translated.width, &[])? {
            None => Ok(None),
            Some(rows) => Ok(Some(with_rows(alloc, translated, rows)?)),
        }
    }

    fn change<L: Ledger>(
        &mut self,
        changes: &Changes<Fact>,
        steps: &mut Steps<L>,
    ) -> Result<Turn, AllocError>
        requires ready { is_none self.old.rows ≡ false }
        requires allowed { MayChange self.old.facts.keys changes.now }
        ensures node { node_of self.new.tree ≡ node_of self.old.tree }
        ensures width { self.new.width ≡ self.old.width }
        ensures facts { IfOk result (λ _. IsChanged fact_eq self.old.facts.keys changes.now self.new.facts.keys) }
        ensures set { IfOk result (λ _. IsSet self.new.facts.keys) }
        ensures overfull { IfOk result (λ turn. is_overfull turn
            ≡ overfull self.old.width (node_of self.old.tree) self.new.facts.keys) }
        ensures net { IfOk result (λ turn. IfNet turn (λ net. IsChanged same_row
            (eval self.old.width (node_of self.old.tree) self.old.facts.keys) net
            (eval self.old.width (node_of self.old.tree) self.new.facts.keys))) }
        ensures spent { is_none self.new.rows ≡ not (goes_on result) }
        ensures cost { (after : List Fact) → IsSet after → IsChanged fact_eq self.old.facts.keys changes.now after
            → steps.new ≤ steps.old + work self.old.width (node_of self.old.tree) self.old.facts.keys after }
        ensures steps { steps.new ≡ steps.old }
    {
        let _ = steps;
        let Some(before) = self.rows.take() else {
            unreachable!();
        };
        let turn = evaluate_anew(
            self.alloc,
            &self.tree,
            self.width,
            &mut self.facts,
            before,
            changes,
        )?;
        match turn {
            None => Ok(Turn::Overfull),
            Some((after, net)) => {
                self.rows = Some(after);
                Ok(Turn::Net(net))
            }
        }
    }

    fn solutions(&self) -> Result<Bag<Term>, AllocError> {
        match &self.rows {
            Some(rows) => bag_of(self.alloc, rows.as_slice()),
            None => unreachable!(),
        }
    }
}
