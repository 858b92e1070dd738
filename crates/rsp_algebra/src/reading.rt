// Which facts a tree reads.
ghost use Rattle.std.specs.Prelude.{◌≡◌, ◌||◌, ℕ, Bool, List, filter, None, IfSome};
ghost use Rattle.rsp_multiset.specs.Weights.{IsSameMultiset};
ghost use Rattle.rsp_terms.specs.declared.statement.Fact.{Fact};
ghost use Rattle.rsp_terms.specs.Same.{fact_eq};
ghost use Rattle.rsp_algebra.specs.Meanings.{node_of};
ghost use Rattle.rsp_algebra.specs.Overfull.{overfull};
ghost use Rattle.rsp_algebra.specs.Reading.{stands_for, has_graph, reads as is_read, Passes};
ghost use Rattle.rsp_algebra.specs.Solutions.{eval};
ghost use Rattle.rsp_algebra.specs.Spines.{first_of};
ghost use Rattle.rsp_algebra.specs.Work.{work};

use crate::descent::{first_child, second_child};
use crate::{Place, Tree};
use rsp_expr::Slot;
use rsp_terms::{Fact, Spot, Term};

fn stands_for(slot: &Slot, term: &Term) -> bool
    ensures { result ≡ stands_for slot.now term.now }
{
    match slot {
        Slot::Variable(_) => true,
        Slot::Constant(constant) => constant == term,
    }
}

fn has_graph(place: &Place, spot: &Spot) -> bool
    ensures { result ≡ has_graph place.now spot.now }
{
    match (place, spot) {
        (Place::Default, Spot::Default) => true,
        (Place::Named(name), Spot::Named(other)) => name == other,
        (Place::AnyNamed(_), Spot::Named(_)) => true,
        (Place::Window(index), Spot::Window(other)) => index == other,
        _ => false,
    }
}

fn leaf_reads(leaf: &Tree, fact: &Fact) -> bool
    requires { first_of leaf.now ≡ None }
    ensures { result ≡ is_read (node_of leaf.now) fact.now }
{
    match leaf {
        Tree::Pattern {
            place,
            subject,
            predicate,
            object,
        } => {
            has_graph(place, &fact.spot)
                && stands_for(subject, &fact.triple.subject)
                && stands_for(predicate, &fact.triple.predicate)
                && stands_for(object, &fact.triple.object)
        }
        _ => false,
    }
}

impl Tree {
    /// Whether some pattern of the tree has the fact's graph and can stand for its triple. What no pattern reads makes no
    /// difference: not to the solutions, to whether the tree is overfull, nor to how many steps a change may take; nor does
    /// the order of the facts to these steps. Along first children it goes by a loop, since a union in a text has thousands
    /// of groups. Takes no memory.
    pub fn reads(&self, fact: &Fact) -> bool
        ensures read { result ≡ is_read (node_of self.now) fact.now }
        ensures value { (width : ℕ) (test : Fact → Bool) (facts : List Fact) → Passes (node_of self.now) test
            → eval width (node_of self.now) (filter test facts) ≡ eval width (node_of self.now) facts }
        ensures overfull { (width : ℕ) (test : Fact → Bool) (facts : List Fact) → Passes (node_of self.now) test
            → overfull width (node_of self.now) (filter test facts) ≡ overfull width (node_of self.now) facts }
        ensures work { (width : ℕ) (test : Fact → Bool) (before after : List Fact) → Passes (node_of self.now) test
            → work width (node_of self.now) (filter test before) (filter test after) ≡ work width (node_of self.now) before after }
        ensures facts { (width : ℕ) (before after before' after' : List Fact)
            → IsSameMultiset fact_eq before before' → IsSameMultiset fact_eq after after'
            → work width (node_of self.now) before after ≡ work width (node_of self.now) before' after' }
    {
        tree_reads(self, fact)
    }
}

#[cycle(reads)]
fn tree_reads(tree: &Tree, fact: &Fact) -> bool
    ensures { result ≡ is_read (node_of tree.now) fact.now }
{
    let mut at = tree;
    while let Some(first) = first_child(at) {
        if second_reads(at, fact) {
            return true;
        }
        at = first;
    }
    leaf_reads(at, fact)
}

// whether the right child reads it, if there is one
#[cycle(reads)]
fn second_reads(tree: &Tree, fact: &Fact) -> bool
    ensures { IfSome (first_of tree.now) (λ first. is_read (node_of tree.now) fact.now
        ≡ (is_read (node_of first) fact.now || result)) }
{
    match second_child(tree) {
        Some(right) => tree_reads(right, fact),
        None => false,
    }
}
