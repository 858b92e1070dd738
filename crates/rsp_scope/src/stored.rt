// Stored quads.
ghost use Rattle.std.specs.Prelude.{◌≡◌, ◌<◌, ◌≤◌, ◌+ℤ◌, ℕ, [], take, drop, length, map, IfOk, IfErr, OnOk, OnErr};
ghost use Rattle.std.specs.List.{IsDistinct};
ghost use Rattle.rsp_spec.specs.Limits.{most_quads};
ghost use Rattle.rsp_multiset.specs.Weights.{only, times, weight, IsChanged, IsSameMultiset};
ghost use Rattle.rsp_terms.specs.declared.statement.Fact.{Fact};
ghost use Rattle.rsp_terms.specs.Same.{fact_eq};
ghost use Rattle.rsp_scope.specs.Quads.{fact_of, stored_with, stored_without};
ghost use Rattle.rsp_scope.specs.Faults.{IsStoredFault};
ghost use Rattle.rsp_scope.specs.Putting.{IsUncounted};

use crate::reader::{Reader, add_read};
use crate::removal::{stored_among, take_out};
use crate::room::counted;
use indexmap::IndexSet;
use rsp_multiset::{Changes, Count};
use rsp_spec::limits::MOST_QUADS;
use rsp_terms::{Fact, Quad, Spot};
use std::alloc::{AllocError, Global};
use std::marker::Model;
use thiserror::Error;

/// Why quads weren't stored.
#[derive(Debug, Drop, Error)]
pub enum StoredFault {
    /// So many quads would be stored, more than can be.
    #[error("the store is full: {quads} quads")]
    StoreFull { quads: u64 },
    /// Memory was refused.
    #[error("out of memory")]
    OutOfMemory,
}

impl From<AllocError> for StoredFault {
    ghost use Rattle.std.specs.Prelude.{◌≡◌};
    ghost use Rattle.rsp_scope.specs.declared.stored.StoredFault.TheVariants.{OutOfMemory};

    ghost from_gives = { λ _ fault. fault ≡ OutOfMemory };

    fn from(_refused: AllocError) -> StoredFault {
        StoredFault::OutOfMemory
    }
}

/// The stored quads, as distinct facts in the order in which they came.
#[derive(Drop)]
pub struct Stored {
    alloc: Global,
    facts: IndexSet<Fact>,
}

impl Model for Stored {
    ghost use Rattle.std.specs.Prelude.{List};
    ghost use Rattle.rsp_terms.specs.declared.statement.Fact.{Fact};

    ghost Value = { List Fact };

    ghost view = { λ s. s.facts.keys };
}

impl Stored {
    ghost use Rattle.std.specs.Prelude.{◌≡◌, ◌<◌, ◌≤◌, ◌+ℤ◌, ℕ, [], take, drop, length, map, IfOk, OnOk, OnErr, IfErr};
    ghost use Rattle.std.specs.List.{IsDistinct};
    ghost use Rattle.rsp_spec.specs.Limits.{most_quads};
    ghost use Rattle.rsp_multiset.specs.Weights.{only, times, weight, IsChanged, IsSameMultiset};
    ghost use Rattle.rsp_terms.specs.declared.statement.Fact.{Fact};
    ghost use Rattle.rsp_terms.specs.Same.{fact_eq};
    ghost use Rattle.rsp_scope.specs.Quads.{fact_of, stored_with, stored_without};
    ghost use Rattle.rsp_scope.specs.Faults.{IsStoredFault};

    /// No quads. Takes no memory.
    pub fn new(alloc: Global) -> Stored
        ensures { result ≡ [] }
    {
        Stored {
            alloc,
            facts: IndexSet::new(alloc),
        }
    }

    /// How many quads are stored.
    pub fn count(&self) -> u64
        ensures count { result ≡ length self.now }
        ensures once { IsDistinct fact_eq self.now }
    {
        self.facts.len() as u64
    }

    /// Stores the quads that aren't stored. Gives what came in. A refusal, want of memory too, leaves all as it was. Memory is
    /// wanted only where the quads would fit.
    pub fn insert(&mut self, quads: &[Quad]) -> Result<Changes<Fact>, StoredFault>
        ensures stored { OnOk result (self.new ≡ stored_with self.old quads.now) }
        ensures change { IfOk result (λ change. IsChanged fact_eq self.old change self.new) }
        ensures within { OnOk result (length self.new ≤ most_quads) }
        ensures fault { IfErr result (λ fault. IsStoredFault (length (stored_with self.old quads.now)) fault) }
        ensures err { OnErr result (self.new ≡ self.old) }
    {
        let before = self.facts.len();
        match put_within(self.alloc, &mut self.facts, quads) {
            Ok(change) => Ok(change),
            Err(fault) => {
                self.facts.truncate(before);
                Err(counted(fault, self.facts.as_slice(), quads))
            }
        }
    }

    /// Takes out the named quads that are stored. Gives what went. The order of those that stay is left open. Want of
    /// memory leaves all as it was.
    pub fn delete(&mut self, quads: &[Quad]) -> Result<Changes<Fact>, AllocError>
        ensures stored { OnOk result (IsSameMultiset fact_eq self.new (stored_without self.old quads.now)) }
        ensures once { OnOk result (IsDistinct fact_eq self.new) }
        ensures change { IfOk result (λ change. IsChanged fact_eq self.old change self.new) }
        ensures err { OnErr result (self.new ≡ self.old) }
    {
        delete_from(self.alloc, &mut self.facts, quads)
    }

    /// Every stored quad that the reader reads, as a fact, once.
    pub fn facts<R: Reader>(&self, reader: &R) -> Result<Changes<Fact>, AllocError>
        ensures { IfOk result (λ change. (q : Fact)
            → weight fact_eq change q ≡ only (R.is_read reader.now q) (times fact_eq self.now q)) }
    {
        read_of(self.alloc, self.facts.as_slice(), reader)
    }
}

// what was there stays in front, also on a refusal
fn put_within(
    alloc: Global,
    facts: &mut IndexSet<Fact>,
    quads: &[Quad],
) -> Result<Changes<Fact>, StoredFault>
    ensures stored { OnOk result (facts.new.keys ≡ stored_with facts.old.keys quads.now) }
    ensures change { IfOk result (λ change. IsChanged fact_eq facts.old.keys change facts.new.keys) }
    ensures within { OnOk result (length facts.new.keys ≤ most_quads) }
    ensures fault { IfErr result (IsUncounted (length (stored_with facts.old.keys quads.now))) }
    ensures kept { take (length facts.old.keys) facts.new.keys ≡ facts.old.keys }
{
    let before = facts.len();
    put_all(facts, quads)?;
    let stored = facts.len() as u64;
    if stored > MOST_QUADS {
        return Err(StoredFault::StoreFull { quads: stored });
    }
    let change = changes_of(alloc, &facts.as_slice()[before..])?;
    Ok(change)
}

// all that takes memory comes before what changes
fn delete_from(
    alloc: Global,
    facts: &mut IndexSet<Fact>,
    quads: &[Quad],
) -> Result<Changes<Fact>, AllocError>
    ensures stored { OnOk result (IsSameMultiset fact_eq facts.new.keys (stored_without facts.old.keys quads.now)) }
    ensures once { OnOk result (IsDistinct fact_eq facts.new.keys) }
    ensures change { IfOk result (λ change. IsChanged fact_eq facts.old.keys change facts.new.keys) }
    ensures err { OnErr result (facts.new.keys ≡ facts.old.keys) }
{
    let gone = stored_among(alloc, facts, quads)?;
    let mut change = changes_of(alloc, gone.as_slice())?;
    change.negate();
    take_out(facts, gone.as_slice());
    Ok(change)
}

fn read_of<R: Reader>(
    alloc: Global,
    facts: &[Fact],
    reader: &R,
) -> Result<Changes<Fact>, AllocError>
    ensures { IfOk result (λ change. (q : Fact)
        → weight fact_eq change q ≡ only (R.is_read reader.now q) (times fact_eq facts.now q)) }
{
    let mut changes = Changes::new(alloc);
    let once = Count::of_many(1)?;
    for fact in facts {
        add_read(&mut changes, fact, once, reader)?;
    }
    Ok(changes)
}

fn changes_of(alloc: Global, facts: &[Fact]) -> Result<Changes<Fact>, AllocError>
    ensures { IfOk result (λ change. (q : Fact) → weight fact_eq change q ≡ times fact_eq facts.now q) }
{
    let mut changes = Changes::new(alloc);
    add_each(&mut changes, facts)?;
    Ok(changes)
}

fn add_each(changes: &mut Changes<Fact>, facts: &[Fact]) -> Result<(), AllocError>
    ensures { OnOk result ((q : Fact)
        → weight fact_eq changes.new q ≡ weight fact_eq changes.old q +ℤ times fact_eq facts.now q) }
{
    for fact in facts {
        changes.alter(fact.share()?, 1)?;
    }
    Ok(())
}

// puts the quads that aren't there at the end; what was there stays in front, also on a failure
fn put_all(facts: &mut IndexSet<Fact>, quads: &[Quad]) -> Result<(), AllocError>
    ensures stored { OnOk result (facts.new.keys ≡ stored_with facts.old.keys quads.now) }
    ensures kept { take (length facts.old.keys) facts.new.keys ≡ facts.old.keys }
{
    for quad in quads {
        let fact = fact_of(quad)?;
        facts.insert(fact)?;
    }
    Ok(())
}

/// The quad as a fact of its graph.
pub(crate) fn fact_of(quad: &Quad) -> Result<Fact, AllocError>
    ensures { IfOk result (λ fact. fact ≡ fact_of quad.now) }
{
    let triple = quad.triple.share()?;
    let spot = spot_of(quad)?;
    Ok(Fact { spot, triple })
}

fn spot_of(quad: &Quad) -> Result<Spot, AllocError>
    ensures { IfOk result (λ spot. spot ≡ (fact_of quad.now).spot) }
{
    match &quad.graph {
        None => Ok(Spot::Default),
        Some(name) => Ok(Spot::Named(name.share()?)),
    }
}
