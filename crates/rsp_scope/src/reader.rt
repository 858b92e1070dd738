// What is asked of a fact before it is taken.
ghost use Rattle.std.specs.Prelude.{◌≡◌, ◌+ℤ◌, true, IfOk, OnOk};
ghost use Rattle.rsp_multiset.specs.Weights.{only, weight};
ghost use Rattle.rsp_terms.specs.declared.statement.Fact.{Fact};
ghost use Rattle.rsp_terms.specs.Same.{fact_eq};

use rsp_multiset::{Changes, Count};
use rsp_terms::Fact;
use std::alloc::{AllocError, Global};

/// One that reads some facts alone, as a query does: it is given no others.
pub trait Reader {
    ghost use Rattle.std.specs.Prelude.{◌≡◌, Bool};
    ghost use Rattle.rsp_terms.specs.declared.statement.Fact.{Fact};

    ghost is_read: { Self → Fact → Bool };

    /// Whether it reads the fact. Takes no memory.
    fn reads(&self, fact: &Fact) -> bool
        ensures { result ≡ is_read self.now fact.now };
}

/// Adds so many of the fact where the reader reads it. No other fact is shared.
pub(crate) fn add_read<R: Reader>(
    changes: &mut Changes<Fact>,
    fact: &Fact,
    count: Count,
    reader: &R,
) -> Result<(), AllocError>
    ensures { OnOk result ((q : Fact) → weight fact_eq changes.new q
        ≡ weight fact_eq changes.old q +ℤ only (R.is_read reader.now q) (only (fact_eq q fact.now) count)) }
{
    if reader.reads(fact) {
        return changes.add(fact.share()?, count);
    }
    Ok(())
}

/// What the reader reads of a change.
pub fn part_read<R: Reader>(
    alloc: Global,
    changes: Changes<Fact>,
    reader: &R,
) -> Result<Changes<Fact>, AllocError>
    ensures { IfOk result (λ read. (q : Fact)
        → weight fact_eq read q ≡ only (R.is_read reader.now q) (weight fact_eq changes q)) }
{
    if reads_all(&changes, reader) {
        return Ok(changes);
    }
    let mut read = Changes::new(alloc);
    take_read(&mut read, changes, reader)?;
    Ok(read)
}

fn reads_all<R: Reader>(changes: &Changes<Fact>, reader: &R) -> bool
    ensures { result ≡ true → (q : Fact)
        → weight fact_eq changes.now q ≡ only (R.is_read reader.now q) (weight fact_eq changes.now q) }
{
    for index in 0..changes.distinct() {
        let (fact, _) = changes.counted_at(index);
        if !reader.reads(fact) {
            return false;
        }
    }
    true
}

fn take_read<R: Reader>(
    read: &mut Changes<Fact>,
    mut changes: Changes<Fact>,
    reader: &R,
) -> Result<(), AllocError>
    ensures { OnOk result ((q : Fact) → weight fact_eq read.new q
        ≡ weight fact_eq read.old q +ℤ only (R.is_read reader.now q) (weight fact_eq changes q)) }
{
    while let Some((fact, count)) = changes.pop() {
        take_if_read(read, fact, count, reader)?;
    }
    Ok(())
}

fn take_if_read<R: Reader>(
    read: &mut Changes<Fact>,
    fact: Fact,
    count: Count,
    reader: &R,
) -> Result<(), AllocError>
    ensures { OnOk result ((q : Fact) → weight fact_eq read.new q
        ≡ weight fact_eq read.old q +ℤ only (R.is_read reader.now q) (only (fact_eq q fact) count)) }
{
    if reader.reads(&fact) {
        return read.add(fact, count);
    }
    Ok(())
}
