// Each row once.
ghost use Rattle.std.specs.Prelude.{◌≡◌, ◌+ℤ◌, neg_ℤ, IfOk, OnOk};
ghost use Rattle.rsp_multiset.specs.Weights.{only, weight, AreChanges};
ghost use Rattle.rsp_simple_operators.specs.Presence.{presence, crossing};

use rsp_multiset::{Cell, Changes, Count, Row};
use rsp_operators::Unary;
use rsp_terms::Domain;
use std::alloc::{AllocError, Global};

/// Each row once (SPARQL 1.1 Query, section 18.5, Distinct): it answers where the first copy of a row comes, and where
/// the last one goes. It keeps how often each row is there.
#[derive(Drop)]
pub struct Deduping<D: Domain> {
    width: usize,
    rows: Changes<Row<D::Value>>,
}

impl<D: Domain> Deduping<D> {
    ghost use Rattle.std.specs.Prelude.{◌≡◌, [], IfOk};
    ghost use Rattle.rsp_simple_operators.specs.Carried.{StandsFor};

    /// The operator over rows of this width. It stands for no rows, under every domain.
    pub fn new(alloc: Global, width: usize) -> Result<Deduping<D>, AllocError>
        ensures width { IfOk result (λ made. made.width ≡ width) }
        ensures rows { IfOk result (λ made. made.rows ≡ []) }
        ensures nothing { IfOk result (λ made. (domain : D) → StandsFor (D.knows domain) (D.shown domain) made.rows []) }
    {
        Ok(Deduping {
            width,
            rows: Changes::new(alloc),
        })
    }
}

impl<D: Domain> Unary<D> for Deduping<D> {
    ghost use Rattle.std.specs.Prelude.{[]};
    ghost use Rattle.std.specs.Map.{keys_of};
    ghost use Rattle.rsp_multiset.specs.RowLists.{each_once};
    ghost use Rattle.rsp_multiset.specs.Rows.{row_eq};
    ghost use Rattle.rsp_terms.specs.Same.{term_eq};
    ghost use Rattle.rsp_simple_operators.specs.Carried.{StandsFor, carried_kept};

    ghost width = { λ operator. operator.width };

    ghost key = { λ operator. [] };

    ghost value = { λ operator rows. each_once (row_eq term_eq) rows };

    ghost stands = { λ operator domain rows. StandsFor (D.knows domain) (D.shown domain) operator.rows rows };

    ghost kept = { λ operator. keys_of operator.rows };

    ghost carried = { λ operator before after rows alike stands.
        carried_kept (D.knows before) (D.shown before) (D.knows after) (D.shown after) operator.rows rows alike stands };

    fn apply(
        &mut self,
        alloc: Global,
        change: &Changes<Row<D::Value>>,
        _domain: &mut D,
    ) -> Result<Changes<Row<D::Value>>, AllocError> {
        deduped(alloc, &mut self.rows, change)
    }
}

// takes the change to what is kept, and gives what comes for the first time or goes for the last
fn deduped<V: Cell>(
    alloc: Global,
    kept: &mut Changes<V>,
    change: &Changes<V>,
) -> Result<Changes<V>, AllocError>
    ensures change { AreChanges V.eq change.now }
    ensures changes { AreChanges V.eq kept.new }
    ensures kept { OnOk result ((q : V) → weight V.eq kept.new q ≡ weight V.eq kept.old q +ℤ weight V.eq change.now q) }
    ensures net { IfOk result (λ net. (q : V) → weight V.eq net q
        ≡ crossing (weight V.eq kept.old q) (weight V.eq change.now q)) }
{
    let _before = kept.distinct();
    let mut net = Changes::new(alloc);
    for index in 0..change.distinct() {
        let (value, by) = change.counted_at(index);
        cross(&mut net, kept, value, by)?;
    }
    Ok(net)
}

fn cross<V: Cell>(
    net: &mut Changes<V>,
    kept: &mut Changes<V>,
    value: &V,
    by: Count,
) -> Result<(), AllocError>
    ensures changes { AreChanges V.eq kept.new }
    ensures kept { OnOk result ((q : V) → weight V.eq kept.new q ≡ weight V.eq kept.old q +ℤ only (V.eq q value.now) by) }
    ensures net { OnOk result ((q : V) → weight V.eq net.new q
        ≡ weight V.eq net.old q +ℤ only (V.eq q value.now) (crossing (weight V.eq kept.old value.now) by)) }
{
    let _before = kept.distinct();
    let before = kept.count(value);
    let after = before.checked_add(by)?;
    kept.add(value.share()?, by)?;
    net.add(value.share()?, crossed(before, after)?)
}

// what a count that was so large and is now so large adds to the number of distinct values
fn crossed(before: Count, after: Count) -> Result<Count, AllocError>
    ensures { IfOk result (λ sign. sign ≡ presence after +ℤ neg_ℤ (presence before)) }
{
    let came = presence_of(after)?;
    let was = presence_of(before)?;
    came.checked_add(was.opposite())
}

fn presence_of(count: Count) -> Result<Count, AllocError>
    ensures { IfOk result (λ one. one ≡ presence count) }
{
    if count.is_zero() {
        return Ok(Count::zero());
    }
    Count::of_many(1)
}
