// The rows on which a condition holds.
ghost use Rattle.std.specs.Prelude.{◌≡◌, ℤ, ◌+ℤ◌, List, Option, IfOk, OnOk};
ghost use Rattle.std.specs.List.{AllByRecursion};
ghost use Rattle.rsp_multiset.specs.Rows.{row_eq};
ghost use Rattle.rsp_multiset.specs.Shown.{shown_row, IsKnown};
ghost use Rattle.rsp_multiset.specs.Weights.{only, weight, AreChanges};

use rsp_multiset::{Cell, Changes, Count, Row};
use rsp_operators::{Condition, Unary};
use rsp_terms::Domain;
use std::alloc::{AllocError, Global};

/// The rows on which the condition holds (SPARQL 1.1 Query, section 18.5, Filter). It keeps nothing.
#[derive(Drop)]
pub struct Select<C> {
    width: usize,
    condition: C,
}

impl<C> Select<C> {
    ghost use Rattle.std.specs.Prelude.{◌≡◌};

    /// The operator over rows of this width.
    pub fn new(width: usize, condition: C) -> Select<C>
        ensures width { result.width ≡ width }
        ensures condition { result.condition ≡ condition }
    {
        Select { width, condition }
    }
}

impl<D: Domain, C: Condition<D>> Unary<D> for Select<C> {
    ghost use Rattle.std.specs.Prelude.{⊤, [], filter};

    ghost width = { λ operator. operator.width };

    ghost key = { λ operator. [] };

    ghost value = { λ operator rows. filter (C.test operator.condition) rows };

    ghost stands = { λ operator domain rows. ⊤ };

    ghost kept = { λ operator. [] };

    ghost carried = { λ operator before after rows known stands. stands };

    fn apply(
        &mut self,
        alloc: Global,
        change: &Changes<Row<D::Value>>,
        domain: &mut D,
    ) -> Result<Changes<Row<D::Value>>, AllocError> {
        selected(alloc, &self.condition, change, domain)
    }
}

// the entries whose rows pass, with their counts
fn selected<D: Domain, C: Condition<D>>(
    alloc: Global,
    condition: &C,
    change: &Changes<Row<D::Value>>,
    domain: &D,
) -> Result<Changes<Row<D::Value>>, AllocError>
    requires { AllByRecursion (λ (e : List (Option D.Value) × ℤ). IsKnown (D.knows domain.now) e.0) change.now }
    ensures changes { AreChanges (row_eq D.Value.eq) change.now }
    ensures kept { IfOk result (λ net. (q : List (Option D.Value)) → weight (row_eq D.Value.eq) net q
        ≡ only (C.test condition.now (shown_row (D.shown domain.now) q)) (weight (row_eq D.Value.eq) change.now q)) }
{
    let mut net = Changes::new(alloc);
    for index in 0..change.distinct() {
        let (row, count) = change.counted_at(index);
        let passes = condition.holds(row, domain)?;
        add_where(&mut net, passes, row, count)?;
    }
    Ok(net)
}

fn add_where<V: Cell>(
    net: &mut Changes<V>,
    wanted: bool,
    entry: &V,
    count: Count,
) -> Result<(), AllocError>
    ensures { OnOk result ((q : V) → weight V.eq net.new q
        ≡ weight V.eq net.old q +ℤ only wanted (only (V.eq q entry.now) count)) }
{
    if wanted {
        return net.add(entry.share()?, count);
    }
    Ok(())
}
