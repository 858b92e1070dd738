// Stored quads that go.
ghost use Rattle.std.specs.Prelude.{◌≡◌, ◌&&◌, ◌||◌, not, IfOk, OnOk};
ghost use Rattle.std.specs.List.{list_any, IsDistinct};
ghost use Rattle.rsp_terms.specs.declared.statement.Fact.{Fact};
ghost use Rattle.rsp_terms.specs.Same.{fact_eq};
ghost use Rattle.rsp_scope.specs.Quads.{names};

use crate::stored::fact_of;
use indexmap::IndexSet;
use rsp_multiset::Cell;
use rsp_terms::{Fact, Quad};
use std::alloc::{AllocError, Global};

/// The quads that are stored, as facts, each once.
pub(crate) fn stored_among(
    alloc: Global,
    facts: &IndexSet<Fact>,
    quads: &[Quad],
) -> Result<IndexSet<Fact>, AllocError>
    ensures { IfOk result (λ found. (q : Fact)
        → list_any (fact_eq q) found.keys ≡ (list_any (fact_eq q) facts.now.keys && names quads.now q)) }
{
    let mut found = IndexSet::new(alloc);
    for quad in quads {
        add_shared(&mut found, facts, fact_of(quad)?)?;
    }
    Ok(found)
}

// puts the value in if it is among the others
fn add_shared<V: Cell>(
    found: &mut IndexSet<V>,
    others: &IndexSet<V>,
    value: V,
) -> Result<(), AllocError>
    ensures { OnOk result ((q : V) → list_any (V.eq q) found.new.keys
        ≡ (list_any (V.eq q) found.old.keys || (list_any (V.eq q) others.now.keys && V.eq q value))) }
{
    if others.contains(&value) {
        found.insert(value)?;
    }
    Ok(())
}

/// Takes the values out. The last one comes to stand where one went. Takes no memory.
pub(crate) fn take_out<V: Cell>(values: &mut IndexSet<V>, gone: &[V])
    ensures left { (q : V) → list_any (V.eq q) values.new.keys
        ≡ (list_any (V.eq q) values.old.keys && not (list_any (V.eq q) gone.now)) }
    ensures once { IsDistinct V.eq values.old.keys }
    ensures still_once { IsDistinct V.eq values.new.keys }
{
    // a set's length tells that it holds each once
    let _stored = values.len();
    for value in gone {
        values.swap_remove(value);
    }
}
