// The facts that are kept.
ghost use Rattle.std.specs.Prelude.{◌≡◌, ◌∷◌, [], pos, negsuc, OnOk};
ghost use Rattle.rsp_multiset.specs.Weights.{times, IsChanged};
ghost use Rattle.rsp_terms.specs.Same.{fact_eq};
ghost use Rattle.rsp_algebra.specs.Changing.{IsSet, MayChange};
ghost use Rattle.rsp_eval.specs.Facts.{MayCome};

use indexmap::IndexSet;
use rsp_multiset::{Changes, Count};
use rsp_terms::Fact;
use std::alloc::AllocError;

fn add_fact(facts: &mut IndexSet<Fact>, fact: &Fact) -> Result<(), AllocError>
    requires set { IsSet facts.old.keys }
    requires absent { times fact_eq facts.old.keys fact.now ≡ pos 0 }
    ensures set { IsSet facts.new.keys }
    ensures changed { OnOk result (IsChanged fact_eq facts.old.keys ((fact.now, pos 1) ∷ []) facts.new.keys) }
{
    facts.insert(fact.share()?)?;
    Ok(())
}

fn remove_fact(facts: &mut IndexSet<Fact>, fact: &Fact)
    requires set { IsSet facts.old.keys }
    requires there { times fact_eq facts.old.keys fact.now ≡ pos 1 }
    ensures set { IsSet facts.new.keys }
    ensures changed { IsChanged fact_eq facts.old.keys ((fact.now, negsuc 0) ∷ []) facts.new.keys }
{
    facts.swap_remove(fact);
}

// a fact that isn't there comes, or one that is there goes
fn change_fact(facts: &mut IndexSet<Fact>, fact: &Fact, by: Count) -> Result<(), AllocError>
    requires set { IsSet facts.old.keys }
    requires allowed { MayCome facts.old.keys fact.now by }
    ensures set { IsSet facts.new.keys }
    ensures changed { OnOk result (IsChanged fact_eq facts.old.keys ((fact.now, by) ∷ []) facts.new.keys) }
{
    if by.is_negative() {
        remove_fact(facts, fact);
        Ok(())
    } else {
        add_fact(facts, fact)
    }
}

/// Takes the changes into the facts.
pub(crate) fn change_facts(
    facts: &mut IndexSet<Fact>,
    changes: &Changes<Fact>,
) -> Result<(), AllocError>
    requires { MayChange facts.old.keys changes.now }
    ensures { OnOk result (IsChanged fact_eq facts.old.keys changes.now facts.new.keys) }
{
    let _unique = facts.len();
    for index in 0..changes.distinct() {
        let (fact, by) = changes.counted_at(index);
        change_fact(facts, fact, by)?;
    }
    Ok(())
}
