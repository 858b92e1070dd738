// Groups and the algebra.
ghost use Rattle.std.specs.Prelude.{◌≡◌, ℕ, List, [], Option, map};
ghost use Rattle.std.specs.List.{AllZip};
ghost use Rattle.rsp_aggregates.specs.Folds.{folding_aggregate, FoldingStands};
ghost use Rattle.rsp_algebra.specs.Solutions.{grouped};
ghost use Rattle.rsp_expr.specs.Aggregates.{aggregate_value};
ghost use Rattle.rsp_expr.specs.Formulas.{Aggregation};
ghost use Rattle.rsp_expr.specs.Groups.{grouped_by};
ghost use Rattle.rsp_expr.specs.Meanings.{aggregation_of};
ghost use Rattle.rsp_groups.specs.Values.{by_variable};
ghost use Rattle.rsp_multiset.specs.Rows.{Cells};
ghost use Rattle.rsp_terms.specs.declared.term.Term.{Term};
ghost use Rattle.rsp_group_laws.specs.Alike.{IsArgument, IsAggregate};

use rsp_aggregates::Folding;
use rsp_expr::Aggregate;
use rsp_folds::Fold;
use rsp_groups::GroupOp;
use rsp_operators::Computed;
use rsp_terms::Domain;
use std::alloc::Global;

/// The fold of an aggregate of the algebra, with nothing in it: over the values of its argument in the rows of a group it is
/// that aggregate of the group. Takes no memory.
pub fn folding_of(alloc: Global, aggregate: &Aggregate) -> Folding
    ensures value { (of : Cells Term → Option Term) (group : List (Cells Term)) → IsArgument of (aggregation_of aggregate.now)
        → folding_aggregate result (map of group) ≡ aggregate_value (aggregation_of aggregate.now) group }
    ensures nothing { FoldingStands result [] }
{
    match &aggregate.argument {
        None => Folding::new(alloc, aggregate.kind, aggregate.distinct, true),
        Some(_) => Folding::new(alloc, aggregate.kind, aggregate.distinct, false),
    }
}

/// The value of groups whose aggregates are these of the algebra is the algebra's Group and AggregateJoin of them.
pub fn value_is_grouped<D: Domain, C: Computed<D> + Drop, F: Fold>(operator: &GroupOp<D, C, F>)
    ensures { (aggregates : List (ℕ × Aggregation)) (rows : List (Cells Term))
        → AllZip (λ a aggregate. IsAggregate a.variable (λ group. F.aggregate a.fold (map (C.of a.argument) group)) aggregate)
        operator.now.grouping.aggregates.items aggregates
        → grouped_by (λ a group. F.aggregate a.fold (map (C.of a.argument) group)) operator.now.grouping.width
        operator.now.grouping.keys.items (by_variable (λ a. a.variable) operator.now.grouping.aggregates.items) rows
        ≡ grouped operator.now.grouping.width operator.now.grouping.keys.items aggregates rows }
{
    let _operator = operator;
}
