// Groups on trial.
ghost use Rattle.std.specs.Prelude.{◌≡◌, IfOk};

use super::values::{Line, change};
use rsp_aggregates::Folding;
use rsp_functions::Kind;
use rsp_groups::{Aggregated, GroupOp, Grouping};
use rsp_multiset::{Changes, Row};
use rsp_operators::Computed;
use rsp_terms::{Same, Term};
use rsp_trials::{Refused, UnaryTrial, are_same};
use std::alloc::{AllocError, Global};

/// The value of a variable, an error where it isn't bound.
#[derive(Drop)]
pub(crate) struct Column {
    variable: usize,
}

impl Computed<Same> for Column {
    ghost use Rattle.rsp_multiset.specs.Variables.{cell};

    ghost of = { λ column row. cell row column.variable };

    fn value(&self, row: &Row<Term>, _domain: &mut Same) -> Result<Option<Term>, AllocError> {
        match row.cells().get(self.variable) {
            Some(Some(term)) => Ok(Some(term.share()?)),
            _ => Ok(None),
        }
    }
}

/// An aggregate: the variable for its value, that of its argument, its kind, whether each value counts once, and whether it
/// counts rows.
#[derive(Clone, Copy)]
pub(crate) struct Asked {
    pub(crate) variable: usize,
    pub(crate) argument: usize,
    pub(crate) kind: Kind,
    pub(crate) distinct: bool,
    pub(crate) star: bool,
}

/// The aggregate of variable 1 for variable 2.
pub(crate) fn of_values(kind: Kind, distinct: bool) -> Asked {
    Asked {
        variable: 2,
        argument: 1,
        kind,
        distinct,
        star: false,
    }
}

/// COUNT(*) for variable 2.
pub(crate) fn rows_counted() -> Asked {
    Asked {
        variable: 2,
        argument: 1,
        kind: Kind::Count,
        distinct: false,
        star: true,
    }
}

/// Groups whose rows are on trial.
pub(crate) type Trial = UnaryTrial<GroupOp<Same, Column, Folding>>;

fn aggregated(alloc: Global, asked: &Asked) -> Aggregated<Column, Folding> {
    Aggregated {
        variable: asked.variable,
        argument: Column {
            variable: asked.argument,
        },
        fold: Folding::new(alloc, asked.kind, asked.distinct, asked.star),
    }
}

fn all_aggregated(
    alloc: Global,
    aggregates: &[Asked],
) -> Result<Vec<Aggregated<Column, Folding>>, AllocError> {
    let mut made = Vec::new(alloc);
    for asked in aggregates {
        made.push(aggregated(alloc, asked))?;
    }
    Ok(made)
}

fn grouping(
    alloc: Global,
    keys: &[usize],
    aggregates: &[Asked],
) -> Result<Grouping<Column, Folding>, AllocError>
    ensures { IfOk result (λ made. made.width ≡ 3) }
{
    let keys = Vec::from_slice(alloc, keys)?;
    let aggregates = all_aggregated(alloc, aggregates)?;
    Ok(Grouping {
        width: 3,
        keys,
        aggregates,
    })
}

/// The groups of rows of three cells by these keys, with these aggregates.
pub(crate) fn groups(
    alloc: Global,
    keys: &[usize],
    aggregates: &[Asked],
) -> Result<Trial, AllocError> {
    let grouping = grouping(alloc, keys, aggregates)?;
    let operator = GroupOp::new(alloc, grouping)?;
    Ok(UnaryTrial::new(alloc, operator, 3, Vec::new(alloc)))
}

fn over_nothing(
    alloc: Global,
    keys: &[usize],
    aggregates: &[Asked],
) -> Result<Changes<Row<Term>>, AllocError> {
    let grouping = grouping(alloc, keys, aggregates)?;
    let operator = GroupOp::new(alloc, grouping)?;
    operator.over_nothing(alloc, &mut Same::new())
}

fn is_of_lines(
    alloc: Global,
    net: &Changes<Row<Term>>,
    wanted: &[Line],
) -> Result<bool, AllocError> {
    let wanted = change(alloc, wanted)?;
    are_same(alloc, net, &wanted)
}

/// Whether the groups' value over no rows is of these lines.
pub(crate) fn begins_with(
    alloc: Global,
    keys: &[usize],
    aggregates: &[Asked],
    wanted: &[Line],
) -> Result<bool, AllocError> {
    let net = over_nothing(alloc, keys, aggregates)?;
    is_of_lines(alloc, &net, wanted)
}

/// Gives the groups the change of these lines, and tells whether they answer that of the wanted ones.
pub(crate) fn gives(
    alloc: Global,
    trial: &mut Trial,
    lines: &[Line],
    wanted: &[Line],
) -> Result<bool, Refused> {
    let change = change(alloc, lines)?;
    let net = trial.change(alloc, &change)?;
    Ok(is_of_lines(alloc, &net, wanted)?)
}
