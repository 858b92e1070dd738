// Rows cut to some of their variables.
ghost use Rattle.std.specs.Prelude.{◌≡◌, List, Option, IfOk};
ghost use Rattle.rsp_multiset.specs.Rows.{row_eq};
ghost use Rattle.rsp_multiset.specs.Shown.{weight_shown};
ghost use Rattle.rsp_multiset.specs.Variables.{projection};
ghost use Rattle.rsp_multiset.specs.Weights.{weight};

use rsp_multiset::{Cell, Changes, Row};
use rsp_operators::Unary;
use rsp_terms::Domain;
use std::alloc::{AllocError, Global};

/// The rows with all variables but these unbound (SPARQL 1.1 Query, section 18.5, Project). Rows that fall together are
/// added up, and may vanish. It keeps nothing.
#[derive(Drop)]
pub struct Projecting {
    width: usize,
    variables: Vec<usize>,
}

impl Projecting {
    ghost use Rattle.std.specs.Prelude.{◌≡◌};

    /// The operator over rows of this width.
    pub fn new(width: usize, variables: Vec<usize>) -> Projecting
        ensures width { result.width ≡ width }
        ensures variables { result.variables ≡ variables }
    {
        Projecting { width, variables }
    }
}

impl<D: Domain> Unary<D> for Projecting {
    ghost use Rattle.std.specs.Prelude.{⊤, [], map};
    ghost use Rattle.rsp_multiset.specs.Variables.{projection};

    ghost width = { λ operator. operator.width };

    ghost key = { λ operator. [] };

    ghost value = { λ operator rows. map (projection operator.width operator.variables.items) rows };

    ghost stands = { λ operator domain rows. ⊤ };

    ghost kept = { λ operator. [] };

    ghost carried = { λ operator before after rows known stands. stands };

    fn apply(
        &mut self,
        alloc: Global,
        change: &Changes<Row<D::Value>>,
        _domain: &mut D,
    ) -> Result<Changes<Row<D::Value>>, AllocError> {
        projected(alloc, self.width, self.variables.as_slice(), change)
    }
}

fn projected<V: Cell>(
    alloc: Global,
    width: usize,
    variables: &[usize],
    change: &Changes<Row<V>>,
) -> Result<Changes<Row<V>>, AllocError>
    ensures { IfOk result (λ net. (q : List (Option V)) → weight (row_eq V.eq) net q
        ≡ weight_shown (row_eq V.eq) (projection width variables.now) change.now q) }
{
    let mut net = Changes::new(alloc);
    for index in 0..change.distinct() {
        let (row, count) = change.counted_at(index);
        net.add(row.projected(width, variables)?, count)?;
    }
    Ok(net)
}
