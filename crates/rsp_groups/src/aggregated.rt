// Aggregates.
ghost use Rattle.std.specs.Prelude.{◌≡◌};
ghost use Rattle.rsp_groups.specs.Answers.{is_empty_key};

/// An aggregate of a group: the variable for its value, the argument whose values in the group's rows it is over, and a
/// fold of its kind, with nothing in it or whatever: fresh ones are made of it.
#[derive(Drop)]
pub struct Aggregated<C, F> {
    pub variable: usize,
    pub argument: C,
    pub fold: F,
}

/// What rows are grouped by, and what is made of each group (SPARQL 1.1 Query, section 18.5, Group and AggregateJoin). Where
/// an aggregate's variable is a key, the aggregate has it.
#[derive(Drop)]
pub struct Grouping<C, F> {
    pub width: usize,
    pub keys: Vec<usize>,
    pub aggregates: Vec<Aggregated<C, F>>,
}

/// Whether all rows are one group.
pub(crate) fn is_keyless(keys: &[usize]) -> bool
    ensures { result ≡ is_empty_key keys.now }
{
    match keys {
        [] => true,
        _ => false,
    }
}
