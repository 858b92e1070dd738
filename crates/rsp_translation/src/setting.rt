// What a query fixes for all its groups.
use rsp_query::WindowClause;
use rsp_terms::Text;

/// The names of a query's variables, its windows, and the width of rows.
#[derive(Clone, Copy)]
pub(crate) struct Setting<'q> {
    pub(crate) names: &'q [Text],
    pub(crate) windows: &'q [WindowClause],
    pub(crate) width: usize,
}
