// Reports.
use rsp_streams_out::PrintedRows;
use rsp_terms::{Listed, Text};

/// What a query gave at an instant.
#[derive(Drop)]
pub enum Outcome {
    /// The rows, one cell for each variable, in the byte order of their texts.
    Rows(PrintedRows),
    /// Some subtree of the query has more than 1,000,000 rows. The query is no longer live.
    Overfull,
}

/// A report of a query at an instant, in ms since 1970.
#[derive(Drop)]
pub struct Report {
    pub query: Text,
    pub at: u64,
    pub variables: Listed<Text>,
    pub outcome: Outcome,
}
