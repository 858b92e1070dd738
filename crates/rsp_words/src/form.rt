// The form of reports.

/// How reports are written. Refusals and overfull reports have one form.
#[derive(Clone, Copy)]
pub enum Form {
    /// A head, the variables and a line for each row (SPARQL 1.1 Query Results TSV Format).
    Table,
    /// One line of JSON (SPARQL 1.1 Query Results JSON Format).
    Json,
}
