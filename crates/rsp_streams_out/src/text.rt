// The text of rows and reports.
ghost use Rattle.std.specs.Prelude.{◌≡◌, ◌++◌, ◌∷◌, map, IfOk, OnOk, OnErr};
ghost use Rattle.std.specs.List.{join_with_byte};
ghost use Rattle.rsp_streams_out.specs.Rows.{row_text, cell_text};
ghost use Rattle.rsp_streams_out.specs.Reports.{overfull_text, report_text, report_head, variables_line, rows_text};

use crate::PrintedRows;
use rsp_multiset::Row;
use rsp_terms::{Term, Text, print};
use std::alloc::{AllocError, Global};

/// The text of a row: the texts of its cells with tabs between; an unbound cell has no text (SPARQL 1.1 Query Results
/// TSV Format, section 4). Fails only where memory is refused.
pub fn row_text(alloc: Global, row: &Row<Term>) -> Result<Vec<u8>, AllocError>
    ensures { IfOk result (λ text. text.items ≡ row_text row.now) }
{
    let mut text = Vec::new(alloc);
    push_row(row.cells(), &mut text)?;
    Ok(text)
}

/// Appends the text of a report: its head with the query's name, the instant (in milliseconds) and the number of rows,
/// then the variables' names, then a line for each row. Fails only where memory is refused; `out` then holds the bytes
/// that it held before.
pub fn report_text(
    alloc: Global,
    name: &str,
    at: u64,
    variables: &[Text],
    rows: &[Row<Term>],
    out: &mut Vec<u8>,
) -> Result<(), AllocError>
    ensures ok { OnOk result (out.new.items ≡ out.old.items ++ report_text name.now at variables.now rows.now) }
    ensures err { OnErr result (out.new.items ≡ out.old.items) }
{
    let before = out.len();
    let written = push_report(alloc, name, at, variables, rows, out);
    if written.is_err() {
        out.truncate(before);
    }
    written
}

/// Appends the same text of a report whose rows are printed already.
pub fn printed_text(
    alloc: Global,
    name: &str,
    at: u64,
    variables: &[Text],
    rows: &PrintedRows,
    out: &mut Vec<u8>,
) -> Result<(), AllocError>
    ensures ok { OnOk result (out.new.items ≡ out.old.items ++ report_text name.now at variables.now rows.now) }
    ensures err { OnErr result (out.new.items ≡ out.old.items) }
{
    let before = out.len();
    let written = push_printed(alloc, name, at, variables, rows, out);
    if written.is_err() {
        out.truncate(before);
    }
    written
}

/// Appends the line that stands for a report with too many rows: `# overfull`, the query's name and the instant (in
/// milliseconds). Fails only where memory is refused; `out` then holds the bytes that it held before.
pub fn overfull_text(
    alloc: Global,
    name: &str,
    at: u64,
    out: &mut Vec<u8>,
) -> Result<(), AllocError>
    ensures ok { OnOk result (out.new.items ≡ out.old.items ++ overfull_text name.now at) }
    ensures err { OnErr result (out.new.items ≡ out.old.items) }
{
    let line = format!(in alloc; "# overfull {} {}\n", name, at)?;
    out.extend_from_slice(line.as_bytes())?;
    Ok(())
}

fn push_report(
    alloc: Global,
    name: &str,
    at: u64,
    variables: &[Text],
    rows: &[Row<Term>],
    out: &mut Vec<u8>,
) -> Result<(), AllocError>
    ensures ok { OnOk result (out.new.items ≡ out.old.items ++ report_text name.now at variables.now rows.now) }
    ensures begun { (rest : _) × (out.new.items ≡ out.old.items ++ rest) }
{
    push_head(alloc, name, at, rows.len(), out)?;
    push_variables(variables, out)?;
    push_rows(rows, out)
}

fn push_printed(
    alloc: Global,
    name: &str,
    at: u64,
    variables: &[Text],
    rows: &PrintedRows,
    out: &mut Vec<u8>,
) -> Result<(), AllocError>
    ensures ok { OnOk result (out.new.items ≡ out.old.items ++ report_text name.now at variables.now rows.now) }
    ensures begun { (rest : _) × (out.new.items ≡ out.old.items ++ rest) }
{
    push_head(alloc, name, at, rows.as_slice().len(), out)?;
    push_variables(variables, out)?;
    out.extend_from_slice(rows.lines())?;
    Ok(())
}

fn push_head(
    alloc: Global,
    name: &str,
    at: u64,
    count: usize,
    out: &mut Vec<u8>,
) -> Result<(), AllocError>
    ensures ok { OnOk result (out.new.items ≡ out.old.items ++ report_head name.now at count) }
    ensures begun { (rest : _) × (out.new.items ≡ out.old.items ++ rest) }
{
    let head = format!(in alloc; "# report {} {} {}\n", name, at, count)?;
    out.extend_from_slice(head.as_bytes())?;
    Ok(())
}

fn push_variables(variables: &[Text], out: &mut Vec<u8>) -> Result<(), AllocError>
    ensures ok { OnOk result (out.new.items ≡ out.old.items ++ variables_line variables.now) }
    ensures begun { (rest : _) × (out.new.items ≡ out.old.items ++ rest) }
{
    push_names(variables, out)?;
    out.push(b'\n')?;
    Ok(())
}

fn push_names(variables: &[Text], out: &mut Vec<u8>) -> Result<(), AllocError>
    ensures ok { OnOk result (out.new.items ≡ out.old.items ++ join_with_byte 9 (map (λ name. 63 ∷ name) variables.now)) }
    ensures begun { (rest : _) × (out.new.items ≡ out.old.items ++ rest) }
{
    let Some((first, others)) = variables.split_first() else {
        return Ok(());
    };
    push_variable(first, out)?;
    for variable in others {
        out.push(b'\t')?;
        push_variable(variable, out)?;
    }
    Ok(())
}

fn push_variable(variable: &Text, out: &mut Vec<u8>) -> Result<(), AllocError>
    ensures ok { OnOk result (out.new.items ≡ out.old.items ++ (63 ∷ variable.now)) }
    ensures begun { (rest : _) × (out.new.items ≡ out.old.items ++ rest) }
{
    out.push(b'?')?;
    out.extend_from_slice(variable.as_str().as_bytes())?;
    Ok(())
}

fn push_rows(rows: &[Row<Term>], out: &mut Vec<u8>) -> Result<(), AllocError>
    ensures ok { OnOk result (out.new.items ≡ out.old.items ++ rows_text rows.now) }
    ensures begun { (rest : _) × (out.new.items ≡ out.old.items ++ rest) }
{
    for row in rows {
        push_row(row.cells(), out)?;
        out.push(b'\n')?;
    }
    Ok(())
}

fn push_row(row: &[Option<Term>], out: &mut Vec<u8>) -> Result<(), AllocError>
    ensures ok { OnOk result (out.new.items ≡ out.old.items ++ row_text row.now) }
    ensures begun { (rest : _) × (out.new.items ≡ out.old.items ++ rest) }
{
    let Some((first, others)) = row.split_first() else {
        return Ok(());
    };
    push_cell(first, out)?;
    for cell in others {
        out.push(b'\t')?;
        push_cell(cell, out)?;
    }
    Ok(())
}

fn push_cell(cell: &Option<Term>, out: &mut Vec<u8>) -> Result<(), AllocError>
    ensures ok { OnOk result (out.new.items ≡ out.old.items ++ cell_text cell.now) }
    ensures begun { (rest : _) × (out.new.items ≡ out.old.items ++ rest) }
{
    match cell {
        None => Ok(()),
        Some(term) => print(term, out),
    }
}
