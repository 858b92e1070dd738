// Writing a report.
ghost use Rattle.std.specs.Prelude.{◌≡◌, IfOk};
ghost use Rattle.rsp_streams_out.specs.Json.{report_json};
ghost use Rattle.rsp_streams_out.specs.Reports.{overfull_text, report_text};
ghost use Rattle.rsp_modes.specs.Output.{text_of_report};
ghost use Rattle.rsp_modes.specs.Stops.{Ends, Stays};

use crate::stop::Stop;
use crate::writing::write_all;
use rsp_engine::{Outcome, Report};
use rsp_io::Sink;
use rsp_multiset::Row;
use rsp_streams_out::{PrintedRows, overfull_text, printed_text, report_json};
use rsp_terms::{Term, Text};
use rsp_words::Form;
use std::alloc::{AllocError, Global};

/// Writes a report.
pub(crate) fn tell<K: Sink>(
    alloc: Global,
    report: &Report,
    form: Form,
    out: &mut K,
) -> Result<(), Stop>
    ensures text { Ends (K.seen out.old) (K.seen out.new) (text_of_report form report.now) result }
    ensures stays { Stays (K.seen out.old) (K.seen out.new) result }
{
    match text_of(alloc, report, form) {
        Ok(text) => write_all(out, text.as_slice()),
        Err(AllocError) => Err(Stop::Memory),
    }
}

fn text_of(alloc: Global, report: &Report, form: Form) -> Result<Vec<u8>, AllocError>
    ensures { IfOk result (λ text. text.items ≡ text_of_report form report.now) }
{
    let name = report.query.as_str();
    match &report.outcome {
        Outcome::Rows(rows) => {
            let variables = report.variables.as_slice();
            match form {
                Form::Table => table(alloc, name, report.at, variables, rows),
                Form::Json => json(alloc, name, report.at, variables, rows.as_slice()),
            }
        }
        Outcome::Overfull => overfull(alloc, name, report.at),
    }
}

fn table(
    alloc: Global,
    name: &str,
    at: u64,
    variables: &[Text],
    rows: &PrintedRows,
) -> Result<Vec<u8>, AllocError>
    ensures { IfOk result (λ text. text.items ≡ report_text name.now at variables.now rows.now) }
{
    let mut text = Vec::new(alloc);
    printed_text(alloc, name, at, variables, rows, &mut text)?;
    Ok(text)
}

fn json(
    alloc: Global,
    name: &str,
    at: u64,
    variables: &[Text],
    rows: &[Row<Term>],
) -> Result<Vec<u8>, AllocError>
    ensures { IfOk result (λ text. text.items ≡ report_json name.now at variables.now rows.now) }
{
    let mut text = Vec::new(alloc);
    report_json(alloc, name, at, variables, rows, &mut text)?;
    Ok(text)
}

fn overfull(alloc: Global, name: &str, at: u64) -> Result<Vec<u8>, AllocError>
    ensures { IfOk result (λ text. text.items ≡ overfull_text name.now at) }
{
    let mut text = Vec::new(alloc);
    overfull_text(alloc, name, at, &mut text)?;
    Ok(text)
}
