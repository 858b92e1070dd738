// What a stream operator reads of an answer.
ghost use Rattle.rsp_streams_out.specs.Turning.{Reads};

use rsp_report::Operator;

/// What the rows of a report are taken from.
#[derive(Clone, Copy, PartialEq, Eq, Drop)]
pub enum Reading {
    /// All solutions of now.
    Solutions,
    /// The change of the solutions since the preceding report.
    Change,
    /// Nothing: there are no rows.
    Nothing,
}

/// What the operator reads, where its query has reported before, or hasn't. Before its first report no rows precede it: all
/// are new then, and none has gone.
pub fn read_by(operator: Operator, has_reported: bool) -> Reading
    ensures { Reads operator has_reported result }
{
    match operator {
        Operator::Rstream => Reading::Solutions,
        Operator::Istream if !has_reported => Reading::Solutions,
        Operator::Dstream if !has_reported => Reading::Nothing,
        _ => Reading::Change,
    }
}
