// The lines of a file of statements.
ghost use Rattle.std.specs.Prelude.{◌≡◌, ◌+◌, ◌++◌, ◌∷◌, ◌<◌, [], ℕ, IfOk, IfSome, OnOk, MatchOption, length};
ghost use Rattle.rsp_events.specs.FileLines.{lines_from};

use crate::lines::{line_end, without_return};
use crate::{LineRefused, RefusedAs};
use rsp_terms::Listed;
use std::alloc::AllocError;

/// What the first of these lines says, and what stands behind it; None where there is no line.
pub(crate) fn next_line(lines: &[u8]) -> Option<(&[u8], &[u8])>
    ensures lines { MatchOption result ((n : ℕ) → lines_from n lines.now ≡ [])
        (λ x. (n : ℕ) → lines_from n lines.now ≡ record { number = n; text = x.0.now } ∷ lines_from (n + 1) x.1.now) }
    ensures shorter { IfSome result (λ x. length x.1.now < length lines.now) }
{
    if lines.is_empty() {
        return None;
    }
    let (line, behind) = lines.split_at(line_end(lines));
    match behind.split_first() {
        None => Some((line, behind)),
        Some((_, next)) => Some((without_return(line), next)),
    }
}

/// The number of the line behind the one of this number. Fails only where it would pass 64 bits.
pub(crate) fn next_number(number: u64) -> Result<u64, AllocError>
    ensures { IfOk result (λ next. next ≡ number + 1) }
{
    match number.checked_add(1) {
        Some(next) => Ok(next),
        None => Err(AllocError),
    }
}

/// Puts a line behind those that are refused.
pub(crate) fn refuse(
    refused: &mut Listed<LineRefused>,
    line: u64,
    fault: RefusedAs,
) -> Result<(), AllocError>
    ensures { OnOk result (refused.new ≡ refused.old ++ (record { line = line; fault = fault } ∷ [])) }
{
    Ok(refused.push(LineRefused { line, fault })?)
}
