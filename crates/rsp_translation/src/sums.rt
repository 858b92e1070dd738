// Sums of numbers of variables.
ghost use Rattle.std.specs.Prelude.{◌≡◌, ◌+◌, ◌^◌, ◌≤◌, IfErr, IfOk};

use std::alloc::AllocError;

/// The sum. Fails exactly where it is past 2^64 - 1: memory has no room for rows of that width.
pub(crate) fn sum(number: usize, more: usize) -> Result<usize, AllocError>
    ensures total { IfOk result (λ total. total ≡ number + more) }
    ensures past { IfErr result (λ _. 2 ^ 64 ≤ number + more) }
{
    match number.checked_add(more) {
        Some(total) => Ok(total),
        None => Err(AllocError),
    }
}
