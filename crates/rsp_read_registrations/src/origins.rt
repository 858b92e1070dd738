// Reading the START of a window.
ghost use Rattle.std.specs.Prelude.{◌≡◌, ◌-◌, ◌^◌, None, Some, cond, min, nat_le};
ghost use Rattle.std.specs.Char.{digit_value};
ghost use Rattle.std.specs.Str.Parse.{digits_value};
ghost use Rattle.rsp_spec.specs.Limits.{last_instant};
ghost use Rattle.rsp_written.specs.Gives.{Gives};
ghost use Rattle.rsp_written.specs.Grammar.{origin_of_kind};
ghost use Rattle.rsp_written.specs.GroupReadings as readings;

use rsp_spec::limits::LAST_INSTANT;
use rsp_text::instant;
use rsp_written::{Halt, Kind, Said};

// a digit's value; 36 for what is no digit and no letter
fn digit_value(byte: u8) -> u64
    ensures { result ≡ digit_value byte }
{
    match char::from(byte).to_digit(36) {
        None => 36,
        Some(value) => u64::from(value),
    }
}

// the number that these digits write, at most 2^64 - 1
fn number(digits: &[u8]) -> u64
    ensures { result ≡ min (digits_value 10 digits.now) (2 ^ 64 - 1) }
{
    let mut value: u64 = 0;
    for digit in digits {
        value = value.saturating_mul(10).saturating_add(digit_value(*digit));
    }
    value
}

fn integer(digits: &[u8]) -> Option<u64>
    ensures { result ≡ cond (nat_le (digits_value 10 digits.now) last_instant) (Some (digits_value 10 digits.now)) None }
{
    let value = number(digits);
    if value <= LAST_INSTANT {
        Some(value)
    } else {
        None
    }
}

fn origin_of(said: &Said) -> Option<u64>
    ensures { result ≡ origin_of_kind said.now.kind said.now.text }
{
    match said.kind {
        Kind::Integer => integer(said.text.as_str().as_bytes()),
        Kind::String => instant(said.text.as_str().as_bytes()),
        _ => None,
    }
}

/// The START of a window: milliseconds since 1970-01-01T00:00:00Z, or a text that says an instant.
#[tactic(auto, unfolding(rsp_written::specs::GroupReadings::origin_read))]
pub(crate) fn origin(tokens: &[Said]) -> Result<(u64, &[Said]), Halt>
    ensures { Gives (λ x. (x.0, x.1.now)) result (readings.origin_read tokens.now) }
{
    let Some((said, rest)) = tokens.split_first() else {
        return Err(Halt::Wrong(0));
    };
    match origin_of(said) {
        None => Err(Halt::Wrong(tokens.len())),
        Some(origin) => Ok((origin, rest)),
    }
}
