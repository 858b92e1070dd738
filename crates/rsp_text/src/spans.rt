// Spans, in milliseconds.
ghost use Rattle.std.specs.Prelude.{◌≡◌, ◌+◌, ◌-◌, ◌^◌, ◌<◌, ◌*◌, min, not, length, IsTrue};
ghost use Rattle.std.specs.Option.{option_map};
ghost use Rattle.std.specs.Char.{is_ascii_digit};
ghost use Rattle.std.specs.List.{list_all};
ghost use Rattle.std.specs.Str.Parse.{digits_value};
ghost use Rattle.rsp_text.specs.Digits as form;
ghost use Rattle.rsp_text.specs.Spans as length_of;

use crate::digits::{fraction, thousandths, value_of};
use crate::fronts::leading_digits;
use rsp_spec::limits::LAST_INSTANT;

/// A span as ISO 8601 writes it in days, hours, minutes and seconds, in ms; None exactly where the text isn't of the
/// form `P`, then optionally `nD`, then optionally `T` with at least one of `nH`, `nM` and `nS` in this order, with at
/// least one part in all, or where the span is longer than from 1970 to the end of 9999. The seconds may have `.` and
/// digits, of which those after the third are cut off.
///
/// `span(b"P1DT2H")` is `Some(93_600_000)`, `span(b"PT0.5S")` is `Some(500)`; `span(b"P1M")` and `span(b"PT")` are None.
#[tactic(auto, unfolding(crate::specs::Spans::span))]
pub fn span(text: &[u8]) -> Option<u64>
    ensures { result ≡ length_of.span text.now }
{
    let [b'P', behind @ ..] = text else {
        return None;
    };
    let (days, behind) = count(behind, b'D');
    let ms = ms_behind_days(days.is_empty(), behind)?;
    let all = plus_times(ms, units(days), 86_400_000);
    if LAST_INSTANT < all { None } else { Some(all) }
}

// The calls below count up to the type's end and stay there, which is past the longest span.

// what stands behind the days
fn ms_behind_days(no_days: bool, text: &[u8]) -> Option<u64>
    ensures { result ≡ option_map (λ ms. min ms (2 ^ 64 - 1)) (length_of.behind_days (not no_days) text.now) }
{
    match text {
        [] => if no_days { None } else { Some(0) },
        [b'T', clock @ ..] => clock_ms(clock),
        _ => None,
    }
}

// hours, minutes and seconds
#[tactic(auto, unfolding(crate::specs::Spans::clock))]
fn clock_ms(text: &[u8]) -> Option<u64>
    ensures { result ≡ option_map (λ ms. min ms (2 ^ 64 - 1)) (length_of.clock text.now) }
{
    if text.is_empty() {
        return None;
    }
    let (hours, behind) = count(text, b'H');
    let (minutes, behind) = count(behind, b'M');
    let seconds = seconds_ms(behind)?;
    Some(plus_times(
        plus_times(seconds, units(minutes), 60_000),
        units(hours),
        3_600_000,
    ))
}

// seconds with a fraction, and nothing behind; or nothing
#[tactic(auto, unfolding(crate::specs::Spans::seconds))]
fn seconds_ms(text: &[u8]) -> Option<u64>
    ensures { result ≡ option_map (λ ms. min ms (2 ^ 64 - 1)) (length_of.seconds text.now) }
{
    if text.is_empty() {
        return Some(0);
    }
    let whole = leading_digits(text);
    let part = fraction(&text[whole.len()..]);
    if whole.is_empty() || part.len() == 1 {
        return None;
    }
    if &text[whole.len() + part.len()..] != b"S".as_slice() {
        return None;
    }
    Some(plus_times(u64::from(thousandths(part)), units(whole), 1_000))
}

// the digits of a count with this unit at the front, or nothing, and what stands behind it
fn count(text: &[u8], unit: u8) -> (&[u8], &[u8])
    ensures digits { result.0.now ≡ (length_of.count unit text.now).0 }
    ensures behind { result.1.now ≡ (length_of.count unit text.now).1 }
    ensures are_digits { IsTrue (list_all is_ascii_digit result.0.now) }
{
    let digits = leading_digits(text);
    match &text[digits.len()..] {
        [first, behind @ ..] if *first == unit && !digits.is_empty() => (digits, behind),
        _ => (&text[..0], text),
    }
}

// the number that digits write, 0 for none
fn units(digits: &[u8]) -> u64
    requires { IsTrue (list_all is_ascii_digit digits.now) }
    ensures { result ≡ min (digits_value 10 digits.now) (2 ^ 64 - 1) }
{
    if digits.is_empty() {
        return 0;
    }
    value_of(digits).unwrap_or(u64::MAX)
}

fn plus_times(sum: u64, count: u64, unit: u64) -> u64
    ensures { result ≡ min (sum + count * unit) (2 ^ 64 - 1) }
{
    sum.saturating_add(count.saturating_mul(unit))
}
