// Instants, in milliseconds since 1970.
ghost use Rattle.std.specs.Prelude.{◌≡◌, ◌+◌, ◌<◌, ◌≤◌, ◌*◌, ◌&&◌, ◌||◌, nat_le, Some, None, if◌then◌else◌, length, drop, pos};
ghost use Rattle.std.specs.Prelude.{neg_ℤ, ◌+ℤ◌, ◌-ℤ◌, ◌*ℤ◌, IfSome, IsTrue, codes};
ghost use Rattle.std.specs.Bool.{then_some};
ghost use Rattle.std.specs.Char.{is_ascii_digit};
ghost use Rattle.std.specs.List.{list_all};
ghost use Rattle.jiff_core.specs.Calendar.{days_from_civil, IsWithin};
ghost use Rattle.rsp_text.specs.Digits as form;
ghost use Rattle.rsp_text.specs.Instants as words;

use crate::digits::{fraction, has_form, number, thousandths};
use jiff::civil::Date;
use rsp_spec::limits::LAST_INSTANT;

/// An instant as XML Schema's dateTime writes it, in ms since 1970; None exactly where the text isn't of the form
/// `YYYY-MM-DDThh:mm:ss`, then optionally `.` and 1 to 9 digits, then `Z`, `+hh:mm` or `-hh:mm`, where the calendar
/// hasn't the day, where a number is out of range, or before 1970 or after 9999. Digits after the third are cut off.
///
/// `instant(b"1970-01-02T00:00:00Z")` is `Some(86_400_000)`, as is `instant(b"1970-01-02T01:00:00+01:00")`;
/// `instant(b"2023-02-29T00:00:00Z")` is None.
#[tactic(auto, unfolding(crate::specs::Instants::instant))]
pub fn instant(text: &[u8]) -> Option<u64>
    ensures { result ≡ words.instant text.now }
{
    if text.len() < 19 {
        return None;
    }
    let (front, behind) = text.split_at(19);
    let part = fraction(behind);
    instant_of(front, part, &behind[part.len()..])
}

fn instant_of(front: &[u8], part: &[u8], zone: &[u8]) -> Option<u64>
    requires { IsTrue (list_all is_ascii_digit (drop 1 part.now)) }
    ensures { result ≡ words.instant_of front.now part.now zone.now }
{
    let ahead = minutes_ahead(zone)?;
    let (day, seconds) = date_time(front)?;
    if !is_fraction(part) {
        return None;
    }
    since_1970(milliseconds(day, seconds * 1_000 + thousandths(part), ahead))
}

fn milliseconds(day: i32, of_day: u32, ahead: i32) -> i64
    requires day { IsWithin 5000000 day }
    requires ahead { IsWithin 1000 ahead }
    ensures { result ≡ ((day *ℤ pos 86400000) +ℤ pos of_day) -ℤ (ahead *ℤ pos 60000) }
{
    i64::from(day) * 86_400_000 + i64::from(of_day) - i64::from(ahead) * 60_000
}

fn since_1970(time: i64) -> Option<u64>
    ensures { result ≡ words.since_1970 time }
{
    let time = u64::try_from(time).ok()?;
    if LAST_INSTANT < time {
        return None;
    }
    Some(time)
}

// the day number and the seconds of the day of `YYYY-MM-DDThh:mm:ss`
fn date_time(text: &[u8]) -> Option<(i32, u32)>
    ensures value { result ≡ then_some (words.is_date_time text.now) (words.day_number text.now, words.seconds_of_day text.now) }
    ensures bound { IfSome result (λ x. IsWithin 5000000 x.0 × (x.1 < 86400)) }
{
    if !has_form(text, b"0000-00-00T00:00:00") {
        return None;
    }
    date_time_of(
        number(text, 0, 4),
        number(text, 5, 2),
        number(text, 8, 2),
        number(text, 11, 2),
        number(text, 14, 2),
        number(text, 17, 2),
    )
}

fn date_time_of(
    year: u32,
    month: u32,
    day: u32,
    hour: u32,
    minute: u32,
    second: u32,
) -> Option<(i32, u32)>
    requires year { year < 10000 }
    requires month { month < 100 }
    requires day { day < 100 }
    requires hour { hour < 100 }
    requires minute { minute < 100 }
    requires second { second < 100 }
    ensures value { result ≡ then_some
        (words.exists_day year month day && (nat_le hour 23 && (nat_le minute 59 && nat_le second 59)))
        (days_from_civil (pos year) month day, (hour * 60 + minute) * 60 + second) }
    ensures bound { IfSome result (λ x. IsWithin 5000000 x.0 × (x.1 < 86400)) }
{
    let number = day_of(year, month, day)?;
    let seconds = seconds_of_day(hour, minute, second)?;
    Some((number, seconds))
}

fn day_of(year: u32, month: u32, day: u32) -> Option<i32>
    requires year { year < 10000 }
    requires month { month < 100 }
    requires day { day < 100 }
    ensures value { result ≡ (if words.exists_day year month day then Some (days_from_civil (pos year) month day) else None) }
    ensures bound { IfSome result (IsWithin 5000000) }
{
    match Date::new(year as i16, month as i8, day as i8) {
        Ok(date) => Some(date.to_plain().to_unix_epoch_day()),
        Err(_) => None,
    }
}

fn seconds_of_day(hour: u32, minute: u32, second: u32) -> Option<u32>
    requires hour { hour < 100 }
    requires minute { minute < 100 }
    requires second { second < 100 }
    ensures value { result ≡ then_some (nat_le hour 23 && (nat_le minute 59 && nat_le second 59))
        ((hour * 60 + minute) * 60 + second) }
    ensures bound { IfSome result (λ n. n < 86400) }
{
    if 23 < hour || 59 < minute || 59 < second {
        return None;
    }
    Some((hour * 60 + minute) * 60 + second)
}

fn is_fraction(part: &[u8]) -> bool
    ensures { result ≡ words.is_fraction part.now }
{
    part.is_empty() || 2 <= part.len() && part.len() <= 10
}

// how many minutes local time is ahead of UTC
fn minutes_ahead(zone: &[u8]) -> Option<i32>
    ensures value { result ≡ words.minutes_ahead zone.now }
    ensures bound { IfSome result (IsWithin 1000) }
{
    if zone == b"Z".as_slice() {
        return Some(0);
    }
    let minutes = offset(zone)?;
    Some(signed(zone[0] == b'-', minutes))
}

fn signed(is_behind: bool, minutes: u32) -> i32
    requires { minutes ≤ 1000 }
    ensures value { result ≡ (if is_behind then neg_ℤ (pos minutes) else pos minutes) }
    ensures bound { IsWithin 1000 result }
{
    if is_behind {
        -(minutes as i32)
    } else {
        minutes as i32
    }
}

// the minutes of `+hh:mm` or `-hh:mm`
fn offset(zone: &[u8]) -> Option<u32>
    ensures value { result ≡ then_some
        ((form.has_form (codes "+00:00") zone.now || form.has_form (codes "-00:00") zone.now)
        && (nat_le (form.number 2 4 zone.now) 59 && nat_le (form.number 2 1 zone.now * 60 + form.number 2 4 zone.now) (14 * 60)))
        (form.number 2 1 zone.now * 60 + form.number 2 4 zone.now) }
    ensures bound { IfSome result (λ n. n ≤ 840) }
    ensures some { IfSome result (λ n. length zone.now ≡ 6) }
{
    if !has_offset_form(zone) {
        return None;
    }
    let hours = number(zone, 1, 2);
    let minutes = number(zone, 4, 2);
    if 59 < minutes || 14 * 60 < hours * 60 + minutes {
        return None;
    }
    Some(hours * 60 + minutes)
}

fn has_offset_form(zone: &[u8]) -> bool
    ensures value { result ≡ (form.has_form (codes "+00:00") zone.now || form.has_form (codes "-00:00") zone.now) }
    ensures len { IsTrue result → length zone.now ≡ 6 }
{
    if has_form(zone, b"+00:00") {
        return true;
    }
    has_form(zone, b"-00:00")
}
