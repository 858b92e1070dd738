// Characters of a text, counted from 1, and the part at given places.
ghost use Rattle.std.specs.Prelude.{◌≡◌, ◌≤◌, ◌+ℤ◌, length, take, drop};
ghost use Rattle.std.specs.Str.{chars, encode_utf8_all, IsCharBoundary};
ghost use Rattle.rsp_strings.specs.Substrings.{character_count, substring_from, substring};
ghost use Rattle.rsp_strings.specs.Cuts.{places_before};

use rsp_number::IntegerNumber;

/// How many characters the text has (STRLEN).
pub fn character_count(text: &str) -> usize
    ensures { result ≡ character_count text.now }
{
    text.chars().count()
}

/// The characters from the place `start` on (SUBSTR with two arguments). Places are counted from 1, and a start below
/// that gives the whole text.
pub fn substring_from(text: &str, start: IntegerNumber) -> &str
    ensures { result.now ≡ substring_from text.now start }
{
    behind(text, places_before(start))
}

/// The characters at the places from `start` on and before `start + count`, by their exact sum (SUBSTR with three
/// arguments). Places are counted from 1, so a start below that shortens the part.
pub fn substring(text: &str, start: IntegerNumber, count: IntegerNumber) -> &str
    ensures { result.now ≡ substring text.now start count }
{
    let front = front(text, places_before_end(start, count));
    substring_from(front, start)
}

/// How many places from 1 on stand before the start.
fn places_before(start: IntegerNumber) -> u128
    ensures { result ≡ places_before start }
{
    let place = start.value();
    if place < 1 { 0 } else { place as u128 - 1 }
}

/// How many places from 1 on stand before the place that the count leads to.
fn places_before_end(start: IntegerNumber, count: IntegerNumber) -> u128
    ensures { result ≡ places_before (start +ℤ count) }
{
    let end = start.value() as i128 + count.value() as i128;
    if end < 1 { 0 } else { end as u128 - 1 }
}

/// The first characters, so many as there are of the count.
fn front(text: &str, count: u128) -> &str
    ensures { result.now ≡ encode_utf8_all (take count (chars text.now)) }
{
    &text[..front_len(text, count)]
}

/// The characters behind the first ones.
fn behind(text: &str, count: u128) -> &str
    ensures { result.now ≡ encode_utf8_all (drop count (chars text.now)) }
{
    &text[front_len(text, count)..]
}

/// How many bytes the first characters have, so many as there are of the count.
fn front_len(text: &str, count: u128) -> usize
    ensures value { result ≡ length (encode_utf8_all (take count (chars text.now))) }
    ensures bound { result ≤ length text.now }
    ensures boundary { IsCharBoundary text.now result }
{
    let mut len = 0;
    let mut left = count;
    for character in text.chars() {
        if left == 0 {
            return len;
        }
        left -= 1;
        len += character.len_utf8();
    }
    len
}
