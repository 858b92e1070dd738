// Lines: where they end, which are passed over, which have a body, which end one.
ghost use Rattle.std.specs.Prelude.{◌≡◌, ◌≤◌, ◌==◌, bytes_eq, length};
ghost use Rattle.std.specs.List.{list_all, position_or_len};
ghost use Rattle.std.specs.Str.Lines.{strip_carriage_return};
ghost use Rattle.rsp_text.specs.Fronts.{is_blank};
ghost use Rattle.rsp_events.specs.Lines as text;

use memchr::memchr;
use rsp_text::is_blank;

/// Where the first line feed stands, or the number of bytes.
pub(crate) fn line_end(bytes: &[u8]) -> usize
    ensures place { result ≡ position_or_len (λ b. b == 10) bytes.now }
    ensures bound { result ≤ length bytes.now }
{
    match memchr(b'\n', bytes) {
        Some(place) => place,
        None => bytes.len(),
    }
}

/// The bytes without the one carriage return at their end.
pub(crate) fn without_return(bytes: &[u8]) -> &[u8]
    ensures { result.now ≡ strip_carriage_return bytes.now }
{
    match bytes.split_last() {
        Some((13, front)) => front,
        _ => bytes,
    }
}

/// Whether these are the same bytes.
pub(crate) fn same(left: &[u8], right: &[u8]) -> bool
    ensures { result ≡ bytes_eq left.now right.now }
{
    left == right
}

fn all_blank(line: &[u8]) -> bool
    ensures { result ≡ list_all is_blank line.now }
{
    line.iter().all(|c| is_blank(*c))
}

/// Whether a line is passed over between blocks.
#[tactic(auto, unfolding(crate::specs::Lines::is_passed))]
pub(crate) fn is_passed(line: &[u8]) -> bool
    ensures { result ≡ text.is_passed line.now }
{
    let Some((first, _)) = line.split_first() else {
        return true;
    };
    if *first == b'#' {
        return true;
    }
    all_blank(line)
}

/// Whether a line is a directive that has a body.
#[tactic(auto, unfolding(crate::specs::Lines::has_body))]
pub(crate) fn has_body(line: &[u8]) -> bool
    ensures { result ≡ text.has_body line.now }
{
    let directive = first_field(line);
    if same(b"@register", directive) {
        return true;
    }
    if same(b"@item", directive) {
        return true;
    }
    if same(b"@insert", directive) {
        return true;
    }
    same(b"@delete", directive)
}

/// What stands before the first blank of a line.
pub(crate) fn first_field(line: &[u8]) -> &[u8]
    ensures { result.now ≡ text.first_field line.now }
{
    let end = first_blank(line);
    &line[..end]
}

/// Where the first blank stands, or the line's length.
pub(crate) fn first_blank(line: &[u8]) -> usize
    ensures place { result ≡ position_or_len is_blank line.now }
    ensures bound { result ≤ length line.now }
{
    line.iter().take_while(|c| !is_blank(**c)).count()
}

/// Whether a line ends a body.
#[tactic(auto, unfolding(crate::specs::Lines::is_end))]
pub(crate) fn is_end(line: &[u8]) -> bool
    ensures { result ≡ text.is_end line.now }
{
    if !line.starts_with(b"@end") {
        return false;
    }
    all_blank(&line[4..])
}
