// Language ranges.
ghost use Rattle.std.specs.Prelude.{◌≡◌, ◌++◌, nat_eq, codes};
ghost use Rattle.std.specs.List.{starts_with};
ghost use Rattle.std.specs.Str.{str_to_ascii_lowercase, str_eq_ignore_ascii_case};
ghost use Rattle.rsp_strings.specs.Ranges.{is_matched_by};

/// Whether the language range matches the tag (LANGMATCHES; RFC 4647, section 3.3.1): `*` matches each tag that isn't
/// empty, another range the tags that are it, or begin with it and `-`, without regard to the case of ASCII letters.
pub fn is_matched_by(tag: &str, range: &str) -> bool
    ensures { result ≡ is_matched_by tag.now range.now }
{
    if range == "*" {
        return !tag.is_empty();
    }
    is_same_range(tag, range) || is_within_range(tag.as_bytes(), range.as_bytes())
}

fn is_same_range(tag: &str, range: &str) -> bool
    ensures { result ≡ str_eq_ignore_ascii_case tag.now range.now }
{
    tag.eq_ignore_ascii_case(range)
}

/// Whether the tag begins with the range and `-`.
fn is_within_range(tag: &[u8], range: &[u8]) -> bool
    ensures { result ≡ starts_with nat_eq (str_to_ascii_lowercase tag.now)
        (str_to_ascii_lowercase range.now ++ codes "-") }
{
    if tag.len() <= range.len() {
        return false;
    }
    tag[..range.len()].eq_ignore_ascii_case(range) && tag[range.len()] == b'-'
}
