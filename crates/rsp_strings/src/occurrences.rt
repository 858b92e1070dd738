// Where one text stands in another. An empty text stands at the start of each.
ghost use Rattle.std.specs.Prelude.{◌≡◌};
ghost use Rattle.std.specs.Option.{option_copied};
ghost use Rattle.rsp_strings.specs.Occurrences.{begins_with, finishes_with, contains, text_before, text_after};

/// Whether the text begins with the part (STRSTARTS).
pub fn starts_with(text: &str, part: &str) -> bool
    ensures { result ≡ begins_with text.now part.now }
{
    text.starts_with(part)
}

/// Whether the text ends with the part (STRENDS).
pub fn ends_with(text: &str, part: &str) -> bool
    ensures { result ≡ finishes_with text.now part.now }
{
    text.ends_with(part)
}

/// Whether the part occurs in the text (CONTAINS).
pub fn contains(text: &str, part: &str) -> bool
    ensures { result ≡ contains text.now part.now }
{
    text.contains(part)
}

/// What stands before the first occurrence of the part; None where it doesn't occur (STRBEFORE).
pub fn text_before<'a>(text: &'a str, part: &str) -> Option<&'a str>
    ensures { option_copied result ≡ text_before text.now part.now }
{
    match text.split_once(part) {
        Some((before, _)) => Some(before),
        None => None,
    }
}

/// What stands behind the first occurrence of the part; None where it doesn't occur (STRAFTER).
pub fn text_after<'a>(text: &'a str, part: &str) -> Option<&'a str>
    ensures { option_copied result ≡ text_after text.now part.now }
{
    match text.split_once(part) {
        Some((_, after)) => Some(after),
        None => None,
    }
}
