// What stands at the front of a text.
ghost use Rattle.std.specs.Prelude.{◌≡◌, ◌≤◌, IsTrue, length};
ghost use Rattle.std.specs.Char.{is_ascii_digit};
ghost use Rattle.std.specs.List.{list_all, prefix_len};
ghost use Rattle.rsp_text.specs.Fronts as front;

/// Whether a byte is a space or a tab.
pub fn is_blank(c: u8) -> bool
    ensures { result ≡ front.is_blank c }
{
    c == b' ' || c == b'\t'
}

/// The text behind the spaces and tabs at its front.
pub fn behind_blanks(text: &[u8]) -> &[u8]
    ensures { result.now ≡ front.behind_blanks text.now }
{
    &text[blanks(text)..]
}

fn blanks(text: &[u8]) -> usize
    ensures value { result ≡ prefix_len front.is_blank text.now }
    ensures bound { result ≤ length text.now }
{
    text.iter().take_while(|c| is_blank(**c)).count()
}

/// The decimal digits at the front of a text.
pub fn leading_digits(text: &[u8]) -> &[u8]
    ensures value { result.now ≡ front.leading_digits text.now }
    ensures bound { length result.now ≤ length text.now }
    ensures digits { IsTrue (list_all is_ascii_digit result.now) }
{
    &text[..digit_count(text)]
}

fn digit_count(text: &[u8]) -> usize
    ensures value { result ≡ prefix_len is_ascii_digit text.now }
    ensures bound { result ≤ length text.now }
{
    text.iter().take_while(|c| is_digit(**c)).count()
}

/// Whether a byte is a decimal digit.
pub(crate) fn is_digit(c: u8) -> bool
    ensures { result ≡ is_ascii_digit c }
{
    c.is_ascii_digit()
}
