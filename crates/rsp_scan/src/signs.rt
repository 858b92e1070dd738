// Single signs at the front of a text, and classes of bytes.
ghost use Rattle.std.specs.Prelude.{◌≡◌, MatchOption, Some, None};
ghost use Rattle.std.specs.Char.{is_ascii_alphabetic, is_ascii_digit};
ghost use Rattle.rsp_scan.specs.Enclosed as part;

/// The text behind this sign, where the sign stands at the front.
#[tactic(auto, unfolding(crate::specs::Enclosed::sign))]
pub fn sign(c: u8, text: &[u8]) -> Option<&[u8]>
    ensures { MatchOption result (part.sign c text.now ≡ None) (λ rest. part.sign c text.now ≡ Some rest.now) }
{
    match text {
        [first, rest @ ..] if *first == c => Some(rest),
        _ => None,
    }
}

pub(crate) fn is_letter(c: u8) -> bool
    ensures { result ≡ is_ascii_alphabetic c }
{
    c.is_ascii_alphabetic()
}

pub(crate) fn is_digit(c: u8) -> bool
    ensures { result ≡ is_ascii_digit c }
{
    c.is_ascii_digit()
}
