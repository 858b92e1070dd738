// Words and signs of SPARQL that are left out here.
ghost use Rattle.std.specs.Prelude.{◌≡◌, map};
ghost use Rattle.std.specs.Str.{str_eq_ignore_ascii_case};
ghost use Rattle.rsp_syntax.specs.LeftOut as left_out;

use rsp_lex::TokenKind;

const WORDS: [&str; 37] = [
    "ASK",
    "DESCRIBE",
    "CONSTRUCT",
    "BASE",
    "REDUCED",
    "ORDER",
    "LIMIT",
    "OFFSET",
    "SERVICE",
    "VALUES",
    "NOT",
    "EXISTS",
    "REGEX",
    "REPLACE",
    "UCASE",
    "LCASE",
    "ENCODE_FOR_URI",
    "MD5",
    "SHA1",
    "SHA256",
    "SHA384",
    "SHA512",
    "RAND",
    "NOW",
    "UUID",
    "STRUUID",
    "BNODE",
    "GROUP_CONCAT",
    "SAMPLE",
    "YEAR",
    "MONTH",
    "DAY",
    "HOURS",
    "MINUTES",
    "SECONDS",
    "TIMEZONE",
    "TZ",
];

const SIGNS: [&str; 4] = ["*", "+", "?", "!"];

/// Whether a token is one of them; words are taken in any case.
#[tactic(auto, unfolding(crate::specs::LeftOut::is_left_out))]
pub(crate) fn is_left_out(kind: TokenKind, text: &str) -> bool
    ensures { result ≡ left_out.is_left_out kind text.now }
{
    match kind {
        TokenKind::Word => is_among(&WORDS, text),
        TokenKind::Symbol => is_among(&SIGNS, text),
        _ => false,
    }
}

fn is_among(names: &[&str], text: &str) -> bool
    ensures { result ≡ left_out.is_among (map (λ name. name.now) names.now) text.now }
{
    for name in names {
        if is_in_any_case(name, text) {
            return true;
        }
    }
    false
}

fn is_in_any_case(name: &str, text: &str) -> bool
    ensures { result ≡ str_eq_ignore_ascii_case name.now text.now }
{
    name.eq_ignore_ascii_case(text)
}
