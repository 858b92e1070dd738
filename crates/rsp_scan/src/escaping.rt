// Escapes, character by character.
ghost use Rattle.std.specs.Prelude.{◌≡◌, ◌<◌, IsTrue};
ghost use Rattle.std.specs.Char.{is_ascii_hexdigit};
ghost use Rattle.rsp_scan.specs.Enclosed.{named_character};
ghost use Rattle.rsp_scan.specs.Escaping as escaping;

/// How far an escape is read, behind its `\`.
#[derive(Clone, Copy)]
pub enum Escape {
    Begun,
    /// So many hexadecimal digits are to come, and those before have this value.
    Digits { left: u8, value: u32 },
}

/// An escape with one character more.
#[derive(Clone, Copy)]
pub enum Escaped {
    More(Escape),
    /// The escape has ended, and stands for this character.
    Whole(char),
}

/// A UCHAR with one character more (SPARQL 1.1, section 19.2); None where none goes on so.
pub fn uchar_step(escape: Escape, c: char) -> Option<Escaped>
    ensures { result ≡ escaping.uchar_step escape c }
{
    match escape {
        Escape::Begun => match c {
            'u' => Some(Escaped::More(Escape::Digits { left: 4, value: 0 })),
            'U' => Some(Escaped::More(Escape::Digits { left: 8, value: 0 })),
            _ => None,
        },
        Escape::Digits { left, value } => {
            if !is_hexadecimal(c) || 0x10FFFF < value {
                return None;
            }
            behind_digit(left, 16 * value + digit_value(c))
        }
    }
}

/// An ECHAR or a UCHAR with one character more (SPARQL 1.1, section 19.8); None where none goes on so.
pub fn escape_step(escape: Escape, c: char) -> Option<Escaped>
    ensures { result ≡ escaping.escape_step escape c }
{
    match escape {
        Escape::Begun => match named_character(c) {
            Some(character) => Some(Escaped::Whole(character)),
            None => uchar_step(escape, c),
        },
        Escape::Digits { .. } => uchar_step(escape, c),
    }
}

fn behind_digit(left: u8, value: u32) -> Option<Escaped>
    ensures { result ≡ escaping.behind_digit left value }
{
    if left <= 1 {
        match char::from_u32(value) {
            None => None,
            Some(character) => Some(Escaped::Whole(character)),
        }
    } else {
        Some(Escaped::More(Escape::Digits {
            left: left - 1,
            value,
        }))
    }
}

/// The character that an ECHAR of this name stands for.
pub(crate) fn named_character(name: char) -> Option<char>
    ensures { result ≡ named_character name }
{
    match name {
        't' => Some('\t'),
        'b' => Some('\u{8}'),
        'n' => Some('\n'),
        'r' => Some('\r'),
        'f' => Some('\u{C}'),
        '"' => Some('"'),
        '\'' => Some('\''),
        '\\' => Some('\\'),
        _ => None,
    }
}

pub(crate) fn is_hexadecimal(c: char) -> bool
    ensures { result ≡ is_ascii_hexdigit c }
{
    c.is_ascii_hexdigit()
}

/// The value of a hexadecimal digit.
pub(crate) fn digit_value(digit: char) -> u32
    requires { IsTrue (is_ascii_hexdigit digit) }
    ensures value { result ≡ Rattle.std.specs.Char.digit_value digit }
    ensures bound { result < 16 }
{
    match digit {
        '0'..='9' => digit as u32 - '0' as u32,
        'A'..='F' => digit as u32 - 'A' as u32 + 10,
        _ => digit as u32 - 'a' as u32 + 10,
    }
}
