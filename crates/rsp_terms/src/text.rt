// Shared text.
ghost use Rattle.std.specs.Prelude.{◌≡◌, IfOk};
ghost use Rattle.std.specs.Str.{IsAscii};
ghost use Rattle.rsp_terms.specs.TextNumbers.{text_number};

use std::alloc::{AllocError, Global};
use std::cmp::Ordering;
use std::hash::{BuildHasher, BuildHasherDefault, FoldHasher, Hash, Hasher};
use std::marker::Model;
use std::rc::RcStr;
use std::{fmt, str};

/// A text that can be shared without a copy of its bytes. Texts compare by their bytes. Each keeps the number that the hasher of
/// std's maps gives for them, so that they are read once, however often it is looked up.
#[derive(Drop)]
pub struct Text {
    shared: RcStr<Global>,
    number: u64,
}

impl Model for Text {
    ghost use Rattle.std.specs.Prelude.{◌≡◌, List, ℕ};
    ghost use Rattle.std.specs.Rc.{rc_str_bytes};
    ghost use Rattle.rsp_terms.specs.TextNumbers.{text_number};

    ghost Value = { List ℕ };

    ghost view = { λ t. rc_str_bytes t.shared };

    ghost invariant = { λ t. t.number ≡ text_number (rc_str_bytes t.shared) };
}

impl Text {
    /// A text with these bytes. Fails only where memory is refused.
    pub fn new(alloc: Global, text: &str) -> Result<Text, AllocError>
        ensures { IfOk result (λ made. made ≡ text.now) }
    {
        let shared = RcStr::from_str(alloc, text)?;
        let number = number_of(text);
        Ok(Text { shared, number })
    }

    /// The characters.
    pub fn as_str(&self) -> &str
        ensures { result.now ≡ self.now }
    {
        self.shared.as_str()
    }

    /// An equal text; that it shares this one's bytes isn't claimed. Fails only where memory is refused.
    pub fn share(&self) -> Result<Text, AllocError>
        ensures { IfOk result (λ other. other ≡ self.now) }
    {
        let shared = self.shared.clone()?;
        Ok(Text {
            shared,
            number: self.number,
        })
    }
}

// what the hasher of std's maps gives for the bytes
fn number_of(text: &str) -> u64
    ensures { result ≡ text_number text.now }
{
    BuildHasherDefault::<FoldHasher>::new().hash_one(text)
}

/// A text of ASCII characters, from their bytes. Fails only where memory is refused.
pub fn ascii_text(alloc: Global, bytes: &[u8]) -> Result<Text, AllocError>
    requires { IsAscii bytes.now }
    ensures { IfOk result (λ text. text ≡ bytes.now) }
{
    match str::from_utf8(bytes) {
        Ok(text) => Text::new(alloc, text),
        Err(_) => unreachable!(),
    }
}

impl PartialEq for Text {
    ghost use Rattle.std.specs.Prelude.{nat_eq};
    ghost use Rattle.std.specs.Cmp.{partial_equiv_from_equiv};
    ghost use Rattle.std.specs.Cmp.Lexicographic.{pointwise, nat_list_eq_equiv};

    ghost eq = { pointwise nat_eq };

    ghost laws = { partial_equiv_from_equiv nat_list_eq_equiv };

    fn eq(&self, other: &Text) -> bool {
        // one comparison tells most unequal texts apart
        if self.number != other.number {
            return false;
        }
        self.as_str() == other.as_str()
    }
}

impl Eq for Text {
    ghost use Rattle.std.specs.Cmp.Lexicographic.{nat_list_eq_equiv};

    ghost laws = { nat_list_eq_equiv };
}

impl PartialOrd for Text {
    ghost use Rattle.std.specs.Prelude.{Some};
    ghost use Rattle.std.specs.Ordering.{nat_cmp};
    ghost use Rattle.std.specs.Cmp.Lexicographic.{slice_cmp, texts_po};

    ghost partial_cmp = { λ a b. Some (slice_cmp nat_cmp a b) };

    ghost laws = { texts_po };

    fn partial_cmp(&self, other: &Text) -> Option<Ordering> {
        Some(self.cmp(other))
    }
}

impl Ord for Text {
    ghost use Rattle.std.specs.Prelude.{refl};
    ghost use Rattle.std.specs.Ordering.{nat_cmp};
    ghost use Rattle.std.specs.Cmp.Lexicographic.{slice_cmp, nat_list_cmp_total, texts_ties};

    ghost cmp = { slice_cmp nat_cmp };

    ghost total = { nat_list_cmp_total };

    ghost matches_partial_cmp = { λ _ _. refl };

    ghost matches_eq = { texts_ties };

    fn cmp(&self, other: &Text) -> Ordering {
        self.as_str().cmp(other.as_str())
    }
}

impl Hash for Text {
    ghost use Rattle.std.specs.Hash as fed;
    ghost use Rattle.std.specs.Cmp.Lexicographic.{bytes_decides};
    ghost use Rattle.std.proofs.Common.{ap};
    ghost use Rattle.rsp_terms.specs.TextNumbers.{text_number};

    ghost hash_input = { λ t. fed.u64 (text_number t) };

    ghost respects_eq = { λ a b same. ap (λ t. fed.u64 (text_number t)) ((bytes_decides a b).0 same) };

    fn hash<H: Hasher>(&self, state: &mut H) {
        state.write_u64(self.number);
    }
}

impl fmt::Display for Text {
    ghost use Rattle.std.specs.Prelude.{Some};

    ghost output = { λ t. Some t };

    fn fmt<W: fmt::Write>(&self, f: &mut fmt::Formatter<W>) -> fmt::Result {
        f.write_str(self.as_str())
    }
}

impl fmt::Debug for Text {
    fn fmt<W: fmt::Write>(&self, f: &mut fmt::Formatter<W>) -> fmt::Result {
        fmt::Debug::fmt(self.as_str(), f)
    }
}
