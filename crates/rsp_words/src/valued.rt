// An option with a value.
ghost use Rattle.std.specs.Prelude.{◌≡◌, ◌∷◌, ◌<◌, IfSome, MatchOption, Some, false, length, option_map};
ghost use Rattle.rsp_words.specs.Words as words;
ghost use Rattle.rsp_words.specs.Words.{is_dashes, without};

use rsp_terms::Text;

/// The value of the option of this name, where a word that isn't `--` is that option, and what stands behind the value.
pub(crate) fn value_of<'a>(
    name: &str,
    word: &'a Text,
    behind: &'a [Text],
) -> Option<(&'a str, &'a [Text])>
    requires { is_dashes word.now ≡ false }
    ensures option { MatchOption result
        ((words.value_of name.now (word.now ∷ behind.now) ≡ words.value_of name.now behind.now)
        × (without name.now (word.now ∷ behind.now) ≡ word.now ∷ without name.now behind.now))
        (λ x. (words.value_of name.now (word.now ∷ behind.now) ≡ Some x.0.now)
        × (without name.now (word.now ∷ behind.now) ≡ x.1.now)) }
    ensures shorter { IfSome result (λ x. length x.1.now < length (word.now ∷ behind.now)) }
{
    match behind {
        [value, more @ ..] if word.as_str() == name => Some((value.as_str(), more)),
        _ => Some((value_in(name, word.as_str())?, behind)),
    }
}

// what stands behind the option's name and `=`
fn value_in<'a>(name: &str, word: &'a str) -> Option<&'a str>
    ensures { option_map (λ value. value.now) result ≡ words.value_in name.now word.now }
{
    word.strip_prefix(name)?.strip_prefix("=")
}
