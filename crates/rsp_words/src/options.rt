// The options and the values of `run`, word by word.
ghost use Rattle.std.specs.Prelude.{◌≡◌, ◌∷◌, ◌+◌, ◌++◌, ◌<◌, [], ℕ, IfSome, List, MatchOption, false, length, map};
ghost use Rattle.rsp_spec.specs.Limits.{most_streams};
ghost use Rattle.rsp_words.specs.Playing.{form_ahead, options, options_in, options_of, values_ahead, values_in};
ghost use Rattle.rsp_words.specs.Words.{is_dashes};

use crate::form::Form;
use crate::valued::value_of;
use crate::words::{is_dashes, is_json};
use arrayvec::ArrayVec;
use rsp_spec::limits::MOST_STREAMS;
use rsp_terms::Text;

// The most values: a query's file and the streams.
const MOST_VALUES: usize = MOST_STREAMS + 1;

/// The options and the values behind `run`.
#[derive(Drop)]
pub(crate) struct Options<'a> {
    pub form: Form,
    /// The file of `--store`, if it is given.
    pub store: Option<&'a str>,
    pub values: ArrayVec<&'a str, MOST_VALUES>,
}

/// The options and the values among the words behind `run`; None where there are too many values. Takes no memory.
pub(crate) fn read_options(words: &[Text]) -> Option<Options<'_>>
    ensures { MatchOption result (most_streams + 1 < length (options_of words.now).values) (λ found. options_in found ≡ options_of words.now) }
{
    let mut so_far = Options {
        form: Form::Table,
        store: None,
        values: ArrayVec::new(),
    };
    let mut rest = words;
    'words: loop {
        let Some((word, behind)) = rest.split_first() else {
            return Some(so_far);
        };
        if is_dashes(word) {
            return with_values(so_far, behind);
        }
        match with_word(so_far, word, behind) {
            Some((now, left)) => {
                so_far = now;
                rest = left;
            }
            None => return None,
        }
    }
}

// with a word that isn't `--`, and the next one where that belongs to it; and the words that are left
fn with_word<'a>(
    so_far: Options<'a>,
    word: &'a Text,
    behind: &'a [Text],
) -> Option<(Options<'a>, &'a [Text])>
    requires { is_dashes word.now ≡ false }
    ensures options { MatchOption result (most_streams + 1 < length (options so_far.entry (word.now ∷ behind.now)).values)
        (λ x. options x.0 x.1.now ≡ options so_far.entry (word.now ∷ behind.now)) }
    ensures shorter { IfSome result (λ x. length x.1.now < length (word.now ∷ behind.now)) }
{
    let Options {
        form,
        store,
        values,
    } = so_far;
    match store {
        None => match value_of("--store", word, behind) {
            Some((file, left)) => {
                let store = Some(file);
                Some((
                    Options {
                        form,
                        store,
                        values,
                    },
                    left,
                ))
            }
            None => Some((with_value(form, None, values, word)?, behind)),
        },
        Some(file) => Some((with_value(form, Some(file), values, word)?, behind)),
    }
}

// with a word that is no option but `--json`, which is a value where it was read before
fn with_value<'a>(
    form: Form,
    store: Option<&'a str>,
    values: ArrayVec<&'a str, MOST_VALUES>,
    word: &'a Text,
) -> Option<Options<'a>>
    requires { is_dashes word.now ≡ false }
    ensures { (rest : List (List ℕ)) → MatchOption result
        (most_streams + 1 < length (map (λ value. value.now) values.entry.items ++ values_ahead form (word.now ∷ rest)))
        (λ now. (now.store ≡ store.entry) × ((form_ahead now.form rest ≡ form_ahead form (word.now ∷ rest))
        × (values_in now ++ values_ahead now.form rest
        ≡ map (λ value. value.now) values.entry.items ++ values_ahead form (word.now ∷ rest)))) }
{
    match form {
        Form::Table => {
            if is_json(word) {
                let form = Form::Json;
                return Some(Options {
                    form,
                    store,
                    values,
                });
            }
            let values = pushed(values, word)?;
            Some(Options {
                form,
                store,
                values,
            })
        }
        Form::Json => {
            let values = pushed(values, word)?;
            Some(Options {
                form,
                store,
                values,
            })
        }
    }
}

fn pushed<'a>(
    values: ArrayVec<&'a str, MOST_VALUES>,
    word: &'a Text,
) -> Option<ArrayVec<&'a str, MOST_VALUES>>
    ensures { MatchOption result (length (map (λ value. value.now) values.entry.items) ≡ most_streams + 1)
        (λ now. map (λ value. value.now) now.items ≡ map (λ value. value.now) values.entry.items ++ (word.now ∷ [])) }
{
    let mut values = values;
    match values.try_push(word.as_str()) {
        Ok(()) => Some(values),
        Err(_) => None,
    }
}

// with words that are all values
fn with_values<'a>(so_far: Options<'a>, words: &'a [Text]) -> Option<Options<'a>>
    ensures { MatchOption result (most_streams + 1 < length (values_in so_far.entry ++ words.now))
        (λ now. options_in now ≡ record (options_in so_far.entry) { values = values_in so_far.entry ++ words.now }) }
{
    let Options {
        form,
        store,
        values,
    } = so_far;
    let mut values = values;
    for word in words {
        match values.try_push(word.as_str()) {
            Ok(()) => {}
            Err(_) => return None,
        }
    }
    Some(Options {
        form,
        store,
        values,
    })
}
