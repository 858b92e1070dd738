// What `events` is asked for.
ghost use Rattle.std.specs.Prelude.{◌≡◌, ◌∷◌, ◌<◌, ℕ, IfSome, List, MatchOption, None, Option, Some, false, length};
ghost use Rattle.std.specs.Option.{unwrap_or};
ghost use Rattle.rsp_words.specs.LogWords.{log_ahead};
ghost use Rattle.rsp_words.specs.Playing.{form_ahead, values_ahead};
ghost use Rattle.rsp_words.specs.Words.{is_dashes, log_for, log_of, slack_read};

use crate::form::Form;
use crate::valued::value_of;
use crate::words::{is_dashes, is_json};
use rsp_spec::limits::MOST_SLACK;
use rsp_terms::Text;
use rsp_text::read_u64;

/// How a log is worked off.
#[derive(Clone, Copy)]
pub struct Log {
    /// The form of its reports.
    pub form: Form,
    /// By how many milliseconds an item may be behind the latest one.
    pub slack: u64,
}

/// The options behind `events`.
#[derive(Clone, Copy)]
pub(crate) struct LogOptions {
    pub form: Form,
    /// The number of `--slack`, if it is given.
    pub slack: Option<u64>,
}

/// What the words behind `events` ask for; None where they are not its options. Takes no memory.
pub(crate) fn log_of(words: &[Text]) -> Option<Log>
    ensures { result ≡ log_of words.now }
{
    let mut so_far = LogOptions {
        form: Form::Table,
        slack: None,
    };
    let mut rest = words;
    'words: loop {
        let Some((word, behind)) = rest.split_first() else {
            return log_for(so_far, rest);
        };
        if is_dashes(word) {
            return log_for(so_far, behind);
        }
        match with_word(so_far, word, behind) {
            Some((now, left)) => {
                so_far = now;
                rest = left;
            }
            None => return None,
        }
    }
}

// the log of these options, where there is no value
fn log_for(read: LogOptions, values: &[Text]) -> Option<Log>
    ensures { result ≡ log_for read.form values.now (Some (unwrap_or read.slack 0)) }
{
    match values {
        [] => Some(Log {
            form: read.form,
            slack: read.slack.unwrap_or(0),
        }),
        [_, ..] => None,
    }
}

// with a word that isn't `--`, and the next one where that belongs to it; and the words that are left
#[tactic(auto, using(crate::proofs::Slack::no_slack))]
fn with_word<'a>(
    so_far: LogOptions,
    word: &'a Text,
    behind: &'a [Text],
) -> Option<(LogOptions, &'a [Text])>
    requires { is_dashes word.now ≡ false }
    ensures log { MatchOption result (log_ahead so_far (word.now ∷ behind.now) ≡ None)
        (λ x. log_ahead x.0 x.1.now ≡ log_ahead so_far (word.now ∷ behind.now)) }
    ensures shorter { IfSome result (λ x. length x.1.now < length (word.now ∷ behind.now)) }
{
    let LogOptions { form, slack } = so_far;
    match slack {
        None => match value_of("--slack", word, behind) {
            Some((digits, left)) => {
                let slack = Some(read_slack(digits)?);
                Some((LogOptions { form, slack }, left))
            }
            None => {
                let form = with_json(form, word)?;
                Some((LogOptions { form, slack: None }, behind))
            }
        },
        Some(slack) => {
            let form = with_json(form, word)?;
            let slack = Some(slack);
            Some((LogOptions { form, slack }, behind))
        }
    }
}

// the form, with a word that can be the option of JSON alone, where it wasn't read before
fn with_json(form: Form, word: &Text) -> Option<Form>
    requires { is_dashes word.now ≡ false }
    ensures { (rest : List (List ℕ)) → MatchOption result
        ((slack : Option ℕ) → log_for (form_ahead form (word.now ∷ rest)) (values_ahead form (word.now ∷ rest)) slack ≡ None)
        (λ now. (form_ahead now rest ≡ form_ahead form (word.now ∷ rest))
        × (values_ahead now rest ≡ values_ahead form (word.now ∷ rest))) }
{
    match form {
        Form::Table => {
            if is_json(word) {
                return Some(Form::Json);
            }
            None
        }
        Form::Json => None,
    }
}

// the number of milliseconds that digits give, at most a day
fn read_slack(digits: &str) -> Option<u64>
    ensures { result ≡ slack_read (Some digits.now) }
{
    match read_u64(digits.as_bytes()) {
        Some(slack) if slack <= MOST_SLACK => Some(slack),
        _ => None,
    }
}
