// The program's words.
ghost use Rattle.std.specs.Prelude.{◌≡◌, ◌∷◌, [], IfOk, IfSome, drop, map, bytes_eq, option_map, string_bytes};
ghost use Rattle.std.specs.Vec.Iter.{into_iter_items};
ghost use Rattle.std.specs.Map.{lookup};
ghost use Rattle.std.specs.Option.{option_and_then};
ghost use Rattle.rsp_words.specs.Asked.{IsWithinLimits, mode_for, only_value};
ghost use Rattle.rsp_words.specs.Words.{check_of, events_of, generate_of, is_dashes, is_file, is_json, mode_of, run_of, table, values};

use crate::log::{Log, log_of};
use crate::options::read_options;
use crate::replay::{Replay, replay_of};
use rsp_spec::limits::MOST_ITEMS;
use rsp_terms::{Listed, Text};
use rsp_text::read_u64;
use std::alloc::{AllocError, Global};
use std::vec::IntoIter;

/// What the words ask for.
#[derive(Drop)]
pub enum Mode<'a> {
    /// To work off the log on standard input.
    Events(Log),
    /// To replay recorded streams for a query.
    Run(Replay<'a>),
    /// To check the query in the file of this name.
    Check(&'a str),
    /// To work off so many items of the generator, 1 to 1,000,000.
    Generate(u64),
}

/// What the words, without the program's name, ask for; None where they are in no row of the table. Takes no memory.
pub fn mode_of(words: &[Text]) -> Option<Mode<'_>>
    ensures mode { option_map mode_for result ≡ mode_of words.now }
    ensures limits { IfSome result IsWithinLimits }
{
    match words {
        [] => None,
        [word, more @ ..] => mode_in_table(word.as_str(), more),
    }
}

fn mode_in_table<'a>(word: &str, more: &'a [Text]) -> Option<Mode<'a>>
    ensures mode { option_map mode_for result ≡ option_and_then (λ row. row more.now) (lookup (bytes_eq word.now) table) }
    ensures limits { IfSome result IsWithinLimits }
{
    match word {
        "events" => events_of(more),
        "run" => run_of(more),
        "check" => check_of(more),
        "gen" => generate_of(more),
        _ => None,
    }
}

fn events_of(more: &[Text]) -> Option<Mode<'static>>
    ensures mode { option_map mode_for result ≡ events_of more.now }
    ensures limits { IfSome result IsWithinLimits }
{
    match log_of(more) {
        Some(log) => Some(Mode::Events(log)),
        None => None,
    }
}

fn run_of(more: &[Text]) -> Option<Mode<'_>>
    ensures mode { option_map mode_for result ≡ run_of more.now }
    ensures limits { IfSome result IsWithinLimits }
{
    match replay_of(read_options(more)?) {
        Some(asked) => Some(Mode::Run(asked)),
        None => None,
    }
}

fn check_of(more: &[Text]) -> Option<Mode<'_>>
    ensures mode { option_map mode_for result ≡ check_of (values more.now) }
    ensures limits { IfSome result IsWithinLimits }
{
    match only_value(more) {
        Some(query) if is_file(query.as_bytes()) => Some(Mode::Check(query)),
        _ => None,
    }
}

fn generate_of(more: &[Text]) -> Option<Mode<'static>>
    ensures mode { option_map mode_for result ≡ generate_of (values more.now) }
    ensures limits { IfSome result IsWithinLimits }
{
    match read_u64(only_value(more)?.as_bytes()) {
        Some(count) if 1 <= count && count <= MOST_ITEMS => Some(Mode::Generate(count)),
        _ => None,
    }
}

// the value behind a mode, where there is one alone
fn only_value(more: &[Text]) -> Option<&str>
    ensures { option_map (λ v. v.now) result ≡ only_value (values more.now) }
{
    match more {
        [] => None,
        [word] => (!is_dashes(word)).then_some(word.as_str()),
        [first, second] => value_of_two(first, second),
        [_, _, _, ..] => None,
    }
}

// the one of two words that isn't `--`, where the other is
fn value_of_two<'a>(first: &'a Text, second: &'a Text) -> Option<&'a str>
    ensures { option_map (λ v. v.now) result ≡ only_value (values (first.now ∷ second.now ∷ [])) }
{
    if is_dashes(first) {
        return Some(second.as_str());
    }
    is_dashes(second).then_some(first.as_str())
}

/// Whether a word is the option of JSON.
pub(crate) fn is_json(word: &Text) -> bool
    ensures { result ≡ is_json word.now }
{
    word.as_str() == "--json"
}

/// Whether a word ends the options.
pub(crate) fn is_dashes(word: &Text) -> bool
    ensures { result ≡ is_dashes word.now }
{
    word.as_str() == "--"
}

/// Whether this can be a file's name on the command line.
pub(crate) fn is_file(name: &[u8]) -> bool
    ensures { result ≡ is_file name.now }
{
    match name {
        [] => false,
        [first, ..] => *first != b'-',
    }
}

/// The words of a command line, behind the program's name.
pub fn words_behind_name(alloc: Global, line: IntoIter<String>) -> Result<Listed<Text>, AllocError>
    ensures { IfOk result (λ words. words ≡ map string_bytes (drop 1 (into_iter_items line))) }
{
    let mut line = line;
    let _name = line.next();
    words_of(alloc, line)
}

fn words_of(alloc: Global, line: IntoIter<String>) -> Result<Listed<Text>, AllocError>
    ensures { IfOk result (λ words. words ≡ map string_bytes (into_iter_items line)) }
{
    let mut words = Listed::new(alloc);
    for word in line {
        words.push(Text::new(alloc, word.as_str())?)?;
    }
    Ok(words)
}
