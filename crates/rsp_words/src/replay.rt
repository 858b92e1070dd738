// What `run` is asked for.
ghost use Rattle.std.specs.Prelude.{◌≡◌, ◌&&◌, ◌≤◌, Some, length, map, nat_le, option_map, slice_get, true};
ghost use Rattle.std.specs.Bool.{then_some};
ghost use Rattle.std.specs.Option.{option_map_or};
ghost use Rattle.std.specs.Str.{chars};
ghost use Rattle.rsp_spec.specs.Limits.{most_streams};
ghost use Rattle.rsp_terms.specs.Characters.{is_iri_text};
ghost use Rattle.rsp_words.specs.Playing.{replay_for, stream_for, values_in};
ghost use Rattle.rsp_words.specs.Words as words;
ghost use Rattle.rsp_words.specs.Words.{is_file, names_behind, names_of, replay_of, stream_of, streams_of};

use crate::form::Form;
use crate::options::Options;
use crate::words::is_file;
use arrayvec::ArrayVec;
use rsp_spec::limits::MOST_STREAMS;
use rsp_terms::characters::is_iri;

/// A recorded stream: its name, an absolute IRI, and the name of its file.
#[derive(Clone, Copy, Default)]
pub struct Stream<'a> {
    pub iri: &'a str,
    pub file: &'a str,
}

/// Recorded streams, 1 to 16, for the query in a file, over the stored quads in another one, if there is one.
#[derive(Drop)]
pub struct Replay<'a> {
    pub form: Form,
    pub store: Option<&'a str>,
    pub query: &'a str,
    pub streams: ArrayVec<Stream<'a>, MOST_STREAMS>,
}

/// What these options and values ask `run` for; None where they aren't as the table wants them. Takes no memory.
pub(crate) fn replay_of(options: Options<'_>) -> Option<Replay<'_>>
    ensures { option_map replay_for result
        ≡ replay_of options.entry.form (option_map (λ file. file.now) options.entry.store) (values_in options.entry) }
{
    let Options {
        form,
        store,
        values,
    } = options;
    match values.as_slice() {
        [] => None,
        [query, words @ ..] => {
            if !may_replay(query, store, words) {
                return None;
            }
            match streams_of(words) {
                Some(streams) => Some(Replay {
                    form,
                    store,
                    query,
                    streams,
                }),
                None => None,
            }
        }
    }
}

// whether the files of a query and of stored quads have names, and there are 1 to 16 words of streams
fn may_replay(query: &str, store: Option<&str>, words: &[&str]) -> bool
    ensures { result ≡ (is_file query.now && (option_map_or is_file (option_map (λ file. file.now) store.entry) true
        && (nat_le 1 (length words.now) && nat_le (length words.now) most_streams))) }
{
    is_file(query.as_bytes()) && is_store(store) && 1 <= words.len() && words.len() <= MOST_STREAMS
}

fn is_store(store: Option<&str>) -> bool
    ensures { result ≡ option_map_or is_file (option_map (λ file. file.now) store.entry) true }
{
    match store {
        Some(file) => is_file(file.as_bytes()),
        None => true,
    }
}

fn streams_of<'a>(words: &[&'a str]) -> Option<ArrayVec<Stream<'a>, MOST_STREAMS>>
    requires { length words.now ≤ most_streams }
    ensures { option_map (λ streams. map stream_for streams.items) result ≡ streams_of (map (λ word. word.now) words.now) }
{
    let mut streams = ArrayVec::new();
    for word in words {
        match stream_of(word) {
            Some(stream) => streams.push(stream),
            None => return None,
        }
    }
    Some(streams)
}

// the stream of a word that is cut at its last `=`
fn stream_of(word: &str) -> Option<Stream<'_>>
    ensures { option_map stream_for result ≡ stream_of word.now }
{
    match word.rsplit_once('=') {
        Some((iri, file)) => stream_in(iri, file),
        None => None,
    }
}

fn stream_in<'a>(iri: &'a str, file: &'a str) -> Option<Stream<'a>>
    ensures { option_map stream_for result
        ≡ then_some (is_iri_text (chars iri.now) && is_file file.now) (record { iri = iri.now; file = file.now }) }
{
    if !is_iri(iri) {
        return None;
    }
    is_file(file.as_bytes()).then_some(Stream { iri, file })
}

/// The name of the file at this place, from 0: the query's, that of the stored quads, if there is one, and those of the
/// streams.
pub fn name_at<'a>(replay: &Replay<'a>, place: usize) -> Option<&'a str>
    ensures { option_map (λ name. name.now) result ≡ slice_get (names_of (replay_for replay.now)) place }
{
    match place.checked_sub(1) {
        None => Some(replay.query),
        Some(behind) => name_behind(replay, behind),
    }
}

// the name of the file at this place behind the query's
fn name_behind<'a>(replay: &Replay<'a>, place: usize) -> Option<&'a str>
    ensures { option_map (λ name. name.now) result ≡ slice_get (names_behind (replay_for replay.now)) place }
{
    match replay.store {
        None => name_of_stream(replay.streams.as_slice(), place),
        Some(store) => match place.checked_sub(1) {
            None => Some(store),
            Some(behind) => name_of_stream(replay.streams.as_slice(), behind),
        },
    }
}

fn name_of_stream<'a>(streams: &[Stream<'a>], place: usize) -> Option<&'a str>
    ensures { option_map (λ name. name.now) result
        ≡ slice_get (map (λ (stream : words.Stream). stream.file) (map stream_for streams.now)) place }
{
    match streams.get(place) {
        Some(stream) => Some(stream.file),
        None => None,
    }
}
