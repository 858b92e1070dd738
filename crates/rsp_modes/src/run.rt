// Replaying recorded streams for a query.
ghost use Rattle.std.specs.Prelude.{◌≡◌, ◌≤◌, ◌+◌, ◌∷◌, ◌++◌, [], None, Some, IsTrue, IfOk, map, codes, option_map, ◌-◌, length};
ghost use Rattle.std.specs.Prelude.{slice_get};
ghost use Rattle.std.specs.Vec.Iter.{into_iter_items};
ghost use Rattle.rsp_events.specs.Instants.{IsInstant, AllTimed};
ghost use Rattle.rsp_events.specs.Merged.{merged, item_time};
ghost use Rattle.rsp_engine.specs.Stands.{Stands, is_idle};
ghost use Rattle.rsp_engine.specs.World.{empty_world};
ghost use Rattle.rsp_spec.specs.Limits.{most_file_bytes};
ghost use Rattle.rsp_modes.specs.FileAnswers.{AnswersFiles};
ghost use Rattle.rsp_modes.specs.Costs.{CostsFiles};
ghost use Rattle.rsp_modes.specs.Feeding.{AreTimed, AreTimedBatches, batches_given, files_given, run_left};
ghost use Rattle.rsp_modes.specs.Feeds.{IsTimedBatch, given_in};
ghost use Rattle.rsp_modes.specs.Output.{a_block, run};
ghost use Rattle.rsp_words.specs.Playing.{replay_for, stream_for};
ghost use Rattle.rsp_modes.specs.Recordings.{with_tick};
ghost use Rattle.rsp_modes.specs.Replays.{all_lines_given, given_by, given_of, line_given, query_given};
ghost use Rattle.rsp_modes.specs.Replays.{played, played_over, replayed};
ghost use Rattle.rsp_modes.specs.Sayings.{Says};
ghost use Rattle.rsp_modes.specs.Shelves.{shelf_seen};
ghost use Rattle.rsp_modes.specs.Summaries.{event_block, numbered};
ghost use Rattle.rsp_words.specs.Words.{names_of};
ghost use Rattle.std.specs.List.{AllByRecursion};
ghost use Rattle.rsp_events.specs.Recorded.{recorded};
ghost use Rattle.rsp_events.specs.declared.event.Event.TheVariants as event;
ghost use Rattle.rsp_modes.specs.Recordings as replays;

use crate::checking::status_of_unread;
use crate::drive::{drive, stop_of};
use crate::faults::text_in;
use crate::feed::{Batch, Cut, Feed};
use crate::reading::read_files;
use crate::refusals::{Answered, Place};
use crate::status::Status;
use crate::stop::{Stop, status_of};
use crate::voice::Voice;
use rsp_algebra::Answer;
use rsp_engine::{Engine, Refused};
use rsp_events::{
    Block, Content, Event, LineRefused, LoadedQuads, RecordedItems, loaded, merge, recorded,
};
use rsp_io::{Shelf, Sink, Source, SteadySource};
use rsp_steps::Steps;
use rsp_terms::{Listed, Text};
use rsp_words::{Form, Replay, Stream};
use std::alloc::{AllocError, Global};
use std::sync::ledger::Ledger;
use std::vec::IntoIter;

/// Reads the files that are named, and then writes their refused lines, and what the events give on this engine: the stored
/// quads, the query, and the items of all streams by time.
pub(crate) fn replay_on<A: Answer, H: Shelf, K: Sink, L: Ledger>(
    alloc: Global,
    engine: &mut Engine<A>,
    replay: &Replay<'_>,
    shelf: &mut H,
    out: &mut K,
    steps: &mut Steps<L>,
) -> Status
    requires idle { IsTrue (is_idle engine.old) }
    requires new { Stands engine.old (empty_world 0) [] }
    ensures files { AnswersFiles most_file_bytes replay.now.form
        (names_of (replay_for replay.now)) (replayed (replay_for replay.now))
        (shelf_seen (H.files shelf.old) (H.seen shelf.old))
        (shelf_seen (H.files shelf.new) (H.seen shelf.new)) (K.seen out.old) (K.seen out.new) result }
    ensures cost { CostsFiles most_file_bytes (names_of (replay_for replay.now)) (given_of (replay_for replay.now))
        (shelf_seen (H.files shelf.old) (H.seen shelf.old))
        (shelf_seen (H.files shelf.new) (H.seen shelf.new)) steps.old steps.new }
{
    match read_files(alloc, shelf, replay) {
        Ok(files) => match run_feed(alloc, replay, files.as_slice()) {
            Ok(feed) => status_of(tell_feed(alloc, engine, feed, replay.form, out, steps)),
            Err(AllocError) => Status::OutOfMemory,
        },
        Err(unread) => status_of_unread(unread),
    }
}

// writes what the feed gives; the answer is whether something was refused
fn tell_feed<A: Answer, K: Sink, L: Ledger>(
    alloc: Global,
    engine: &mut Engine<A>,
    feed: RunFeed,
    form: Form,
    out: &mut K,
    steps: &mut Steps<L>,
) -> Result<bool, Stop>
    requires idle { IsTrue (is_idle engine.old) }
    requires new { Stands engine.old (empty_world 0) [] }
    requires timed { AreTimedBatches (into_iter_items feed.batches) }
    ensures says { Says form (K.seen out.old) (K.seen out.new)
        (run (empty_world 0) (run_left feed.files feed.file feed.line
        (into_iter_items feed.batches))).said result }
    ensures cost { steps.new ≤ steps.old + (run (empty_world 0) (run_left feed.files feed.file feed.line
        (into_iter_items feed.batches))).work }
{
    let mut feed = feed;
    let mut nothing = SteadySource::new(Vec::new(alloc), 1);
    let mut voice = Voice::Writes(form);
    let driven = drive(
        alloc,
        engine,
        &mut feed,
        &mut nothing,
        &mut voice,
        out,
        steps,
    );
    stop_of(driven)
}

// ---- the feed

// What recorded streams give: the refused lines of their files, and the batches behind them.
#[derive(Drop)]
struct RunFeed {
    alloc: Global,
    files: Listed<RefusedLines>,
    // the file of the next line, and its place there
    file: usize,
    line: usize,
    batches: IntoIter<Batch>,
}

impl RunFeed {
    fn new(alloc: Global, files: Listed<RefusedLines>, batches: Listed<Batch>) -> RunFeed
        ensures left { run_left result.files result.file result.line (into_iter_items result.batches)
            ≡ files_given files ++ batches_given batches }
        ensures batches { into_iter_items result.batches ≡ batches }
    {
        RunFeed {
            alloc,
            files,
            file: 0,
            line: 0,
            batches: batches.into_vec().into_iter(),
        }
    }
}

impl<S: Source> Feed<S> for RunFeed {
    ghost use Rattle.std.specs.Prelude.{◌≡◌, Some, []};
    ghost use Rattle.std.specs.Vec.Iter.{into_iter_items};
    ghost use Rattle.rsp_modes.specs.Feeding.{AreTimedBatches, run_left, run_turns};
    ghost use Rattle.rsp_modes.specs.Feeds.{LacksMemory};

    ghost fits = { λ feed. AreTimedBatches (into_iter_items feed.batches) };

    ghost gave = { λ _ start now _. now ≡ start };

    ghost ended = { λ _ start now _ cut. (now ≡ start) × LacksMemory cut };

    ghost left = { λ feed. Some (run_left feed.files feed.file feed.line (into_iter_items feed.batches)) };

    ghost settings = { λ _. [] };

    ghost turns = { λ feed. run_turns feed.files feed.file feed.line (into_iter_items feed.batches) };

    /// A refused line; no block where a file ends; then the batches.
    fn next(&mut self, _from: &mut S) -> Result<Option<Batch>, Cut> {
        match self.files.as_slice().get(self.file) {
            Some(read) => match read.lines.as_slice().get(self.line) {
                Some(line) => match refused_line(&read.file, *line) {
                    Ok(batch) => {
                        self.line += 1;
                        Ok(Some(batch))
                    }
                    Err(AllocError) => Err(Cut::Memory),
                },
                None => {
                    self.file += 1;
                    self.line = 0;
                    Ok(Some(Batch::Blocks(Listed::new(self.alloc))))
                }
            },
            None => {
                let batch = self.batches.next();
                Ok(batch)
            }
        }
    }
}

fn refused_line(file: &Text, refused: LineRefused) -> Result<Batch, AllocError>
    ensures given { IfOk result (λ batch. given_in batch ≡ line_given file.now refused ∷ []) }
    ensures timed { IfOk result IsTimedBatch }
{
    let LineRefused { line, fault } = refused;
    let file = file.share()?;
    Ok(Batch::Refused(Place::Line(file, line), Answered::Line(fault)))
}

// ---- what it is made of

fn run_feed(alloc: Global, replay: &Replay<'_>, files: &[Listed<u8>]) -> Result<RunFeed, AllocError>
    ensures left { IfOk result (λ feed. run_left feed.files feed.file feed.line (into_iter_items feed.batches)
        ≡ given_of (replay_for replay.now) files.now) }
    ensures timed { IfOk result (λ feed. AreTimedBatches (into_iter_items feed.batches)) }
{
    let streams = replay.streams.as_slice();
    match files {
        [] => Ok(RunFeed::new(alloc, Listed::new(alloc), Listed::new(alloc))),
        [query, behind @ ..] => match replay.store {
            None => {
                let feed = feed_of_streams(alloc, streams, query.as_slice(), behind)?;
                Ok(feed)
            }
            Some(file) => {
                let feed = feed_of_store(alloc, streams, query.as_slice(), file, behind)?;
                Ok(feed)
            }
        },
    }
}

// without stored quads
fn feed_of_streams(
    alloc: Global,
    streams: &[Stream<'_>],
    query: &[u8],
    files: &[Listed<u8>],
) -> Result<RunFeed, AllocError>
    ensures left { IfOk result (λ feed. run_left feed.files feed.file feed.line (into_iter_items feed.batches)
        ≡ given_by (map stream_for streams.now) query.now None files.now) }
    ensures timed { IfOk result (λ feed. AreTimedBatches (into_iter_items feed.batches)) }
{
    let StreamFiles { lines, items } = recordings(alloc, 1, streams, files, Listed::new(alloc))?;
    let batches = with_played(alloc, Listed::new(alloc), 1, query, items)?;
    Ok(RunFeed::new(alloc, lines, batches))
}

// with stored quads, whose file is the first
fn feed_of_store(
    alloc: Global,
    streams: &[Stream<'_>],
    query: &[u8],
    file: &str,
    files: &[Listed<u8>],
) -> Result<RunFeed, AllocError>
    ensures left { IfOk result (λ feed. run_left feed.files feed.file feed.line (into_iter_items feed.batches)
        ≡ given_by (map stream_for streams.now) query.now (Some file.now) files.now) }
    ensures timed { IfOk result (λ feed. AreTimedBatches (into_iter_items feed.batches)) }
{
    match files {
        [] => Ok(RunFeed::new(alloc, Listed::new(alloc), Listed::new(alloc))),
        [store, behind @ ..] => {
            let LoadedQuads { quads, refused } = loaded(alloc, 1, store.as_slice())?;
            let mut before = Listed::new(alloc);
            before.push(RefusedLines {
                file: Text::new(alloc, file)?,
                lines: refused,
            })?;
            let StreamFiles { lines, items } = recordings(alloc, 2, streams, behind, before)?;
            let mut stored = Listed::new(alloc);
            stored.push(event_block(1, Event::Insert { quads }))?;
            let batches = with_played(alloc, stored, 2, query, items)?;
            Ok(RunFeed::new(alloc, lines, batches))
        }
    }
}

// the query, as the block of this number, and the items, behind some batches
fn with_played(
    alloc: Global,
    before: Listed<Batch>,
    number: u64,
    query: &[u8],
    items: Listed<Listed<Event>>,
) -> Result<Listed<Batch>, AllocError>
    requires number { number ≤ 2 }
    requires timed { AreTimed items }
    requires before { AreTimedBatches before }
    ensures given { IfOk result (λ batches. batches_given batches
        ≡ batches_given before ++ played number query.now (with_tick (merged items))) }
    ensures timed { IfOk result AreTimedBatches }
{
    let mut batches = before;
    batches.push(query_batch(alloc, number, query)?)?;
    batches.push(Batch::Blocks(blocks_of(alloc, number + 1, items)?))?;
    Ok(batches)
}

fn event_block(number: u64, event: Event) -> Batch
    requires { IsInstant event }
    ensures given { given_in result ≡ a_block (event_block (number, event)) ∷ [] }
    ensures timed { IsTimedBatch result }
{
    let content = Content::Event(event);
    Batch::Block(Block { number, content })
}

// the query's registration as a block; a file that can be no text of a query is refused in its place
fn query_batch(alloc: Global, number: u64, query: &[u8]) -> Result<Batch, AllocError>
    ensures given { IfOk result (λ batch. given_in batch ≡ query_given number query.now ∷ []) }
    ensures timed { IfOk result IsTimedBatch }
{
    match text_in(query) {
        Ok(text) => Ok(event_block(number, registration(alloc, text)?)),
        Err(fault) => {
            let why = Refused::Text(fault);
            Ok(Batch::Refused(Place::Block(number), Answered::Event(why)))
        }
    }
}

fn registration(alloc: Global, text: &str) -> Result<Event, AllocError>
    ensures { IfOk result (λ made. made ≡ event.Register (codes "query") text.now) }
{
    let name = Text::new(alloc, "query")?;
    let text = Text::new(alloc, text)?;
    Ok(Event::Register { name, text })
}

/// The refused lines of a file, by its name.
#[derive(Drop)]
pub(crate) struct RefusedLines {
    pub file: Text,
    pub lines: Listed<LineRefused>,
}

/// What the files of streams hold: their refused lines, and the items of each.
#[derive(Drop)]
pub(crate) struct StreamFiles {
    pub lines: Listed<RefusedLines>,
    pub items: Listed<Listed<Event>>,
}

/// What the files of the streams hold, each as a document, of which the first has this number; their refused lines stand behind
/// these.
pub(crate) fn recordings(
    alloc: Global,
    first: u32,
    streams: &[Stream<'_>],
    files: &[Listed<u8>],
    before: Listed<RefusedLines>,
) -> Result<StreamFiles, AllocError>
    ensures lines { IfOk result (λ found. files_given found.lines ≡ files_given before
        ++ all_lines_given (map stream_for streams.now) (replays.recordings first (map stream_for streams.now) files.now)) }
    ensures items { IfOk result (λ found.
        found.items ≡ replays.items_of (replays.recordings first (map stream_for streams.now) files.now)) }
    ensures timed { IfOk result (λ found. AreTimed found.items) }
{
    let mut lines = before;
    let mut lists = Listed::new(alloc);
    let mut document = first;
    let mut place = 0;
    'files: loop {
        match (streams.get(place), files.get(place)) {
            (Some(stream), Some(file)) => {
                let read = recording(alloc, document, stream, file.as_slice())?;
                let RecordedItems { items, refused } = read;
                lines.push(RefusedLines {
                    file: Text::new(alloc, stream.file)?,
                    lines: refused,
                })?;
                lists.push(items)?;
                document = next_document(document)?;
                place += 1;
            }
            _ => return Ok(StreamFiles {
                lines,
                items: lists,
            }),
        }
    }
}

fn recording(
    alloc: Global,
    document: u32,
    stream: &Stream<'_>,
    file: &[u8],
) -> Result<RecordedItems, AllocError>
    ensures value { IfOk result (λ read. read ≡ recorded stream.now.iri.now document file.now) }
    ensures timed { IfOk result (λ read. AllByRecursion IsInstant read.items) }
{
    let name = Text::new(alloc, stream.iri)?;
    recorded(alloc, &name, document, file)
}

fn next_document(document: u32) -> Result<u32, AllocError>
    ensures { IfOk result (λ next. next ≡ document + 1) }
{
    match document.checked_add(1) {
        Some(next) => Ok(next),
        None => Err(AllocError),
    }
}

/// The items of all streams, merged, and a tick at the last one's time, if there is one: as blocks, of which the first has
/// this number.
pub(crate) fn blocks_of(
    alloc: Global,
    first: u64,
    lists: Listed<Listed<Event>>,
) -> Result<Listed<Block>, AllocError>
    requires { AreTimed lists }
    ensures value { IfOk result (λ blocks. blocks ≡ numbered first (replays.with_tick (merged lists))) }
    ensures timed { IfOk result AllTimed }
{
    let items = merge(alloc, lists)?;
    numbered(alloc, first, with_tick(items)?)
}

fn with_tick(items: Listed<Event>) -> Result<Listed<Event>, AllocError>
    ensures { IfOk result (λ events. events ≡ replays.with_tick items) }
{
    let mut events = items;
    match last_time(events.as_slice()) {
        Some(time) => {
            events.push(Event::Tick { time })?;
            Ok(events)
        }
        None => Ok(events),
    }
}

fn last_time(items: &[Event]) -> Option<u64>
    ensures { result ≡ option_map item_time (slice_get items.now (length items.now - 1)) }
{
    match items.last() {
        Some(item) => Some(time_of(item)),
        None => None,
    }
}

// the time of an item; of other events none is asked
fn time_of(event: &Event) -> u64
    ensures { result ≡ item_time event.now }
{
    match event {
        Event::Item { time, .. } => *time,
        _ => 0,
    }
}

fn numbered(alloc: Global, first: u64, events: Listed<Event>) -> Result<Listed<Block>, AllocError>
    ensures { IfOk result (λ blocks. blocks ≡ numbered first events) }
{
    let mut blocks = Listed::new(alloc);
    let mut number = first;
    for event in events.into_vec() {
        let content = Content::Event(event);
        blocks.push(Block { number, content })?;
        number = next_number(number)?;
    }
    Ok(blocks)
}

fn next_number(number: u64) -> Result<u64, AllocError>
    ensures { IfOk result (λ next. next ≡ number + 1) }
{
    match number.checked_add(1) {
        Some(next) => Ok(next),
        None => Err(AllocError),
    }
}
