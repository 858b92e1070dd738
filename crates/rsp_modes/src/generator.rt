// The generator, of whose events only the reports and their rows are counted.
ghost use Rattle.std.specs.Prelude.{◌≡◌, ◌+◌, ◌≤◌, ◌∷◌, IfOk, IfSome, IsTrue, [], false, map, codes};
ghost use Rattle.std.specs.List.{slice_get};
ghost use Rattle.rsp_events.specs.Instants.{IsInstant};
ghost use Rattle.rsp_engine.specs.World.{empty_world};
ghost use Rattle.rsp_engine.specs.Stands.{Stands, is_idle};
ghost use Rattle.rsp_spec.specs.Limits.{most_file_bytes, most_items};
ghost use Rattle.rsp_modes.specs.Costs.{work_of};
ghost use Rattle.rsp_modes.specs.FileAnswers.{AnswersFiles};
ghost use Rattle.rsp_words.specs.declared.form.Form.TheVariants.{Table};
ghost use Rattle.rsp_modes.specs.Generator.{generated};
ghost use Rattle.rsp_modes.specs.Output.{a_block, a_summary};
ghost use Rattle.rsp_modes.specs.Shelves.{ShelfSeen};
ghost use Rattle.rsp_modes.specs.Sayings.{Says};
ghost use Rattle.rsp_modes.specs.Stops.{Ends, Stays};
ghost use Rattle.rsp_modes.specs.Summaries.{counted, numbered};
ghost use Rattle.rsp_modes.specs.Tallies.{IsMaking, gen_left};
ghost use Rattle.rsp_modes.specs.Generator as generator;
ghost use Rattle.rsp_events.specs.declared.event.Event.TheVariants as event;
ghost use Rattle.rsp_terms.specs.declared.term.Term.TheVariants as term;

use crate::drive::{drive, stop_of};
use crate::feed::{Batch, Cut, Feed};
use crate::status::Status;
use crate::stop::{Stop, status_of};
use crate::voice::{Tally, Voice};
use crate::writing::write_all;
use rsp_algebra::Answer;
use rsp_engine::Engine;
use rsp_events::{Block, Content, Event};
use rsp_io::{Sink, Source, SteadySource};
use rsp_steps::Steps;
use rsp_terms::{Listed, Term, Text, Triple};
use std::alloc::{AllocError, Global};
use std::sync::ledger::Ledger;

// The generator's events as a feed: for so many items, how many events were given, and the pseudo-random number of this place.
#[derive(Drop)]
struct GenFeed {
    alloc: Global,
    count: u64,
    given: u64,
    x: u64,
}

impl GenFeed {
    fn new(alloc: Global, count: u64) -> GenFeed
        requires { count ≤ most_items }
        ensures fits { IsMaking result.count result.given result.x }
        ensures left { gen_left result.count result.given ≡ map a_block (numbered 1 (generated count)) }
    {
        GenFeed {
            alloc,
            count,
            given: 0,
            x: 1,
        }
    }

    // the event behind those that were given; none behind the last
    fn event(&self) -> Result<Option<Event>, AllocError>
        requires { IsMaking self.now.count self.now.given self.now.x }
        ensures event { IfOk result (λ event. event ≡ slice_get (generated self.now.count) self.now.given) }
        ensures within { IfOk result (λ event. IfSome event (λ _. self.now.given ≤ self.now.count + 1)) }
        ensures instant { IfOk result (λ event. IfSome event IsInstant) }
    {
        if self.count + 1 < self.given {
            return Ok(None);
        }
        if self.given == 0 {
            return Ok(Some(registration(self.alloc)?));
        }
        if self.count < self.given {
            let time = STEP * self.count;
            return Ok(Some(Event::Tick { time }));
        }
        Ok(Some(item(self.alloc, self.given, self.x)?))
    }
}

impl<S: Source> Feed<S> for GenFeed {
    ghost use Rattle.std.specs.Prelude.{◌≡◌, ◌+◌, ◌-◌, Some, []};
    ghost use Rattle.rsp_modes.specs.Feeds.{LacksMemory};
    ghost use Rattle.rsp_modes.specs.Tallies.{IsMaking, gen_left};

    ghost fits = { λ feed. IsMaking feed.count feed.given feed.x };

    ghost gave = { λ _ start now _. now ≡ start };

    ghost ended = { λ _ start now _ cut. (now ≡ start) × LacksMemory cut };

    ghost left = { λ feed. Some (gen_left feed.count feed.given) };

    ghost settings = { λ _. [] };

    ghost turns = { λ feed. feed.count + 2 - feed.given };

    fn next(&mut self, _from: &mut S) -> Result<Option<Batch>, Cut> {
        match self.event() {
            Ok(Some(event)) => {
                self.given += 1;
                self.x = next_random(self.x);
                let (number, content) = (self.given, Content::Event(event));
                Ok(Some(Batch::Block(Block { number, content })))
            }
            Ok(None) => Ok(None),
            Err(AllocError) => Err(Cut::Memory),
        }
    }
}

/// Works off so many items of the generator on this engine, 1 to 1,000,000, one at a time, and writes what they gave.
pub(crate) fn generate_on<A: Answer, K: Sink, L: Ledger>(
    alloc: Global,
    engine: &mut Engine<A>,
    count: u64,
    out: &mut K,
    steps: &mut Steps<L>,
) -> Status
    requires idle { IsTrue (is_idle engine.old) }
    requires new { Stands engine.old (empty_world 0) [] }
    requires count { count ≤ most_items }
    ensures text { (shelf : ShelfSeen) → AnswersFiles most_file_bytes Table [] (counted count) shelf shelf
        (K.seen out.old) (K.seen out.new) result }
    ensures cost { steps.new ≤ steps.old + work_of (empty_world 0) (map a_block (numbered 1 (generated count))) }
{
    status_of(tell_summary(alloc, engine, count, out, steps))
}

// writes the summary; nothing of it is a refusal
fn tell_summary<A: Answer, K: Sink, L: Ledger>(
    alloc: Global,
    engine: &mut Engine<A>,
    count: u64,
    out: &mut K,
    steps: &mut Steps<L>,
) -> Result<bool, Stop>
    requires idle { IsTrue (is_idle engine.old) }
    requires new { Stands engine.old (empty_world 0) [] }
    requires count { count ≤ most_items }
    ensures says { Says Table (K.seen out.old) (K.seen out.new) (counted count []) result }
    ensures cost { steps.new ≤ steps.old + work_of (empty_world 0) (map a_block (numbered 1 (generated count))) }
{
    let mut feed = GenFeed::new(alloc, count);
    let mut nothing = SteadySource::new(Vec::new(alloc), 1);
    let mut voice = Voice::Counts(Tally {
        reports: 0,
        rows: 0,
    });
    let driven = drive(
        alloc,
        engine,
        &mut feed,
        &mut nothing,
        &mut voice,
        out,
        steps,
    );
    match stop_of(driven) {
        Ok(_) => write_summary(alloc, count, voice.tally(), out),
        Err(stop) => Err(stop),
    }
}

fn write_summary<K: Sink>(
    alloc: Global,
    count: u64,
    tally: Tally,
    out: &mut K,
) -> Result<bool, Stop>
    ensures { Says Table (K.seen out.old) (K.seen out.new) (a_summary count tally.reports tally.rows ∷ []) result }
{
    let Tally { reports, rows } = tally;
    match format!(in alloc; "gen {count} reports {reports} rows {rows}\n") {
        Ok(line) => {
            let written = write_line(out, line.as_bytes());
            written
        }
        Err(AllocError) => Err(Stop::Memory),
    }
}

// writes a line that is no refusal
fn write_line<K: Sink>(out: &mut K, line: &[u8]) -> Result<bool, Stop>
    ensures text { Ends (K.seen out.old) (K.seen out.new) line.now result }
    ensures refused { IfOk result (λ refused. refused ≡ false) }
    ensures stays { Stays (K.seen out.old) (K.seen out.new) result }
{
    write_all(out, line)?;
    Ok(false)
}

const QUERY: &str = "PREFIX ex: <http://example.org/>
REGISTER ISTREAM ex:out AS SELECT ?s (COUNT(*) AS ?n) (SUM(?v) AS ?t)
FROM NAMED WINDOW ex:w ON ex:in [RANGE PT60S STEP PT10S]
WHERE { WINDOW ex:w { ?s ex:v ?v OPTIONAL { ?s ex:off ?f } } FILTER(!BOUND(?f)) } GROUP BY ?s
";

/// The time between two items, in ms.
pub(crate) const STEP: u64 = 100;

/// The registration of the generator's query.
pub(crate) fn registration(alloc: Global) -> Result<Event, AllocError>
    ensures { IfOk result (λ made. made ≡ event.Register (codes "g") generator.query_text) }
{
    let name = Text::new(alloc, "g")?;
    let text = Text::new(alloc, QUERY)?;
    Ok(Event::Register { name, text })
}

/// The number behind a pseudo-random one.
pub(crate) fn next_random(x: u64) -> u64
    ensures { result ≡ generator.next_random x }
{
    x.wrapping_mul(6_364_136_223_846_793_005)
        .wrapping_add(1_442_695_040_888_963_407)
}

/// The item of this number, 1 to 1,000,000, and of a pseudo-random one.
pub(crate) fn item(alloc: Global, number: u64, x: u64) -> Result<Event, AllocError>
    requires { number ≤ most_items }
    ensures item { IfOk result (λ made. made ≡ generator.item_of number x) }
    ensures instant { IfOk result IsInstant }
{
    Ok(Event::Item {
        stream: Text::new(alloc, "http://example.org/in")?,
        time: STEP * number,
        graph: graph(alloc, number, x)?,
    })
}

fn graph(alloc: Global, number: u64, x: u64) -> Result<Listed<Triple>, AllocError>
    ensures { IfOk result (λ graph. graph ≡ generator.graph_of number x) }
{
    let mut graph = Listed::new(alloc);
    graph.push(measured(alloc, x)?)?;
    if number % 50 == 0 {
        graph.push(switched_off(alloc, x)?)?;
    }
    Ok(graph)
}

fn measured(alloc: Global, x: u64) -> Result<Triple, AllocError>
    ensures { IfOk result (λ made. made ≡ generator.measured x) }
{
    let reading = x / (1 << 40) % 1000;
    let lexical = Text::new(alloc, format!(in alloc; "{reading}")?.as_str())?;
    let datatype = Text::new(alloc, "http://www.w3.org/2001/XMLSchema#integer")?;
    Ok(Triple {
        subject: sensor(alloc, x)?,
        predicate: iri(alloc, "http://example.org/v")?,
        object: Term::Literal { lexical, datatype },
    })
}

fn switched_off(alloc: Global, x: u64) -> Result<Triple, AllocError>
    ensures { IfOk result (λ made. made ≡ generator.switched_off x) }
{
    Ok(Triple {
        subject: sensor(alloc, x)?,
        predicate: iri(alloc, "http://example.org/off")?,
        object: iri(alloc, "http://example.org/x")?,
    })
}

fn sensor(alloc: Global, x: u64) -> Result<Term, AllocError>
    ensures { IfOk result (λ made. made ≡ term.Iri (generator.sensor x)) }
{
    let number = x / (1 << 32) % 100;
    iri(
        alloc,
        format!(in alloc; "http://example.org/s{number}")?.as_str(),
    )
}

fn iri(alloc: Global, text: &str) -> Result<Term, AllocError>
    ensures { IfOk result (λ made. made ≡ term.Iri text.now) }
{
    Ok(Term::Iri(Text::new(alloc, text)?))
}
