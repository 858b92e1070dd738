// The line of a refusal.
ghost use Rattle.std.specs.Fmt.{decimal};
ghost use Rattle.std.specs.Prelude.{◌≡◌, ◌++◌, List, ℕ, Some, true, IfOk, codes, is_some, option_map, string_bytes};
ghost use Rattle.rsp_modes.specs.Reasons.{details, kind, reason_of};
ghost use Rattle.rsp_modes.specs.Refusals.{Reason, limit_word, of_event, place_text, refusal_line};
ghost use Rattle.rsp_engine.specs.declared.refused.Refused.TheVariants as refused;
ghost use Rattle.rsp_modes.specs.Stops.{Ends, IsLineOf, Stays};

use crate::stop::Stop;
use crate::writing::write_all;
use rsp_engine::{LimitName, PolicyMix, Refused, Shape, SyntaxFault, TextFault};
use rsp_events::{BlockFault, RefusedAs};
use rsp_io::Sink;
use rsp_terms::Text;
use std::alloc::{AllocError, Global};

/// Where something is refused.
#[derive(Drop)]
pub(crate) enum Place {
    /// The block of this number.
    Block(u64),
    /// The query that is checked.
    Query,
    /// The line of this number in the file of this name.
    Line(Text, u64),
}

/// What was answered that isn't taken: a block is no event, the engine doesn't take its event, or a line of a file isn't taken.
#[derive(Drop)]
pub(crate) enum Answered {
    Fault(BlockFault),
    Event(Refused),
    Line(RefusedAs),
}

/// Writes the line of a refusal. Stops for want of memory where the engine's answer is that and no refusal.
pub(crate) fn refuse<K: Sink>(
    alloc: Global,
    place: Place,
    answered: Answered,
    out: &mut K,
) -> Result<bool, Stop>
    ensures text { (text : List ℕ) → IsLineOf place (reason_of answered) text
        → Ends (K.seen out.old) (K.seen out.new) text result }
    ensures refused { IfOk result (λ refused. (refused ≡ true) × (is_some (reason_of answered) ≡ true)) }
    ensures stays { Stays (K.seen out.old) (K.seen out.new) result }
{
    write_line(alloc, place, &answered, out)
}

// writes the line, where the answer is a refusal
fn write_line<K: Sink>(
    alloc: Global,
    place: Place,
    answered: &Answered,
    out: &mut K,
) -> Result<bool, Stop>
    ensures text { (text : List ℕ) → IsLineOf place (reason_of answered.now) text
        → Ends (K.seen out.old) (K.seen out.new) text result }
    ensures refused { IfOk result (λ refused. (refused ≡ true) × (is_some (reason_of answered.now) ≡ true)) }
    ensures stays { Stays (K.seen out.old) (K.seen out.new) result }
{
    match line(alloc, place, answered) {
        Ok(Some(line)) => {
            write_all(out, line.as_bytes())?;
            Ok(true)
        }
        Ok(None) => Err(Stop::Memory),
        Err(AllocError) => Err(Stop::Memory),
    }
}

// the line, where the answer is a refusal
fn line(alloc: Global, place: Place, answered: &Answered) -> Result<Option<String>, AllocError>
    ensures { IfOk result (λ line. option_map string_bytes line ≡ option_map (refusal_line place) (reason_of answered.now)) }
{
    match kind(answered) {
        None => Ok(None),
        Some((number, name)) => {
            let details = details(alloc, answered)?;
            Ok(Some(line_at(alloc, place, number, name, details.as_str())?))
        }
    }
}

// the line of a refusal at a place, in one text
fn line_at(
    alloc: Global,
    place: Place,
    number: u64,
    name: &str,
    details: &str,
) -> Result<String, AllocError>
    ensures { IfOk result (λ line. string_bytes line ≡ codes "# refused " ++ (place_text place
        ++ (codes " " ++ (decimal number ++ (codes " " ++ (name.now ++ (details.now ++ codes "\n"))))))) }
{
    match place {
        Place::Block(block) => {
            format!(in alloc; "# refused block {block} {number} {name}{details}\n")
        }
        Place::Query => format!(in alloc; "# refused query {number} {name}{details}\n"),
        Place::Line(file, line) => {
            format!(in alloc; "# refused file {file} line {line} {number} {name}{details}\n")
        }
    }
}

// the number and the name of each refusal
fn kind(answered: &Answered) -> Option<(u64, &'static str)>
    ensures { option_map (λ k. (k.0, k.1.now)) result ≡ option_map kind (reason_of answered.now) }
{
    match answered {
        Answered::Line(RefusedAs::BadStatement { .. }) => Some((1, "BadStatement")),
        Answered::Line(RefusedAs::RelativeIri { .. }) => Some((2, "RelativeIri")),
        Answered::Fault(BlockFault::BadDirective) => Some((3, "BadDirective")),
        Answered::Fault(BlockFault::BadBody { .. }) => Some((4, "BadBody")),
        Answered::Fault(BlockFault::BlockTooLarge) => Some((5, "BlockTooLarge")),
        Answered::Line(RefusedAs::NoTimeLine) => Some((6, "NoTimeLine")),
        Answered::Event(Refused::Text(fault)) => Some(text_kind(fault)),
        Answered::Event(Refused::Late { .. }) => Some((15, "Late")),
        Answered::Event(Refused::NameTaken) => Some((16, "NameTaken")),
        Answered::Event(Refused::NoQuery) => Some((17, "NoQuery")),
        Answered::Event(Refused::QueriesFull) => Some((18, "QueriesFull")),
        Answered::Event(Refused::HeldFull { .. }) => Some((19, "HeldFull")),
        Answered::Event(Refused::StoreFull { .. }) => Some((20, "StoreFull")),
        Answered::Event(Refused::ItemTooLarge { .. }) => Some((21, "ItemTooLarge")),
        Answered::Event(Refused::SlackTuple) => Some((23, "SlackTuple")),
        Answered::Event(Refused::StartOverfull) => Some((25, "StartOverfull")),
        Answered::Event(Refused::Broken) | Answered::Event(Refused::OutOfMemory) => None,
    }
}

// those of a text's faults; want of memory is none
fn text_kind(fault: &TextFault) -> (u64, &'static str)
    ensures { (result.0, result.1.now) ≡ kind (of_event (refused.Text fault.now)) }
{
    match fault {
        TextFault::Syntax(SyntaxFault::BadToken { .. }) => (7, "BadToken"),
        TextFault::Syntax(SyntaxFault::Syntax { .. }) => (8, "Syntax"),
        TextFault::Syntax(SyntaxFault::LeftOut { .. }) => (9, "LeftOut"),
        TextFault::Syntax(SyntaxFault::Limit { .. }) => (10, "Limit"),
        TextFault::Shape(Shape::GraphShape { .. }) => (11, "GraphShape"),
        TextFault::Shape(Shape::ExistsShape { .. }) => (12, "ExistsShape"),
        TextFault::Shape(Shape::Scope { .. }) => (13, "Scope"),
        TextFault::Policy(PolicyMix) => (14, "PolicyMix"),
        TextFault::Syntax(SyntaxFault::OutOfMemory) | TextFault::Shape(Shape::OutOfMemory) => {
            (0, "")
        }
    }
}

// the details of each refusal
fn details(alloc: Global, answered: &Answered) -> Result<String, AllocError>
    ensures { IfOk result (λ text. (reason : Reason) → reason_of answered.now ≡ Some reason
        → string_bytes text ≡ details reason) }
{
    match answered {
        Answered::Line(RefusedAs::BadStatement { column }) => format!(in alloc; " column={column}"),
        Answered::Line(RefusedAs::RelativeIri { column }) => format!(in alloc; " column={column}"),
        Answered::Fault(BlockFault::BadBody { line }) => format!(in alloc; " line={line}"),
        Answered::Event(Refused::Text(fault)) => Ok(text_details(alloc, fault)?),
        Answered::Event(Refused::Late { time, next }) => {
            format!(in alloc; " time={time} next={next}")
        }
        Answered::Event(Refused::HeldFull { held }) => format!(in alloc; " held={held}"),
        Answered::Event(Refused::StoreFull { quads }) => format!(in alloc; " quads={quads}"),
        Answered::Event(Refused::ItemTooLarge { triples }) => {
            format!(in alloc; " triples={triples}")
        }
        _ => Ok(String::new(alloc)),
    }
}

fn text_details(alloc: Global, fault: &TextFault) -> Result<String, AllocError>
    ensures { IfOk result (λ text. string_bytes text ≡ details (of_event (refused.Text fault.now))) }
{
    match fault {
        TextFault::Syntax(SyntaxFault::BadToken { at }) => format!(in alloc; " at={at}"),
        TextFault::Syntax(SyntaxFault::Syntax { at }) => format!(in alloc; " at={at}"),
        TextFault::Syntax(SyntaxFault::LeftOut { at, what }) => {
            format!(in alloc; " at={at} what={what}")
        }
        TextFault::Syntax(SyntaxFault::Limit { what }) => {
            let word = limit_word(*what);
            format!(in alloc; " what={word}")
        }
        TextFault::Shape(Shape::GraphShape { at }) => format!(in alloc; " at={at}"),
        TextFault::Shape(Shape::ExistsShape { at }) => format!(in alloc; " at={at}"),
        TextFault::Shape(Shape::Scope { variable }) => format!(in alloc; " variable={variable}"),
        TextFault::Policy(_)
        | TextFault::Syntax(SyntaxFault::OutOfMemory)
        | TextFault::Shape(Shape::OutOfMemory) => Ok(String::new(alloc)),
    }
}

// the word of a limit
fn limit_word(what: LimitName) -> &'static str
    ensures { result.now ≡ limit_word what }
{
    match what {
        LimitName::Text => "text",
        LimitName::Nesting => "nesting",
        LimitName::Windows => "windows",
        LimitName::Span => "span",
        LimitName::Variables => "variables",
        LimitName::Patterns => "patterns",
        LimitName::Operators => "operators",
        LimitName::Elements => "elements",
        LimitName::Rows => "rows",
    }
}
