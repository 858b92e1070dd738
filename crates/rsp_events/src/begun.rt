// What is kept of a line and of a block that have begun: their bytes, as long as they are no more than a block may have.
ghost use Rattle.std.specs.Prelude.{◌≡◌, ◌+◌, ◌++◌, ◌∷◌, ◌≤◌, ◌<◌, ◌&&◌, ◌||◌, [], ℕ, List, IfOk, length, if◌then◌else◌, nat_lt};
ghost use Rattle.std.specs.Str.Lines.{strip_carriage_return};
ghost use Rattle.rsp_spec.specs.Limits.{most_block_bytes};
ghost use Rattle.rsp_events.specs.Begun.{begun_block_of, begun_line_of, ending_of, ends_group, held_line_of};
ghost use Rattle.rsp_events.specs.Lines as lines;
ghost use Rattle.rsp_events.specs.Lines.{Line};
ghost use Rattle.rsp_events.specs.declared.begun.HeldLine.TheVariants as held;
ghost use Rattle.rsp_events.specs.declared.begun.BegunBlock.TheVariants as begun;

use crate::buffers::{LineBuffer, Spares};
use crate::lines::{is_end, without_return};
use rsp_spec::limits::MOST_BLOCK_BYTES;
use rsp_terms::Listed;
use rsp_text::is_blank;
use std::alloc::AllocError;

/// Whether bytes are an `@end`: as the last line of a text, and as a line that a line feed ends, which drops a carriage
/// return before it.
#[derive(Clone, Copy)]
pub(crate) struct Ending {
    pub last: bool,
    pub fed: bool,
}

/// The line that has begun: its bytes, or how it may end a body where they are more than a block may have.
#[derive(Drop)]
pub(crate) enum BegunLine {
    Kept(Listed<u8>),
    Long(Ending),
}

/// A line that has come to its end: what it says and its bytes with the line feed, or whether it ends a body where it has
/// more than a block may have.
#[derive(Drop)]
pub(crate) enum HeldLine {
    Kept(Listed<u8>, usize),
    Long(bool),
}

/// The block that has begun: none, or its lines before an `@end` with the number of the first, whether it has an `@end`, and
/// the bytes of all its lines, or one that has more than a block may have.
#[derive(Drop)]
pub(crate) enum BegunBlock {
    Between,
    Within(u64, LineBuffer, bool, usize),
    TooLarge,
}

// ---- a line

/// The line with these bytes behind it, of which none is a line feed. Fails only where memory is refused.
pub(crate) fn lengthened(line: BegunLine, run: &[u8]) -> Result<BegunLine, AllocError>
    ensures { IfOk result (λ new. (bytes : List ℕ) → begun_line_of bytes ≡ line → new ≡ begun_line_of (bytes ++ run.now)) }
{
    match line {
        BegunLine::Kept(bytes) => lengthened_bytes(bytes, run),
        BegunLine::Long(ending) => Ok(BegunLine::Long(ending_behind(ending, run))),
    }
}

fn lengthened_bytes(bytes: Listed<u8>, run: &[u8]) -> Result<BegunLine, AllocError>
    ensures { IfOk result (λ new. length bytes ≤ most_block_bytes → new ≡ begun_line_of (bytes ++ run.now)) }
{
    let room = MOST_BLOCK_BYTES.saturating_sub(bytes.as_slice().len());
    if run.len() <= room {
        return Ok(BegunLine::Kept(joined(bytes, run)?));
    }
    let (front, rest) = run.split_at(room);
    let full = joined(bytes, front)?;
    Ok(BegunLine::Long(ending_behind(ending_of(full.as_slice()), rest)))
}

fn joined(bytes: Listed<u8>, run: &[u8]) -> Result<Listed<u8>, AllocError>
    ensures { IfOk result (λ joined. joined ≡ bytes ++ run.now) }
{
    let mut bytes = bytes.into_vec();
    bytes.extend_from_slice(run)?;
    Ok(Listed::from_vec(bytes))
}

fn ending_of(bytes: &[u8]) -> Ending
    ensures { result ≡ ending_of bytes.now }
{
    let last = is_end(bytes);
    let fed = is_end(without_return(bytes));
    Ending { last, fed }
}

// how bytes stand to `@end` with these behind them, where there are enough of them for an `@end`
fn ending_behind(ending: Ending, run: &[u8]) -> Ending
    ensures { (bytes : List ℕ) → 4 ≤ length bytes → ending_of bytes ≡ ending → result ≡ ending_of (bytes ++ run.now) }
{
    let mut ending = ending;
    for byte in run {
        ending = next_ending(ending, *byte);
    }
    ending
}

fn next_ending(ending: Ending, byte: u8) -> Ending
    ensures { (bytes : List ℕ) → 4 ≤ length bytes → ending_of bytes ≡ ending → result ≡ ending_of (bytes ++ (byte ∷ [])) }
{
    let last = both(ending.last, is_blank(byte));
    let fed = if byte == b'\r' { ending.last } else { last };
    Ending { last, fed }
}

fn both(first: bool, second: bool) -> bool
    ensures { result ≡ (first && second) }
{
    first && second
}

/// The line at its end, with a line feed behind it or none.
pub(crate) fn held(line: BegunLine, ended: bool) -> HeldLine
    ensures { (l : Line) → begun_line_of l.bytes ≡ line → l.ended ≡ ended → result ≡ held_line_of l }
{
    match line {
        BegunLine::Kept(bytes) => held_bytes(bytes, ended),
        BegunLine::Long(ending) => HeldLine::Long(ends(ending, ended)),
    }
}

fn held_bytes(bytes: Listed<u8>, ended: bool) -> HeldLine
    ensures { (l : Line) → l.bytes ≡ bytes → l.ended ≡ ended → result ≡ held.Kept (lines.text_of l) (lines.size_of l) }
{
    let size = bytes.as_slice().len();
    if ended {
        HeldLine::Kept(stripped(bytes), size + 1)
    } else {
        HeldLine::Kept(bytes, size)
    }
}

// the line without the one carriage return at its end
fn stripped(line: Listed<u8>) -> Listed<u8>
    ensures { result ≡ strip_carriage_return line }
{
    let mut bytes = line.into_vec();
    if bytes.last() == Some(&b'\r') {
        bytes.pop();
    }
    Listed::from_vec(bytes)
}

// whether a line ends a body that stands so to `@end`
fn ends(ending: Ending, ended: bool) -> bool
    ensures { (l : Line) → ending_of l.bytes ≡ ending → l.ended ≡ ended → result ≡ lines.is_end (lines.text_of l) }
{
    if ended { ending.fed } else { ending.last }
}

// ---- a block

/// The block with this line behind it, which has this number and ends the block's body or doesn't. Fails only where memory is
/// refused.
pub(crate) fn grown(
    spares: &mut Spares,
    block: BegunBlock,
    line: HeldLine,
    number: u64,
    ends: bool,
) -> Result<BegunBlock, AllocError>
    ensures { IfOk result (λ new. (group : List Line) (l : Line) → begun_block_of group ≡ block → held_line_of l ≡ line
        → l.number ≡ number → ends_group group l ≡ ends → new ≡ begun_block_of (group ++ (l ∷ []))) }
{
    let HeldLine::Kept(text, size) = line else {
        return Ok(BegunBlock::TooLarge);
    };
    match block {
        BegunBlock::Between => {
            let texts = spares.block();
            let texts = joined_text(spares, texts, text, false)?;
            Ok(within(number, texts, false, 0, size))
        }
        BegunBlock::Within(first, texts, ended, before) => {
            let ended = either(ended, ends);
            let texts = joined_text(spares, texts, text, ended)?;
            Ok(within(first, texts, ended, before, size))
        }
        BegunBlock::TooLarge => Ok(BegunBlock::TooLarge),
    }
}

// the lines with this one behind them, unless their body has ended
fn joined_text(
    spares: &mut Spares,
    texts: LineBuffer,
    text: Listed<u8>,
    ended: bool,
) -> Result<LineBuffer, AllocError>
    ensures { IfOk result (λ joined. joined ≡ (if ended then texts else texts ++ (text ∷ []))) }
{
    let mut texts = texts;
    if !ended {
        texts.push(text.as_slice())?;
    }
    spares.keep_line(text);
    Ok(texts)
}

fn within(first: u64, texts: LineBuffer, ended: bool, before: usize, size: usize) -> BegunBlock
    ensures { result ≡ (if nat_lt most_block_bytes (before + size)
        then begun.TooLarge else begun.Within first texts ended (before + size)) }
{
    match before.checked_add(size) {
        Some(all) if all <= MOST_BLOCK_BYTES => BegunBlock::Within(first, texts, ended, all),
        _ => BegunBlock::TooLarge,
    }
}

fn either(first: bool, second: bool) -> bool
    ensures { result ≡ (first || second) }
{
    first || second
}
