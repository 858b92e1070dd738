// The reader of a log's blocks.
ghost use Rattle.std.specs.Prelude.{◌≡◌, ◌+◌, ◌++◌, ◌∷◌, ◌↔◌, ◌≤◌, ◌==◌, [], ℕ, List, true, false, Ok, None, if◌then◌else◌};
ghost use Rattle.std.specs.Prelude.{length, IfOk, OnOk, OnErr, IsErr, option_to_list};
ghost use Rattle.rsp_events.specs.declared.event.Block.{Block};
ghost use Rattle.rsp_events.specs.declared.begun.BegunLine.TheVariants as line;
ghost use Rattle.rsp_events.specs.declared.begun.BegunBlock.TheVariants as begun;
ghost use Rattle.rsp_events.specs.declared.blocks.Place.TheVariants as place;
ghost use Rattle.rsp_events.specs.Lines.{Line, ends_body, has_body, is_passed};
ghost use Rattle.rsp_events.specs.Begun.{IsInLine, begun_block_of, ends_group, held_line_of, begun_group, begun_line};
ghost use Rattle.rsp_events.specs.Reader.{HasRead};
ghost use Rattle.rsp_events.specs.Blocks.{blocks, ended_lines, content_of, numbered_from, whole_blocks};
ghost use Rattle.rsp_events.specs.Instants.{AllTimed, IsTimed};
ghost use Rattle.rsp_events.specs.Steps.{Reads, TakesLine, begun_groups, place_of};

use crate::begun::{BegunBlock, BegunLine, HeldLine, grown, held, lengthened};
use crate::buffers::Spares;
use crate::contents::content_of_lines;
use crate::lines::{has_body, is_end, is_passed, line_end};
use crate::{Block, BlockFault, Content};
use rsp_terms::{Listed, Texts};
use std::alloc::{AllocError, Global};
use std::marker::Model;
use std::mem;

/// Reads the blocks of a log that comes in pieces: a block is given as soon as its last line has ended.
/// Contracts see what is kept of the line and the block that have begun, how many lines have ended, the number of the
/// next block, and whether memory was refused.
#[derive(Drop)]
pub struct Blocks {
    document: u32,
    line: BegunLine,
    block: BegunBlock,
    lines: u64,
    number: u64,
    spent: bool,
    texts: Texts,
    spares: Spares,
    alloc: Global,
}

impl Model for Blocks {
    ghost use Rattle.rsp_events.specs.Reader.{Reader};

    ghost Value = { Reader };

    ghost view = { λ b. record {
      document = b.document;
      line = b.line;
      block = b.block;
      lines = b.lines;
      number = b.number;
      spent = b.spent;
    } };
}

// Where a line stands that comes next.
#[derive(Clone, Copy)]
enum Place {
    // between blocks, and passed over
    Passed,
    // in a block that goes on
    Inside,
    // the last of a block
    Last,
}

impl Blocks {
    /// A reader of a document that has read nothing. Blank nodes of its statements belong to the document. Takes no
    /// memory.
    pub fn new(alloc: Global, document: u32) -> Blocks
        ensures read { HasRead result [] }
        ensures document { result.document ≡ document }
        ensures prefix { (before more : List ℕ) → (rest : List Block)
            × (blocks document (before ++ more) ≡ whole_blocks document before ++ rest) }
    {
        Blocks {
            document,
            line: BegunLine::Kept(Listed::new(alloc)),
            block: BegunBlock::Between,
            lines: 0,
            number: 1,
            spent: false,
            texts: Texts::new(alloc),
            spares: Spares::new(alloc),
            alloc,
        }
    }

    /// The blocks whose last line ends in this piece. Fails only where memory is refused, or the 64-bit number of a line
    /// or block would pass its last value; then, and after `finish`, each later call fails too.
    ///
    /// Fed `@tick 5\n@ti` and then `ck 6\n`, it gives the block of `@tick 5` at first and that of `@tick 6` behind it.
    pub fn feed(&mut self, piece: &[u8]) -> Result<Listed<Block>, AllocError>
        ensures document { self.new.document ≡ self.old.document }
        ensures read { OnOk result ((before : List ℕ) → HasRead self.old before → HasRead self.new (before ++ piece.now)) }
        ensures given { IfOk result (λ given. (before : List ℕ) → HasRead self.old before
            → whole_blocks self.old.document (before ++ piece.now) ≡ whole_blocks self.old.document before ++ given) }
        ensures timed { IfOk result AllTimed }
        ensures prefix { (before more : List ℕ) → (rest : List Block)
            × (blocks self.old.document (before ++ more) ≡ whole_blocks self.old.document before ++ rest) }
        ensures spent { OnErr result (self.new.spent ≡ true) }
        ensures dead { self.old.spent ≡ true → IsErr result }
    {
        if self.spent {
            return Err(AllocError);
        }
        let alloc = self.alloc;
        let given = read_piece(alloc, self, piece);
        if given.is_err() {
            self.spent = true;
        }
        given
    }

    /// The block that the end of the text ends, where there is one: its `@end` is missing, or the line feed behind it.
    /// Fails as `feed` does, but not where neither a line nor a block has begun. Each later call fails.
    pub fn finish(&mut self) -> Result<Option<Block>, AllocError>
        ensures document { self.new.document ≡ self.old.document }
        ensures given { IfOk result (λ last. (before : List ℕ) → HasRead self.old before
            → blocks self.old.document before ≡ whole_blocks self.old.document before ++ option_to_list last) }
        ensures timed { IfOk result (λ last. AllTimed (option_to_list last)) }
        ensures prefix { (before more : List ℕ) → (rest : List Block)
            × (blocks self.old.document (before ++ more) ≡ whole_blocks self.old.document before ++ rest) }
        ensures empty { (before : List ℕ) → HasRead self.old before → begun_line before ≡ []
            → begun_group (ended_lines before) ≡ [] → result ≡ Ok None }
        ensures spent { self.new.spent ≡ true }
        ensures dead { self.old.spent ≡ true → IsErr result }
    {
        if self.spent {
            return Err(AllocError);
        }
        let last = self.last_block();
        self.spent = true;
        last
    }

    fn last_block(&mut self) -> Result<Option<Block>, AllocError>
        ensures document { self.new.document ≡ self.old.document }
        ensures empty { self.old.line ≡ line.Kept [] → self.old.block ≡ begun.Between → result ≡ Ok None }
        ensures ends { IfOk result (λ last. (before : List ℕ) → HasRead self.old before
            → blocks self.old.document before ≡ whole_blocks self.old.document before ++ option_to_list last) }
        ensures timed { IfOk result (λ last. AllTimed (option_to_list last)) }
    {
        if self.is_between_lines() {
            return self.close_begun();
        }
        let line = held(self.take_begun_line(), false);
        match self.take_line(line)? {
            Some(block) => Ok(Some(block)),
            None => self.close_begun(),
        }
    }

    // whether no byte stands behind the last line feed
    fn is_between_lines(&self) -> bool
        ensures { result ≡ true ↔ (self.now.line ≡ line.Kept []) }
    {
        match &self.line {
            BegunLine::Kept(bytes) => bytes.as_slice().is_empty(),
            BegunLine::Long(_) => false,
        }
    }

    fn take_begun_line(&mut self) -> BegunLine
        ensures line { result ≡ self.old.line }
        ensures after { self.new ≡ record self.old { line = line.Kept [] } }
    {
        let spare = self.spares.line();
        mem::replace(&mut self.line, BegunLine::Kept(spare))
    }

    // bytes of a line
    fn take_run(&mut self, run: &[u8]) -> Result<(), AllocError>
        requires { IsInLine run.now }
        ensures document { self.new.document ≡ self.old.document }
        ensures reads { OnOk result (Reads self.old run.now self.new []) }
    {
        let line = self.take_begun_line();
        let line = lengthened(line, run)?;
        self.keep_line(line);
        Ok(())
    }

    fn keep_line(&mut self, line: BegunLine)
        ensures { self.new ≡ record self.old { line = line } }
    {
        let before = mem::replace(&mut self.line, line);
        if let BegunLine::Kept(bytes) = before {
            self.spares.keep_line(bytes);
        }
    }

    // the line that has begun ends
    fn end_line(&mut self) -> Result<Option<Block>, AllocError>
        ensures document { self.new.document ≡ self.old.document }
        ensures reads { IfOk result (λ given. Reads self.old (10 ∷ []) self.new (option_to_list given)) }
    {
        let line = held(self.take_begun_line(), true);
        self.take_line(line)
    }

    fn take_line(&mut self, line: HeldLine) -> Result<Option<Block>, AllocError>
        ensures document { self.new.document ≡ self.old.document }
        ensures takes { IfOk result (λ given. TakesLine self.old line self.new (option_to_list given)) }
    {
        let Some(number) = self.lines.checked_add(1) else {
            return Err(AllocError);
        };
        let ends = ends_group(&self.block, &line);
        let place = place_of(&self.block, &line, ends);
        self.lines = number;
        match place {
            Place::Passed => {
                self.let_go(line);
                Ok(None)
            }
            Place::Inside => {
                self.grow(line, number, ends)?;
                Ok(None)
            }
            Place::Last => {
                self.grow(line, number, ends)?;
                Ok(Some(self.close()?))
            }
        }
    }

    // a line that is passed over
    fn let_go(&mut self, line: HeldLine)
        ensures { self.new ≡ self.old }
    {
        if let HeldLine::Kept(bytes, _) = line {
            self.spares.keep_line(bytes);
        }
    }

    fn grow(&mut self, line: HeldLine, number: u64, ends: bool) -> Result<(), AllocError>
        ensures rest { self.new ≡ record self.old { block = self.new.block } }
        ensures block { OnOk result ((group : List Line) (l : Line) → begun_block_of group ≡ self.old.block
            → held_line_of l ≡ line → l.number ≡ number → ends_group group l ≡ ends
            → self.new.block ≡ begun_block_of (group ++ (l ∷ []))) }
    {
        let block = mem::replace(&mut self.block, BegunBlock::Between);
        self.block = grown(&mut self.spares, block, line, number, ends)?;
        Ok(())
    }

    // the block that has begun, if one has
    fn close_begun(&mut self) -> Result<Option<Block>, AllocError>
        ensures document { self.new.document ≡ self.old.document }
        ensures empty { self.old.block ≡ begun.Between → result ≡ Ok None }
        ensures timed { IfOk result (λ last. AllTimed (option_to_list last)) }
        ensures ends { IfOk result (λ last. (group : List Line) → begun_block_of group ≡ self.old.block
            → option_to_list last ≡ numbered_from self.old.document self.old.number (begun_groups group)) }
    {
        if let BegunBlock::Between = &self.block {
            return Ok(None);
        }
        Ok(Some(self.close()?))
    }

    // the block of the lines so far
    fn close(&mut self) -> Result<Block, AllocError>
        ensures block { IfOk result (λ block. (group : List Line) → begun_block_of group ≡ self.old.block
            → block ≡ record { number = self.old.number; content = content_of self.old.document group }) }
        ensures after { OnOk result (self.new ≡ record self.old { block = begun.Between; number = self.old.number + 1 }) }
        ensures document { self.new.document ≡ self.old.document }
        ensures timed { IfOk result (λ block. IsTimed block.content) }
    {
        let Some(next) = self.number.checked_add(1) else {
            return Err(AllocError);
        };
        let number = mem::replace(&mut self.number, next);
        let block = mem::replace(&mut self.block, BegunBlock::Between);
        let content = content_of(&mut self.texts, &mut self.spares, self.document, block)?;
        Ok(Block { number, content })
    }
}

fn read_piece(alloc: Global, blocks: &mut Blocks, piece: &[u8]) -> Result<Listed<Block>, AllocError>
    ensures document { blocks.new.document ≡ blocks.old.document }
    ensures reads { IfOk result (λ given. Reads blocks.old piece.now blocks.new given) }
{
    let mut given = Listed::new(alloc);
    let mut rest = piece;
    'lines: loop {
        let end = line_end(rest);
        let (run, behind) = rest.split_at(end);
        blocks.take_run(run)?;
        match behind.split_first() {
            None => return Ok(given),
            Some((_, next)) => {
                let block = blocks.end_line()?;
                push_some(&mut given, block)?;
                rest = next;
            }
        }
    }
}

fn push_some(given: &mut Listed<Block>, block: Option<Block>) -> Result<(), AllocError>
    ensures { OnOk result (given.new ≡ given.old ++ option_to_list block) }
{
    match block {
        None => Ok(()),
        Some(block) => Ok(given.push(block)?),
    }
}

// whether the line ends the body of the block that has begun
fn ends_group(block: &BegunBlock, line: &HeldLine) -> bool
    ensures { (group : List Line) (l : Line) → begun_block_of group ≡ block.now → held_line_of l ≡ line.now
        → ends_group group l ≡ result }
{
    match block {
        BegunBlock::Between => false,
        _ => ends_body(line),
    }
}

fn place_of(block: &BegunBlock, line: &HeldLine, ends: bool) -> Place
    ensures { (group : List Line) (l : Line) → begun_block_of group ≡ block.now → held_line_of l ≡ line.now
        → ends_group group l ≡ ends → result ≡ place_of group l }
{
    match block {
        BegunBlock::Between => place_between(line),
        _ => place_inside(ends),
    }
}

fn place_between(line: &HeldLine) -> Place
    ensures { (l : Line) → held_line_of l ≡ line.now → result ≡ place_of [] l }
{
    match line {
        HeldLine::Long(_) => Place::Last,
        HeldLine::Kept(text, _) => place_of_text(text.as_slice()),
    }
}

fn place_of_text(text: &[u8]) -> Place
    ensures { result ≡ (if is_passed text.now then place.Passed else (if has_body text.now then place.Inside else place.Last)) }
{
    if is_passed(text) {
        return Place::Passed;
    }
    if has_body(text) {
        Place::Inside
    } else {
        Place::Last
    }
}

fn place_inside(ends: bool) -> Place
    ensures { result ≡ (if ends then place.Last else place.Inside) }
{
    if ends { Place::Last } else { Place::Inside }
}

fn ends_body(line: &HeldLine) -> bool
    ensures { (l : Line) → held_line_of l ≡ line.now → result ≡ ends_body l }
{
    match line {
        HeldLine::Long(ends) => *ends,
        HeldLine::Kept(text, _) => is_end(text.as_slice()),
    }
}

fn content_of(
    texts: &mut Texts,
    spares: &mut Spares,
    document: u32,
    block: BegunBlock,
) -> Result<Content, AllocError>
    ensures timed { IfOk result IsTimed }
    ensures value { IfOk result (λ content. (group : List Line) → begun_block_of group ≡ block
        → content ≡ content_of document group) }
{
    match block {
        BegunBlock::Within(first, lines, ended, _) => {
            let all = lines.lines();
            let content = content_of_lines(texts, document, first, &all, ended)?;
            spares.keep_block(lines);
            Ok(content)
        }
        _ => Ok(Content::Fault(BlockFault::BlockTooLarge)),
    }
}
