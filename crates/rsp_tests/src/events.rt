// The reader of a log over one text, whole and byte by byte.
ghost use Rattle.std.specs.Prelude.{◌<◌};

use rsp_events::{Block, BlockFault, Blocks, Content, Event};
use std::alloc::{AllocError, Global};
use std::test::Fail;

// one block of each form, one of each fault, and what is passed over between them
const LOG: &[u8] = b"# a log\r
@register q-1\t\r
SELECT *\r

@end \t
 \t
@cancel q-1
@item\t<s:a>  1000
<a:1> <p:v> <a:2> .
# no statement
_:x <p:v> \"x\"@en .
@end
@tick 1970-01-01T00:00:10Z
@insert
<a:1> <p:v> <a:2> <g:1> .
@end
@delete
@end
@end
 @tick 5
@cancel a b
@item <a> 1
<a:1>
@end
@tick 253402300800000
@insert
<a:1> <p:v> <a:2> .
<a:1> <p:v>
@end
@item <s:a> 1

<a:1> <p:v> <a:2> <g:1> .
@end
@register q
\xFF
@end
@register q
SELECT";

const BLOCKS: &str = "1 register q-1: SELECT *


2 cancel q-1
3 item s:a 1000: 2
4 tick 10000
5 insert 1
6 delete 0
7 no directive
8 no directive
9 no directive
10 no directive
11 no directive
12 bad line 28
13 bad line 32
14 bad line 35
15 bad line 39
";

fn describe(alloc: Global, block: &Block) -> Result<String, AllocError> {
    let number = block.number;
    match &block.content {
        Content::Event(event) => describe_event(alloc, number, event),
        Content::Fault(BlockFault::BlockTooLarge) => format!(in alloc; "{number} too large\n"),
        Content::Fault(BlockFault::BadDirective) => format!(in alloc; "{number} no directive\n"),
        Content::Fault(BlockFault::BadBody { line }) => {
            format!(in alloc; "{number} bad line {line}\n")
        }
    }
}

fn describe_event(alloc: Global, number: u64, event: &Event) -> Result<String, AllocError> {
    match event {
        Event::Register { name, text } => format!(in alloc; "{number} register {name}: {text}\n"),
        Event::Cancel { name } => format!(in alloc; "{number} cancel {name}\n"),
        Event::Item {
            stream,
            time,
            graph,
        } => {
            let triples = graph.as_slice().len();
            format!(in alloc; "{number} item {stream} {time}: {triples}\n")
        }
        Event::Tick { time } => format!(in alloc; "{number} tick {time}\n"),
        Event::Insert { quads } => {
            let quads = quads.as_slice().len();
            format!(in alloc; "{number} insert {quads}\n")
        }
        Event::Delete { quads } => {
            let quads = quads.as_slice().len();
            format!(in alloc; "{number} delete {quads}\n")
        }
    }
}

fn push_block(alloc: Global, text: &mut String, block: &Block) -> Result<(), AllocError> {
    let said = describe(alloc, block)?;
    text.push_str(said.as_str())
}

// the blocks that end in the piece
fn push_fed(
    alloc: Global,
    text: &mut String,
    blocks: &mut Blocks,
    piece: &[u8],
) -> Result<(), AllocError> {
    let fed = blocks.feed(piece)?;
    for block in fed.as_slice() {
        push_block(alloc, text, block)?;
    }
    Ok(())
}

fn push_last(alloc: Global, text: &mut String, blocks: &mut Blocks) -> Result<(), AllocError> {
    match blocks.finish()? {
        Some(last) => push_block(alloc, text, &last),
        None => Ok(()),
    }
}

// the blocks of a log that comes in pieces of `size` bytes
fn push_all(
    alloc: Global,
    text: &mut String,
    blocks: &mut Blocks,
    log: &[u8],
    size: usize,
) -> Result<(), AllocError>
    requires { 0 < size }
{
    for piece in log.chunks(size) {
        push_fed(alloc, text, blocks, piece)?;
    }
    push_last(alloc, text, blocks)
}

fn read(alloc: Global, log: &[u8], size: usize) -> Result<String, AllocError>
    requires { 0 < size }
{
    let mut blocks = Blocks::new(alloc, 7);
    let mut text = String::new(alloc);
    push_all(alloc, &mut text, &mut blocks, log, size)?;
    Ok(text)
}

#[test]
fn reads_a_log_in_any_pieces(rt: HostRuntime) -> Result<(), Fail> {
    let alloc = rt.alloc();
    assert_eq!(rt; read(alloc, LOG, LOG.len())?.as_str(), BLOCKS);
    assert_eq!(rt; read(alloc, LOG, 1)?.as_str(), BLOCKS);
    Ok(())
}

#[test]
fn nothing_is_read_behind_the_end(rt: HostRuntime) -> Result<(), Fail> {
    let mut blocks = Blocks::new(rt.alloc(), 7);
    assert!(rt; blocks.finish()?.is_none());
    assert!(rt; blocks.feed(b"@tick 5\n").is_err());
    assert!(rt; blocks.finish().is_err());
    Ok(())
}
