// Each constructor and call once, in order of what a program does with it.
ghost use Rattle.std.specs.Prelude.{◌<◌, length};

use rsp_io::{
    DirShelf, Failed, MemoryShelf, MemorySink, MemorySource, Shelf, Sink, Source, StdSource,
    SteadyShelf, SteadySink, SteadySource,
};
use std::alloc::{AllocError, Global};
use std::test::Fail;

fn two_files(alloc: Global) -> Result<Vec<(String, Vec<u8>)>, AllocError> {
    let first = ("a".to_string(alloc)?, b"one".to_vec(alloc)?);
    let second = ("b".to_string(alloc)?, b"two".to_vec(alloc)?);
    Ok(vec![in alloc; first, second]?)
}

fn read_from<S: Source>(source: &mut S, buf: &mut [u8]) -> Result<usize, Failed>
    requires { 0 < length buf.old }
{
    source.read(buf)
}

fn pick_from<S: Shelf>(shelf: &mut S, name: &str) -> Result<(), Failed> {
    shelf.pick(name)
}

fn write_to<S: Sink>(sink: &mut S, piece: &[u8]) -> Result<usize, Failed>
    requires { 0 < length piece.now }
{
    sink.write(piece)
}

#[test]
fn steady_source_gives_pieces(rt: HostRuntime) -> Result<(), Fail> {
    let mut source = SteadySource::new(b"abc".to_vec(rt.alloc())?, 2);
    let mut buf = [0; 8];
    assert_eq!(rt; read_from(&mut source, &mut buf), Ok(2));
    assert_eq!(rt; buf, [97, 98, 0, 0, 0, 0, 0, 0]);
    assert_eq!(rt; read_from(&mut source, &mut buf), Ok(1));
    assert_eq!(rt; read_from(&mut source, &mut buf), Ok(0));
    Ok(())
}

#[test]
fn memory_source_fails_as_listed(rt: HostRuntime) -> Result<(), Fail> {
    let alloc = rt.alloc();
    let mut source = MemorySource::new(b"abc".to_vec(alloc)?, [1].to_vec(alloc)?, 2);
    let mut buf = [0; 8];
    assert_eq!(rt; read_from(&mut source, &mut buf), Ok(2));
    assert_eq!(rt; read_from(&mut source, &mut buf), Err(Failed));
    assert_eq!(rt; read_from(&mut source, &mut buf), Ok(1));
    assert_eq!(rt; buf, [99, 98, 0, 0, 0, 0, 0, 0]);
    Ok(())
}

#[test]
fn steady_shelf_gives_the_picked_file(rt: HostRuntime) -> Result<(), Fail> {
    let mut shelf = SteadyShelf::new(two_files(rt.alloc())?, 8);
    let mut buf = [0; 3];
    assert_eq!(rt; read_from(&mut shelf, &mut buf), Ok(0));
    assert_eq!(rt; pick_from(&mut shelf, "b"), Ok(()));
    assert_eq!(rt; pick_from(&mut shelf, "c"), Err(Failed));
    assert_eq!(rt; read_from(&mut shelf, &mut buf), Ok(3));
    assert_eq!(rt; buf, [116, 119, 111]);
    Ok(())
}

#[test]
fn memory_shelf_fails_as_listed(rt: HostRuntime) -> Result<(), Fail> {
    let alloc = rt.alloc();
    let mut shelf = MemoryShelf::new(two_files(alloc)?, [0, 2].to_vec(alloc)?, 8);
    let mut buf = [0; 3];
    assert_eq!(rt; pick_from(&mut shelf, "a"), Err(Failed));
    assert_eq!(rt; pick_from(&mut shelf, "a"), Ok(()));
    assert_eq!(rt; read_from(&mut shelf, &mut buf), Err(Failed));
    assert_eq!(rt; read_from(&mut shelf, &mut buf), Ok(3));
    assert_eq!(rt; buf, [111, 110, 101]);
    Ok(())
}

#[test]
fn steady_sink_takes_what_fits(rt: HostRuntime) -> Result<(), Fail> {
    let mut sink = SteadySink::new(rt.alloc(), 3, 2)?;
    assert_eq!(rt; write_to(&mut sink, b"abcd"), Ok(2));
    assert_eq!(rt; write_to(&mut sink, b"cd"), Ok(1));
    assert_eq!(rt; write_to(&mut sink, b"d"), Err(Failed));
    assert!(rt; sink.taken() == b"abc".as_slice());
    Ok(())
}

#[test]
fn memory_sink_fails_as_listed(rt: HostRuntime) -> Result<(), Fail> {
    let alloc = rt.alloc();
    let mut sink = MemorySink::new(alloc, 3, [0].to_vec(alloc)?, 8)?;
    assert_eq!(rt; write_to(&mut sink, b"abcd"), Err(Failed));
    assert_eq!(rt; write_to(&mut sink, b"abcd"), Ok(3));
    assert_eq!(rt; write_to(&mut sink, b"d"), Err(Failed));
    assert!(rt; sink.taken() == b"abc".as_slice());
    Ok(())
}

// its reads are the system's, so none is made here
#[test]
fn standard_input_opens(rt: HostRuntime) {
    let _source = StdSource::new(&rt);
}

#[test]
fn dir_shelf_opens_files_by_their_paths(rt: HostRuntime) -> Result<(), Fail> {
    let mut shelf = DirShelf::new(&rt);
    let mut buf = [7; 4];
    assert_eq!(rt; read_from(&mut shelf, &mut buf), Ok(0));
    assert_eq!(rt; pick_from(&mut shelf, "/dev/zero"), Ok(()));
    assert_eq!(rt; pick_from(&mut shelf, "no such file"), Err(Failed));
    assert_eq!(rt; pick_from(&mut shelf, "/dev"), Err(Failed));
    assert_eq!(rt; read_from(&mut shelf, &mut buf), Ok(4));
    assert_eq!(rt; buf, [0, 0, 0, 0]);
    assert_eq!(rt; pick_from(&mut shelf, "/dev/null"), Ok(()));
    assert_eq!(rt; read_from(&mut shelf, &mut buf), Ok(0));
    Ok(())
}
