use crate::{
    BeginStop, DiskFolder, Failed, Folder, MemoryFolder, MemorySink, OpenStop, Sink, StreamSink,
    fault_line,
};
use std::alloc::Global;
use std::fs;
use std::test::Fail;
use zim_fault::{Bytes, Fault, Files, Kind, Memory, Place, Word};

fn folder(alloc: Global, fails: Vec<u64>) -> Result<MemoryFolder, Memory> {
    let mut files = Vec::new(alloc);
    files.push((
        Bytes::from_slice(alloc, b"a")?,
        Bytes::from_slice(alloc, b"xyz")?,
    ))?;
    files.push((
        Bytes::from_slice(alloc, b"a")?,
        Bytes::from_slice(alloc, b"old")?,
    ))?;
    MemoryFolder::new(alloc, files, 4, fails)
}

#[test]
fn reads_the_first_of_two(rt: HostRuntime) -> Result<(), Fail> {
    let mut folder = folder(rt.alloc(), Vec::new(rt.alloc()))?;
    let mut buf = [0u8; 2];
    assert_eq!(rt; folder.open(b"a"), Ok(()));
    assert_eq!(rt; folder.read(&mut buf), Ok(2));
    assert_eq!(rt; buf[0], b'x');
    assert_eq!(rt; folder.read(&mut buf), Ok(1));
    assert_eq!(rt; buf[0], b'z');
    assert_eq!(rt; folder.read(&mut buf), Ok(0));
    assert_eq!(rt; folder.open(b"b"), Err(OpenStop::Missing));
    Ok(())
}

#[test]
fn stops_at_the_room(rt: HostRuntime) -> Result<(), Fail> {
    let mut folder = folder(rt.alloc(), Vec::new(rt.alloc()))?;
    if let Ok(()) = folder.begin(b"b") {
        assert_eq!(rt; folder.put(b"ab"), Ok(()));
        assert_eq!(rt; folder.put(b"cde"), Err(Failed));
    }
    assert_eq!(rt; folder.bytes_of(b"b"), Some(b"abcd".as_slice()));
    assert_eq!(rt; folder.bytes_of(b"c"), None);
    Ok(())
}

#[test]
fn fails_by_number(rt: HostRuntime) -> Result<(), Fail> {
    let mut fails = Vec::new(rt.alloc());
    fails.push(2u64)?;
    let mut folder = folder(rt.alloc(), fails)?;
    assert_eq!(rt; folder.begin(b"b"), Ok(()));
    assert_eq!(rt; folder.begin(b"b"), Err(BeginStop::Failed));
    assert_eq!(rt; folder.open(b"a"), Ok(()));
    Ok(())
}

#[test]
fn tells_of_a_fault(rt: HostRuntime) -> Result<(), Fail> {
    let mut files = Files::new(rt.alloc());
    files.push(Bytes::from_slice(rt.alloc(), b"m.zpl")?)?;
    let fault = Fault {
        place: Place { file: 0, line: 1 },
        kind: Kind::Unsupported(Word::WSqrt),
    };
    let mut err = MemorySink::new(rt.alloc(), 100, Vec::new(rt.alloc()))?;
    assert_eq!(rt; fault_line(&fault, &files, &mut err), Ok(()));
    assert_eq!(rt; err.taken(), b"m.zpl:1: 4 Unsupported sqrt\n".as_slice());
    Ok(())
}

#[test]
fn writes_and_reads_the_disk(rt: HostRuntime) -> Result<(), Fail> {
    let mut folder = DiskFolder::new(rt.alloc(), &rt);
    if let Ok(()) = folder.begin(b"zim_gate_test.txt") {
        assert_eq!(rt; folder.put(b"text"), Ok(()));
        assert_eq!(rt; folder.end(), Ok(()));
    }
    let mut buf = [0u8; 9];
    assert_eq!(rt; folder.open(b"zim_gate_test.txt"), Ok(()));
    assert_eq!(rt; folder.read(&mut buf), Ok(4));
    assert_eq!(rt; buf[3], b't');
    assert_eq!(rt; folder.read(&mut buf), Ok(0));
    fs::remove_file(&rt, "zim_gate_test.txt")?;
    assert_eq!(rt; folder.open(b"zim_gate_test.txt"), Err(OpenStop::Missing));
    assert_eq!(rt; folder.open(b"\xff"), Err(OpenStop::Failed));
    Ok(())
}

#[test]
fn writes_to_a_stream(rt: HostRuntime) -> Result<(), Fail> {
    let mut bytes = Vec::new(rt.alloc());
    let mut sink = StreamSink::new(&mut bytes);
    assert_eq!(rt; sink.put(b"text"), Ok(()));
    let _ = sink;
    assert_eq!(rt; bytes.as_slice(), b"text".as_slice());
    Ok(())
}
