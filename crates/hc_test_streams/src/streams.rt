//! Each maker once, with faults in mid-stream.
use hc_io::{
    MemorySink, MemorySource, PlainSink, PlainSource, ReadError, Sink, SinkError, Source,
    SourceFailed, StdSink, StdSource, read_all, write_all,
};
use std::io::{self, ErrorKind};
use std::process::Abort;
use std::test::Fail;

/// A reader of std that fails.
#[derive(Drop)]
struct Broken;

impl io::Read for Broken {
    fn read(&mut self, _into: &mut [u8]) -> io::Result<usize> {
        Err(ErrorKind::ConnectionReset.into())
    }
}

/// What a read of five bytes gives, and what is stored then, after `-----`.
fn read_five<S: Source>(source: &mut S) -> (Option<usize>, [u8; 5]) {
    let mut into = [b'-'; 5];
    let n = source.read(&mut into).ok();
    (n, into)
}

#[test]
fn a_source_in_memory_gives_steps_and_fails_as_listed(rt: HostRuntime) -> Result<(), Fail> {
    let bytes = Vec::from_slice(rt.alloc(), b"abcdefgh")?;
    assert!(rt; bytes.len() == 8);
    let mut source = MemorySource::new(bytes, 3, vec![in rt.alloc(); 2, 5]?);
    gives_as_listed(&rt, &mut source);
    Ok(())
}

fn gives_as_listed<R: Abort>(rt: &R, source: &mut MemorySource) {
    let rows = &[
        (Some(3), b"abc--"),
        (None, b"-----"),
        (Some(3), b"def--"),
        (Some(2), b"gh---"),
        (None, b"-----"),
        (Some(0), b"-----"),
    ];
    for (n, stored) in rows {
        let (given, into) = read_five(source);
        assert_eq!(rt; given, *n);
        assert!(rt; into.as_slice() == stored.as_slice());
    }
}

#[test]
fn sinks_in_memory_take_and_fail_as_listed(rt: HostRuntime) -> Result<(), Fail> {
    let mut sink = MemorySink::new(rt.alloc(), vec![in rt.alloc(); 2]?);
    takes_as_listed(&rt, &mut sink);
    takes(&rt, &mut PlainSink::new(rt.alloc()));
    Ok(())
}

fn takes_as_listed<R: Abort>(rt: &R, sink: &mut MemorySink) {
    assert_eq!(rt; sink.write(b"a"), Ok(1));
    assert_eq!(rt; sink.write(b"b"), Err(SinkError::SinkFailed));
    assert!(rt; sink.taken() == b"a".as_slice());
    assert_eq!(rt; write_all(sink, b"bc"), Ok(()));
    assert!(rt; sink.taken() == b"abc".as_slice());
}

fn takes<R: Abort>(rt: &R, plain: &mut PlainSink) {
    assert_eq!(rt; plain.write(b"a"), Ok(1));
    assert!(rt; plain.taken() == b"a".as_slice());
}

#[test]
fn a_plain_source_is_read_to_its_end(rt: HostRuntime) -> Result<(), Fail> {
    let bytes = vec![in rt.alloc(); 7u8; 200_000]?;
    assert!(rt; bytes.len() == 200_000);
    let mut plain = PlainSource::new(bytes);
    let read = read_all(rt.alloc(), &mut plain)?;
    assert!(rt; read.len() == 200_000 && read.iter().all(|b| *b == 7));
    Ok(())
}

#[test]
fn a_source_in_memory_is_read_to_its_end_or_its_fault(rt: HostRuntime) -> Result<(), Fail> {
    is_read(&rt, 9, None)?;
    is_read(&rt, 3, Some(ReadError::SourceFailed))
}

/// Five bytes are read, two at a time, where this read fails.
fn is_read<R: Abort + AllocGlobal>(
    rt: &R,
    fails: u64,
    want: Option<ReadError>,
) -> Result<(), Fail> {
    let bytes = Vec::from_slice(rt.alloc(), b"abcde")?;
    assert!(rt; bytes.len() == 5);
    let mut source = MemorySource::new(bytes, 2, vec![in rt.alloc(); fails]?);
    assert_eq!(rt; read_all(rt.alloc(), &mut source).err(), want);
    Ok(())
}

#[test]
fn a_source_over_std_is_read_to_its_end_or_its_fault(rt: HostRuntime) -> Result<(), Fail> {
    let mut adapted = StdSource::new(b"abcde".as_slice());
    let read = read_all(rt.alloc(), &mut adapted)?;
    assert!(rt; read.as_slice() == b"abcde".as_slice());
    let mut broken = StdSource::new(Broken);
    assert_eq!(rt;
        read_all(rt.alloc(), &mut broken).err(),
        Some(ReadError::SourceFailed)
    );
    Ok(())
}

#[test]
fn a_sink_over_std_fails_where_its_writer_takes_nothing(rt: HostRuntime) -> Result<(), Fail> {
    let mut room = [0u8; 4];
    let mut sink = StdSink::new(room.as_mut_slice());
    assert_eq!(rt; write_all(&mut sink, b"abc"), Ok(()));
    assert_eq!(rt; sink.write(b""), Ok(0));
    assert_eq!(rt; write_all(&mut sink, b"def"), Err(SinkError::SinkFailed));
    drop(sink);
    assert_eq!(rt; &room, b"abcd");
    Ok(())
}

/// A reader of std that gives at most 777 bytes in a call, and that a signal interrupts at each third.
#[derive(Drop)]
struct Trickle<'a> {
    left: &'a [u8],
    calls: u32,
}

impl io::Read for Trickle<'_> {
    fn read(&mut self, into: &mut [u8]) -> io::Result<usize> {
        self.calls = self.calls.wrapping_add(1);
        if self.calls % 3 == 0 {
            return Err(ErrorKind::Interrupted.into());
        }
        let n = self.left.len().min(into.len()).min(777);
        let (front, rest) = self.left.split_at(n);
        into[..n].copy_from_slice(front);
        self.left = rest;
        Ok(n)
    }
}

/// A writer of std that takes at most 999 bytes in a call, and that a signal interrupts at each third.
#[derive(Drop)]
struct Funnel {
    taken: Vec<u8>,
    calls: u32,
}

impl io::Write for Funnel {
    fn write(&mut self, from: &[u8]) -> io::Result<usize> {
        self.calls = self.calls.wrapping_add(1);
        if self.calls % 3 == 0 {
            return Err(ErrorKind::Interrupted.into());
        }
        let n = from.len().min(999);
        self.taken.extend_from_slice(&from[..n])?;
        Ok(n)
    }

    fn flush(&mut self) -> io::Result<()> {
        Ok(())
    }
}

#[test]
fn moves_many_bytes_in_short_pieces(rt: HostRuntime) -> Result<(), Fail> {
    let mut bytes = Vec::new(rt.alloc());
    add_many(&mut bytes)?;
    reads_many(&rt, &bytes)?;
    let mut to = Funnel {
        taken: Vec::new(rt.alloc()),
        calls: 0,
    };
    writes_many(&rt, &bytes, &mut to);
    Ok(())
}

fn add_many(bytes: &mut Vec<u8>) -> Result<(), Fail> {
    for i in 0..200_000u32 {
        bytes.push((i % 251) as u8)?;
    }
    Ok(())
}

fn reads_many<R: Abort + AllocGlobal>(rt: &R, bytes: &[u8]) -> Result<(), Fail> {
    let mut source = StdSource::new(Trickle {
        left: bytes,
        calls: 0,
    });
    let read = read_all(rt.alloc(), &mut source)?;
    assert!(rt; read.as_slice() == bytes);
    Ok(())
}

fn writes_many<R: Abort>(rt: &R, bytes: &[u8], to: &mut Funnel) {
    let mut sink = StdSink::new(&mut *to);
    assert_eq!(rt; write_all(&mut sink, bytes), Ok(()));
    drop(sink);
    assert!(rt; to.taken.as_slice() == bytes);
}
