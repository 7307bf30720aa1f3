// Sources and sinks of the test's own.
use byte_io::{
    ByteSink, ByteSource, MemorySink, MemorySource, ReadRefusal, ReaderSource, WriterSink,
    read_all, write_all,
};
use std::io;
use std::io::{ErrorKind, Read, Write};
use std::test::Fail;

fn source(rt: &HostRuntime, text: &str, fail: &[u64]) -> Result<MemorySource, Fail> {
    let bytes = Vec::from_slice(rt.alloc(), text.as_bytes())?;
    let fail = Vec::from_slice(rt.alloc(), fail)?;
    Ok(MemorySource::new(bytes, 2, fail))
}

fn sink(rt: &HostRuntime, room: usize, fail: &[u64]) -> Result<MemorySink, Fail> {
    let fail = Vec::from_slice(rt.alloc(), fail)?;
    Ok(MemorySink::new(rt.alloc(), room, 2, fail)?)
}

// Whether a source whose call of this number fails is refused as failed.
fn is_refused_at(rt: &HostRuntime, call: u64) -> Result<bool, Fail> {
    let mut failing = source(rt, "hello", &[call])?;
    let read = read_all(rt.alloc(), &mut failing);
    Ok(matches!(&read, Err(ReadRefusal::Failed)))
}

// Five bytes come in three reads, and the fourth finds the end.
#[test]
fn reads_until_the_end(rt: HostRuntime) -> Result<(), Fail> {
    let mut whole = source(&rt, "hello", &[])?;
    let bytes = read_all(rt.alloc(), &mut whole).map_err(Fail::from)?;
    assert_eq!(rt; bytes.as_slice(), b"hello".as_slice());
    for call in 1..5u64 {
        assert!(rt; is_refused_at(&rt, call)?, "{call}");
    }
    Ok(())
}

// What is left after a failure is read by the next call.
#[test]
fn reads_on_after_a_failure(rt: HostRuntime) -> Result<(), Fail> {
    let mut failing = source(&rt, "hello", &[2])?;
    assert!(rt; read_all(rt.alloc(), &mut failing).is_err());
    let bytes = read_all(rt.alloc(), &mut failing).map_err(Fail::from)?;
    assert_eq!(rt; bytes.as_slice(), b"llo".as_slice());
    Ok(())
}

// The sink's room, its call that fails, and what is written of `hello`.
const WRITES: &str = "5 9 hello
9 1 
9 2 he
9 3 hell
3 9 hel
0 9 ";

// Whether a row says what is written, and whether that is all.
fn is_written(rt: &HostRuntime, row: &str) -> Result<bool, Fail> {
    let Some((room, rest)) = row.split_once(" ") else {
        return Ok(false);
    };
    let Some((fail, written)) = rest.split_once(" ") else {
        return Ok(false);
    };
    let (Ok(room), Ok(fail)) = (room.parse::<usize>(), fail.parse::<u64>()) else {
        return Ok(false);
    };
    let mut taking = sink(rt, room, &[fail])?;
    let is_whole = write_all(&mut taking, b"hello").is_ok();
    Ok(taking.written() == written.as_bytes() && is_whole == (written == "hello"))
}

#[test]
fn writes_until_a_failure(rt: HostRuntime) -> Result<(), Fail> {
    for row in WRITES.lines() {
        assert!(rt; is_written(&rt, row)?, "{row}");
    }
    Ok(())
}

// A reader and a writer that fail, or take nothing.
#[derive(Drop)]
struct Broken;

impl Read for Broken {
    fn read(&mut self, _buf: &mut [u8]) -> io::Result<usize> {
        Err(io::Error::from(ErrorKind::BrokenPipe))
    }
}

impl Write for Broken {
    fn write(&mut self, _buf: &[u8]) -> io::Result<usize> {
        Ok(0)
    }

    fn flush(&mut self) -> io::Result<()> {
        Ok(())
    }
}

#[test]
fn reads_from_a_reader(rt: HostRuntime) -> Result<(), Fail> {
    let mut text: &[u8] = b"hello";
    let mut whole = ReaderSource::new(&mut text);
    let bytes = read_all(rt.alloc(), &mut whole).map_err(Fail::from)?;
    assert_eq!(rt; bytes.as_slice(), b"hello".as_slice());
    let mut failing = ReaderSource::new(Broken);
    let read = read_all(rt.alloc(), &mut failing);
    assert!(rt; matches!(&read, Err(ReadRefusal::Failed)));
    Ok(())
}

#[test]
fn writes_to_a_writer(rt: HostRuntime) -> Result<(), Fail> {
    let mut text = Vec::new(rt.alloc());
    let mut taking = WriterSink::new(&mut text);
    assert!(rt; write_all(&mut taking, b"hello").is_ok());
    assert_eq!(rt; text.as_slice(), b"hello".as_slice());
    assert!(rt; write_all(&mut WriterSink::new(Broken), b"x").is_err());
    Ok(())
}
