//! Sources and sinks over std's devices, and devices that fail.

use cq_devices::{Counted, Failed, Sink, Source, write_all};
use std::io::{self, ErrorKind, Read, Write};

/// Gives one byte a read, and fails at the second one.
#[derive(Drop)]
struct Brittle(u8);

impl Read for Brittle {
    fn read(&mut self, buf: &mut [u8]) -> io::Result<usize> {
        self.0 = self.0.saturating_add(1);
        if self.0 == 2 {
            return Err(ErrorKind::TimedOut.into());
        }
        if buf.is_empty() {
            return Ok(0);
        }
        buf[0] = b'a';
        Ok(1)
    }
}

/// Takes nothing, and says so.
#[derive(Drop)]
struct Full;

impl Write for Full {
    fn write(&mut self, _: &[u8]) -> io::Result<usize> {
        Ok(0)
    }

    fn flush(&mut self) -> io::Result<()> {
        Err(ErrorKind::TimedOut.into())
    }
}

#[test]
fn memory_is_read(rt: HostRuntime) {
    let mut source = Counted::new(b"abcde".as_slice());
    let mut piece = [0; 3];
    assert!(rt; source.read(&mut piece) == Ok(3) && piece == *b"abc");
    assert!(rt; source.read(&mut piece) == Ok(2) && piece == *b"dec");
    assert!(rt; source.read(&mut piece) == Ok(0));
    assert!(rt; source.reads() == 3 && source.failures() == 0);
}

#[test]
fn memory_is_written(rt: HostRuntime) {
    let mut sink = Counted::new(Vec::new(rt.alloc()));
    assert!(rt; sink.write(b"ok") == Ok(2) && sink.write(b"") == Ok(0));
    assert!(rt; write_all(&mut sink, b" 7") == Ok(()) && sink.flush() == Ok(()));
    assert!(rt; Sink::failures(&sink) == 0);
    let written = sink.into_inner();
    assert!(rt; written.as_slice() == b"ok 7".as_slice());
}

#[test]
fn failed_reads_are_counted(rt: HostRuntime) {
    let mut source = Counted::new(Brittle(0));
    let mut piece = [0; 3];
    assert!(rt; source.read(&mut piece) == Ok(1));
    assert!(rt; source.read(&mut piece) == Err(Failed));
    assert!(rt; source.read(&mut piece) == Ok(1));
    assert!(rt; source.reads() == 3 && Source::failures(&source) == 1);
}

#[test]
fn failed_writes_are_counted(rt: HostRuntime) {
    let mut sink = Counted::new(Full);
    assert!(rt; sink.write(b"a") == Err(Failed), "nothing of a byte");
    assert!(rt; sink.write(b"") == Ok(0), "nothing of nothing");
    assert!(rt; sink.flush() == Err(Failed));
    assert!(rt; write_all(&mut sink, b"a") == Err(Failed));
    assert!(rt; Sink::failures(&sink) == 3);
}
