//! The std devices that serve as a source and a sink, call by call.

use crate::texts::expect_that;
use std::io;
use std::io::{Read, Write};
use std::process::Abort;
use wi_devices::{READS, ReadFrom, Sink, Source, WriteTo};

/// Gives its bytes, and then fails.
#[derive(Drop)]
struct Torn {
    bytes: &'static [u8],
}

impl Read for Torn {
    fn read(&mut self, buf: &mut [u8]) -> io::Result<usize> {
        if self.bytes.is_empty() {
            return Err(io::ErrorKind::Other.into());
        }
        self.bytes.read(buf)
    }
}

/// Takes at most two bytes a call, and no more in all than it has room for.
#[derive(Drop)]
struct Slow<'a> {
    room: &'a mut [u8],
}

impl Write for Slow<'_> {
    fn write(&mut self, buf: &[u8]) -> io::Result<usize> {
        let taken = buf.len().min(2);
        self.room.write(&buf[..taken])
    }

    fn flush(&mut self) -> io::Result<()> {
        Ok(())
    }
}

/// How many bytes are read by the first call, or none where it fails.
fn read(rt: &impl Abort, bytes: &'static [u8], buffer: &mut [u8]) -> Option<usize> {
    let mut source = ReadFrom::new(Torn { bytes });
    let had_failed = source.failed();
    let count = source.read(buffer).ok();
    expect_that(rt, !had_failed, "as yet no read failed");
    expect_that(rt, source.failed() == count.is_none(), "the read failed");
    expect_that(rt, source.left() == READS - 1, "the reads that are left");
    count
}

#[test]
fn reads_what_the_reader_has(rt: HostRuntime) {
    let mut buffer = [0u8; 4];
    assert!(rt; read(&rt, b"set A1 5\n", &mut buffer) == Some(4));
    assert!(rt; buffer.as_slice() == b"set ".as_slice());
}

#[test]
fn fails_where_the_reader_fails(rt: HostRuntime) {
    assert!(rt; read(&rt, b"", &mut [0u8; 4]).is_none());
}

/// How many bytes the sink takes, or none where it fails.
fn expect_taken(rt: &impl Abort, sink: &mut impl Sink, bytes: &[u8], wanted: Option<usize>) {
    assert!(rt; !sink.failed());
    assert!(rt; sink.write(bytes).ok() == wanted);
    assert!(rt; sink.failed() == wanted.is_none());
}

/// A writer that takes nothing more fails the sink.
#[test]
fn writes_what_the_writer_takes(rt: HostRuntime) {
    let mut bytes = [0u8; 3];
    let mut sink = WriteTo::new(Slow { room: &mut bytes });
    expect_taken(&rt, &mut sink, b"ok\n", Some(2));
    expect_taken(&rt, &mut sink, b"\nok\n", Some(1));
    expect_taken(&rt, &mut sink, b"ok\n", None);
    assert!(rt; bytes.as_slice() == b"ok\n".as_slice());
}
