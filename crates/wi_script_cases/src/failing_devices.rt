//! Devices in memory that move a few bytes at a call, and of which one call may fail.

use std::io;
use std::io::{Read, Write};

/// The calls of one kind on a device.
#[derive(Clone, Copy)]
pub struct Calls {
    /// How many bytes a call moves at most.
    piece: usize,
    /// Which call fails, counted from 1.
    failing: u64,
    /// How many were made, but for those that were interrupted.
    pub made: u64,
    /// Whether the last call was interrupted.
    interrupted: bool,
}

impl Calls {
    /// Calls of which none was made yet.
    pub fn new(piece: usize, failing: u64) -> Calls {
        Calls {
            piece,
            failing,
            made: 0,
            interrupted: false,
        }
    }

    /// Whether a call is interrupted. Each is once, and then made again.
    fn is_interrupted(&mut self) -> bool {
        self.interrupted = !self.interrupted;
        self.interrupted
    }

    /// Counts a call, and tells whether it is the one that fails.
    fn fails(&mut self) -> bool {
        self.made = self.made.saturating_add(1);
        self.made == self.failing
    }
}

/// Gives its bytes, and then ends. Each read is interrupted first.
#[derive(Drop)]
pub struct FailingReader<'a> {
    pub bytes: &'a [u8],
    pub reads: Calls,
}

impl Read for FailingReader<'_> {
    fn read(&mut self, buf: &mut [u8]) -> io::Result<usize> {
        if self.reads.is_interrupted() {
            return Err(io::ErrorKind::Interrupted.into());
        }
        if self.reads.fails() {
            return Err(io::ErrorKind::Other.into());
        }
        let wanted = buf.len().min(self.reads.piece);
        self.bytes.read(&mut buf[..wanted])
    }
}

/// Takes bytes. Each write is interrupted first.
#[derive(Drop)]
pub struct FailingWriter<'a> {
    pub bytes: &'a mut Vec<u8>,
    pub writes: Calls,
    /// Whether the write that fails takes no byte, in the place of an error.
    pub takes_none: bool,
    pub flushes: Calls,
    /// Whether all that was written was flushed.
    pub flushed: bool,
}

impl Write for FailingWriter<'_> {
    fn write(&mut self, buf: &[u8]) -> io::Result<usize> {
        self.flushed = false;
        if self.writes.is_interrupted() {
            return Err(io::ErrorKind::Interrupted.into());
        }
        if self.writes.fails() {
            return if self.takes_none {
                Ok(0)
            } else {
                Err(io::ErrorKind::Other.into())
            };
        }
        let taken = buf.len().min(self.writes.piece);
        self.bytes.extend_from_slice(&buf[..taken])?;
        Ok(taken)
    }

    fn flush(&mut self) -> io::Result<()> {
        if self.flushes.fails() {
            return Err(io::ErrorKind::Other.into());
        }
        self.flushed = true;
        Ok(())
    }
}
