//! A std reader as a source.

ghost use Rattle.std.specs.Prelude.{◌≡◌, ◌^◌, ◌≤◌, false, length, IfOk};
ghost use Rattle.std.specs.Io.KnownBytes.{ReadConsumes};
ghost use Rattle.wi_devices.specs.Devices.{reader_of, reads_left_of, read_failed};

use crate::device::{DeviceFault, Source};
use std::io::{ErrorKind, Read};

/// How many reads a `ReadFrom` allows.
pub const READS: u64 = 4_294_967_296;

/// A std reader as a source.
#[derive(Drop)]
pub struct ReadFrom<R> {
    inner: R,
    left: u64,
    failed: bool,
}

impl<R: Read> ReadFrom<R> {
    /// A source that has not failed, and allows 2^32 reads.
    pub fn new(inner: R) -> Self
        ensures reader { reader_of result ≡ inner }
        ensures left { reads_left_of result ≡ 2 ^ 32 }
        ensures failed { read_failed result ≡ false }
    {
        ReadFrom {
            inner,
            left: READS,
            failed: false,
        }
    }
}

/// One read, made again where the system interrupts it.
fn read_some<R: Read>(reader: &mut R, buf: &mut [u8]) -> Result<usize, DeviceFault>
    ensures bound { IfOk result (λ n. n ≤ length buf.new) }
    ensures bytes { ReadConsumes (R.remaining reader.old) (R.remaining reader.new) result buf.new }
{
    for _ in 0..u64::MAX {
        match reader.read(buf) {
            Ok(n) => return Ok(n),
            Err(error) => {
                if error.kind() != ErrorKind::Interrupted {
                    return Err(DeviceFault);
                }
            }
        }
    }
    Err(DeviceFault)
}

impl<R: Read> Source for ReadFrom<R> {
    ghost remaining = { λ s. R.remaining (reader_of s) };

    ghost reads_left = { reads_left_of };

    ghost has_failed = { read_failed };

    fn read(&mut self, buf: &mut [u8]) -> Result<usize, DeviceFault> {
        if self.left == 0 {
            self.failed = true;
            return Err(DeviceFault);
        }
        self.left -= 1;
        let outcome = read_some(&mut self.inner, buf);
        self.failed = outcome.is_err();
        outcome
    }

    fn left(&self) -> u64 {
        self.left
    }

    fn failed(&self) -> bool {
        self.failed
    }
}
