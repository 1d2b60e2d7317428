//! A std writer as a sink.

ghost use Rattle.std.specs.Prelude.{◌≡◌, ◌≤◌, ◌<◌, false, length, IfOk};
ghost use Rattle.std.specs.Io.KnownBytes.{WriteAppends};
ghost use Rattle.wi_devices.specs.Devices.{writer_of, write_failed, is_flushed};

use crate::device::{DeviceFault, Sink};
use std::io::{ErrorKind, Write};

/// A std writer as a sink.
#[derive(Drop)]
pub struct WriteTo<W> {
    inner: W,
    failed: bool,
    flushed: bool,
}

impl<W: Write> WriteTo<W> {
    /// A sink that has not failed.
    pub fn new(inner: W) -> Self
        ensures writer { writer_of result ≡ inner }
        ensures failed { write_failed result ≡ false }
    {
        WriteTo {
            inner,
            failed: false,
            flushed: false,
        }
    }
}

/// One write, made again where the system interrupts it. A write of no byte, where there is one, is a failed one.
fn write_some<W: Write>(writer: &mut W, buf: &[u8]) -> Result<usize, DeviceFault>
    ensures bound { IfOk result (λ n. n ≤ length buf.now) }
    ensures some { IfOk result (λ n. 0 < length buf.now → 0 < n) }
    ensures bytes { WriteAppends (W.contents writer.old) (W.contents writer.new) result buf.now }
{
    for _ in 0..u64::MAX {
        match writer.write(buf) {
            Ok(n) => {
                if n == 0 && !buf.is_empty() {
                    return Err(DeviceFault);
                }
                return Ok(n);
            }
            Err(error) => {
                if error.kind() != ErrorKind::Interrupted {
                    return Err(DeviceFault);
                }
            }
        }
    }
    Err(DeviceFault)
}

impl<W: Write> Sink for WriteTo<W> {
    ghost contents = { λ s. W.contents (writer_of s) };

    ghost has_failed = { write_failed };

    ghost flushed = { is_flushed };

    fn write(&mut self, buf: &[u8]) -> Result<usize, DeviceFault> {
        self.flushed = false;
        let outcome = write_some(&mut self.inner, buf);
        self.failed = outcome.is_err();
        outcome
    }

    fn flush(&mut self) -> Result<(), DeviceFault> {
        match self.inner.flush() {
            Ok(()) => {
                self.flushed = true;
                Ok(())
            }
            Err(_) => {
                self.flushed = false;
                self.failed = true;
                Err(DeviceFault)
            }
        }
    }

    fn failed(&self) -> bool {
        self.failed
    }
}
