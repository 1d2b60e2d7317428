//! What a script is read from and what its replies are written to.

ghost use Rattle.std.specs.Prelude.{◌≡◌, ℕ, ◌-◌, ◌<◌, ◌≤◌, Bool, false, is_err, is_ok, List, Option, length, IfOk, OnOk};
ghost use Rattle.std.specs.Io.KnownBytes.{Keeps, ReadConsumes, WriteAppends};

use thiserror::Error;

/// A call on a device failed.
#[derive(Clone, Copy, Debug, Error)]
#[error("a device failed")]
pub struct DeviceFault;

/// What bytes are read from.
pub trait Source {
    /// The bytes that reads will give from here on, where the source tells them.
    ghost remaining: { Self → Option (List ℕ) };

    /// How many reads it still allows.
    ghost reads_left: { Self → ℕ };

    /// Whether a call on it has failed.
    ghost has_failed: { Self → Bool };

    /// Reads some bytes to the front of `buf`. Nothing is read at the end alone.
    fn read(&mut self, buf: &mut [u8]) -> Result<usize, DeviceFault>
        requires { has_failed self.old ≡ false }
        ensures bound { IfOk result (λ n. n ≤ length buf.new) }
        ensures bytes { ReadConsumes (remaining self.old) (remaining self.new) result buf.new }
        ensures count { reads_left self.new ≡ reads_left self.old - 1 }
        ensures allowed { OnOk result (0 < reads_left self.old) }
        ensures failed { has_failed self.new ≡ is_err result };

    /// How many reads it still allows.
    fn left(&self) -> u64
        ensures { result ≡ reads_left self.now };

    /// Whether a call on it has failed.
    fn failed(&self) -> bool
        ensures { result ≡ has_failed self.now };
}

/// What bytes are written to.
pub trait Sink {
    /// The bytes that it has been given, where it tells them.
    ghost contents: { Self → Option (List ℕ) };

    /// Whether a call on it has failed.
    ghost has_failed: { Self → Bool };

    /// Whether all that it took was sent on.
    ghost flushed: { Self → Bool };

    /// Takes some bytes from the front of `buf`: at least one, where there is one, or it fails.
    fn write(&mut self, buf: &[u8]) -> Result<usize, DeviceFault>
        requires { has_failed self.old ≡ false }
        ensures bound { IfOk result (λ n. n ≤ length buf.now) }
        ensures some { IfOk result (λ n. 0 < length buf.now → 0 < n) }
        ensures bytes { WriteAppends (contents self.old) (contents self.new) result buf.now }
        ensures held { flushed self.new ≡ false }
        ensures failed { has_failed self.new ≡ is_err result };

    /// Sends on what the device holds back.
    fn flush(&mut self) -> Result<(), DeviceFault>
        requires { has_failed self.old ≡ false }
        ensures bytes { Keeps (contents self.old) (contents self.new) }
        ensures sent { flushed self.new ≡ is_ok result }
        ensures failed { has_failed self.new ≡ is_err result };

    /// Whether a call on it has failed.
    fn failed(&self) -> bool
        ensures { result ≡ has_failed self.now };
}
