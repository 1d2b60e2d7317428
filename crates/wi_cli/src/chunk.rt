//! A buffer between a source and the reader of lines.

ghost use Rattle.std.specs.Prelude.{◌≡◌, ◌<◌, ◌≤◌, [], true, false, drop, length, is_err, IfOk, IfErr, OnOk, OnErr};
ghost use Rattle.std.specs.Io.KnownBytes.{IsAtEnd, prepend_known};
ghost use Rattle.wi_cli.specs.Inner.Reading.{Takes, budget};

use crate::fault::RunFault;
use std::marker::Model;
use wi_devices::Source;

/// The bytes that are read at once.
const SIZE: usize = 4096;

/// Bytes that were read and not yet taken.
#[derive(Drop)]
pub struct Chunk {
    bytes: [u8; 4096],
    at: usize,
    filled: usize,
}

impl Model for Chunk {
    ghost use Rattle.std.specs.Prelude.{List, ℕ, ◌≤◌, drop, take};

    ghost Value = { List ℕ };

    ghost view = { λ c. drop c.at (take c.filled c.bytes) };

    ghost invariant = { λ c. (c.at ≤ c.filled) × (c.filled ≤ 4096) };
}

impl Chunk {
    /// An empty buffer.
    pub(crate) fn new() -> Self
        ensures { result ≡ [] }
    {
        Chunk {
            bytes: [0; SIZE],
            at: 0,
            filled: 0,
        }
    }

    /// Reads on if nothing is left, and answers whether there is a byte then. There is none only at the end of the
    /// input.
    pub(crate) fn fill<R: Source>(&mut self, source: &mut R) -> Result<bool, RunFault>
        requires { R.has_failed source.old ≡ false }
        ensures kept { Takes self.old (R.remaining source.old)
            self.new (R.remaining source.new) [] }
        ensures some { IfOk result (λ some. some ≡ true → 0 < length self.new) }
        ensures end { IfOk result (λ some. some ≡ false
            → IsAtEnd (prepend_known self.new (R.remaining source.new))) }
        ensures fault { IfErr result (λ e. e ≡ RunFault.Read) }
        ensures empty { OnErr result (self.new ≡ []) }
        ensures failed { R.has_failed source.new ≡ is_err result }
        ensures less { OnOk result (
            budget self.new (R.reads_left source.new) ≤ budget self.old (R.reads_left source.old)) }
    {
        if self.at < self.filled {
            return Ok(true);
        }
        self.at = 0;
        self.filled = 0;
        match source.read(&mut self.bytes) {
            Ok(count) => {
                self.filled = count;
                Ok(count > 0)
            }
            Err(_) => Err(RunFault::Read),
        }
    }

    /// What is left.
    pub(crate) fn rest(&self) -> &[u8]
        ensures { result.now ≡ self.now }
    {
        &self.bytes[self.at..self.filled]
    }

    /// Takes so many of the bytes that are left.
    pub(crate) fn skip(&mut self, count: usize)
        requires { count ≤ length self.old }
        ensures { self.new ≡ drop count self.old }
    {
        self.at += count;
    }
}
