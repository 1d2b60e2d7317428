//! Writing all of some bytes.

ghost use Rattle.std.specs.Prelude.{◌≡◌, false, is_err, OnOk, OnErr};
ghost use Rattle.std.specs.Io.KnownBytes.{Appends};
ghost use Rattle.wi_cli.specs.Inner.Turn.{AppendsFront};

use wi_devices::{DeviceFault, Sink};

/// Writes all the bytes, or fails and has written a front of them.
pub(crate) fn write_all<W: Sink>(writer: &mut W, bytes: &[u8]) -> Result<(), DeviceFault>
    requires { W.has_failed writer.old ≡ false }
    ensures ok { OnOk result (Appends (W.contents writer.old) (W.contents writer.new) bytes.now) }
    ensures err { OnErr result
        (AppendsFront (W.contents writer.old) (W.contents writer.new) bytes.now) }
    ensures failed { W.has_failed writer.new ≡ is_err result }
{
    let mut at = 0;
    while at < bytes.len() {
        at += writer.write(&bytes[at..])?;
    }
    Ok(())
}
