//! The reply to a line.

ghost use Rattle.std.specs.Prelude.{◌≡◌, ◌<◌, false, is_err, OnOk, OnErr};
ghost use Rattle.std.specs.Io.KnownBytes.{Appends};
ghost use Rattle.wi_cli.specs.Inner.Turn.{AppendsFront};
ghost use Rattle.wi_cli.specs.Inner.Told.{refused, refused_code, refused_cell, reply_bytes};

use crate::write::write_all;
use crate::write_address::write_address;
use wi_devices::{DeviceFault, Sink};
use wi_scenarios::Refusal;

/// The reply to a line.
#[derive(Clone, Copy)]
pub enum Reply {
    /// None: the line was passed over.
    Passed,
    /// The records, and `ok`.
    Done,
    Refused(Refusal),
}

/// Writes a space and the address of the cell that a refusal tells, if it tells one.
fn write_cell<W: Sink>(writer: &mut W, refusal: &Refusal) -> Result<(), DeviceFault>
    requires { W.has_failed writer.old ≡ false }
    ensures ok { OnOk result
        (Appends (W.contents writer.old) (W.contents writer.new) (refused_cell refusal.now)) }
    ensures err { OnErr result
        (AppendsFront (W.contents writer.old) (W.contents writer.new) (refused_cell refusal.now)) }
    ensures failed { W.has_failed writer.new ≡ is_err result }
{
    match refusal {
        Refusal::Stale(at) => {
            write_all(writer, b" ")?;
            write_address(writer, *at)
        }
        _ => Ok(()),
    }
}

/// Writes `refused E`, and a code in two digits.
fn write_code<W: Sink>(writer: &mut W, code: u8) -> Result<(), DeviceFault>
    requires works { W.has_failed writer.old ≡ false }
    requires digits { code < 100 }
    ensures ok { OnOk result
        (Appends (W.contents writer.old) (W.contents writer.new) (refused_code code)) }
    ensures err { OnErr result
        (AppendsFront (W.contents writer.old) (W.contents writer.new) (refused_code code)) }
    ensures failed { W.has_failed writer.new ≡ is_err result }
{
    let tens = b'0' + code / 10;
    let ones = b'0' + code % 10;
    let text = [
        b'r', b'e', b'f', b'u', b's', b'e', b'd', b' ', b'E', tens, ones,
    ];
    write_all(writer, &text)
}

/// Writes the line of a refusal.
fn write_refusal<W: Sink>(writer: &mut W, refusal: &Refusal) -> Result<(), DeviceFault>
    requires { W.has_failed writer.old ≡ false }
    ensures ok { OnOk result
        (Appends (W.contents writer.old) (W.contents writer.new) (refused refusal.now)) }
    ensures err { OnErr result
        (AppendsFront (W.contents writer.old) (W.contents writer.new) (refused refusal.now)) }
    ensures failed { W.has_failed writer.new ≡ is_err result }
{
    write_code(writer, refusal.code())?;
    write_cell(writer, refusal)?;
    write_all(writer, b"\n")
}

/// Writes the reply to a line: its records and `ok`, or its refusal.
pub(crate) fn write_reply<W: Sink>(
    writer: &mut W,
    reply: Reply,
    records: &[u8],
) -> Result<(), DeviceFault>
    requires { W.has_failed writer.old ≡ false }
    ensures ok { OnOk result
        (Appends (W.contents writer.old) (W.contents writer.new) (reply_bytes reply records.now)) }
    ensures err { OnErr result (AppendsFront (W.contents writer.old)
        (W.contents writer.new) (reply_bytes reply records.now)) }
    ensures failed { W.has_failed writer.new ≡ is_err result }
{
    match reply {
        Reply::Passed => Ok(()),
        Reply::Done => {
            write_all(writer, records)?;
            write_all(writer, b"ok\n")
        }
        Reply::Refused(refusal) => write_refusal(writer, &refusal),
    }
}
