//! Writing the text of an address without memory.

ghost use Rattle.std.specs.Prelude.{◌≡◌, ◌==◌, ◌||◌, false, is_err, OnOk, OnErr};
ghost use Rattle.std.specs.Io.KnownBytes.{Appends};
ghost use Rattle.wi_values.specs.Address.{address_text, letters_within};
ghost use Rattle.wi_cli.specs.Inner.Turn.{AppendsFront};

use crate::write::write_all;
use itoa::Buffer;
use wi_devices::{DeviceFault, Sink};
use wi_values::Address;

/// Writes the text of an address. Takes no memory.
pub(crate) fn write_address<W: Sink>(writer: &mut W, at: Address) -> Result<(), DeviceFault>
    requires { W.has_failed writer.old ≡ false }
    ensures ok { OnOk result
        (Appends (W.contents writer.old) (W.contents writer.new) (address_text at)) }
    ensures err { OnErr result
        (AppendsFront (W.contents writer.old) (W.contents writer.new) (address_text at)) }
    ensures failed { W.has_failed writer.new ≡ is_err result }
{
    write_letters(writer, 3, at.column() + 1)?;
    let mut buffer = Buffer::new();
    write_all(writer, buffer.format(at.row() + 1).as_bytes())
}

/// Whether no letter is left of a number, or none may be written.
fn is_written(most: u32, number: u32) -> bool
    ensures { result ≡ (most == 0 || number == 0) }
{
    most == 0 || number == 0
}

/// Writes the letters of the column with this number, counted from 1, at most so many.
fn write_letters<W: Sink>(writer: &mut W, most: u32, number: u32) -> Result<(), DeviceFault>
    requires { W.has_failed writer.old ≡ false }
    ensures ok { OnOk result
        (Appends (W.contents writer.old) (W.contents writer.new) (letters_within most number)) }
    ensures err { OnErr result (AppendsFront (W.contents writer.old)
        (W.contents writer.new) (letters_within most number)) }
    ensures failed { W.has_failed writer.new ≡ is_err result }
{
    if is_written(most, number) {
        return Ok(());
    }
    write_letters(writer, most - 1, (number - 1) / 26)?;
    let last = ((number - 1) % 26) as u8;
    write_all(writer, &[b'A' + last])
}
