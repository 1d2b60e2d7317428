//! A record as a text: its fields in double quotes with commas between, ended by CR LF.

ghost use Rattle.std.specs.Prelude.{◌≡◌, ◌++◌, map, OnOk, OnErr};
ghost use Rattle.std.specs.Io.{StartsWith};
ghost use Rattle.wi_lexer.specs.Quoted.{doubled, quoted};
ghost use Rattle.wi_csv.specs.Row.{row};

use std::alloc::AllocError;
use std::convert::AsSlice;

/// Appends the record of these fields. On an error the bytes are as before.
pub fn push_record<F: AsSlice<u8>>(fields: &[F], out: &mut Vec<u8>) -> Result<(), AllocError>
    ensures ok { OnOk result (out.new.items ≡ out.old.items ++ row (map F.items fields.now)) }
    ensures err { OnErr result (out.new.items ≡ out.old.items) }
{
    let before = out.len();
    let pushed = push_all(fields, out);
    if pushed.is_err() {
        out.truncate(before);
    }
    pushed
}

/// Appends the record of these fields. On an error a part of it may be there.
fn push_all<F: AsSlice<u8>>(fields: &[F], out: &mut Vec<u8>) -> Result<(), AllocError>
    ensures ok { OnOk result (out.new.items ≡ out.old.items ++ row (map F.items fields.now)) }
    ensures kept { StartsWith out.new.items out.old.items }
{
    let mut separator: &[u8] = b"";
    for field in fields {
        push_field(separator, field.as_slice(), out)?;
        separator = b",";
    }
    out.extend_from_slice(b"\r\n")
}

/// Appends a separator and a field in double quotes. On an error a part of them may be there.
fn push_field(separator: &[u8], field: &[u8], out: &mut Vec<u8>) -> Result<(), AllocError>
    ensures ok { OnOk result (out.new.items ≡ out.old.items ++ separator.now ++ quoted field.now) }
    ensures kept { StartsWith out.new.items out.old.items }
{
    out.extend_from_slice(separator)?;
    out.push(b'"')?;
    for byte in field {
        push_doubled(*byte, out)?;
    }
    out.push(b'"')?;
    Ok(())
}

/// Appends a byte of a field, twice where it is a quote.
fn push_doubled(byte: u8, out: &mut Vec<u8>) -> Result<(), AllocError>
    ensures ok { OnOk result (out.new.items ≡ out.old.items ++ doubled byte) }
    ensures kept { StartsWith out.new.items out.old.items }
{
    if byte == b'"' {
        out.extend_from_slice(b"\"\"")
    } else {
        out.push(byte)?;
        Ok(())
    }
}
