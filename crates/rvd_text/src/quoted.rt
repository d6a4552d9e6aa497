ghost use Rattle.std.specs.Prelude.{◌≡◌, ◌++◌, OnOk, OnErr, length, take};
ghost use Rattle.rvd_text.specs.Quoted.{spelled, quoted};

use crate::hex::digit;
use std::alloc::AllocError;

// Appends the canonical spelling of a byte.
fn push_spelled(out: &mut Vec<u8>, byte: u8) -> Result<(), AllocError>
    ensures ok { OnOk result (out.new.items ≡ out.old.items ++ spelled byte) }
    ensures err { OnErr result (out.new.items ≡ out.old.items) }
{
    match byte {
        b'"' => out.extend_from_slice(b"\\\""),
        b'\\' => out.extend_from_slice(b"\\\\"),
        b'\n' => out.extend_from_slice(b"\\n"),
        b'\t' => out.extend_from_slice(b"\\t"),
        0x20..=0x7e => Ok(out.push(byte)?),
        _ => {
            let high = digit(u32::from(byte) / 16);
            let low = digit(u32::from(byte) % 16);
            out.extend_from_slice(&[b'\\', b'x', high, low])
        }
    }
}

// Appends the canonical spelling of a text, or some of it where memory is wanting.
fn append_quoted(out: &mut Vec<u8>, text: &[u8]) -> Result<(), AllocError>
    ensures ok { OnOk result (out.new.items ≡ out.old.items ++ quoted text.now) }
    ensures err { OnErr result (take (length out.old.items) out.new.items ≡ out.old.items) }
{
    out.push(b'"')?;
    for byte in text {
        push_spelled(out, *byte)?;
    }
    out.push(b'"')?;
    Ok(())
}

/// Appends the canonical quoted spelling of a text. Only want of memory refuses it, and then `out` is as before.
pub fn push_quoted(out: &mut Vec<u8>, text: &[u8]) -> Result<(), AllocError>
    ensures ok { OnOk result (out.new.items ≡ out.old.items ++ quoted text.now) }
    ensures err { OnErr result (out.new.items ≡ out.old.items) }
{
    let before = out.len();
    match append_quoted(out, text) {
        Ok(()) => Ok(()),
        Err(error) => {
            out.truncate(before);
            Err(error)
        }
    }
}
