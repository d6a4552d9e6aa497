ghost use Rattle.std.specs.Prelude.{◌≡◌, ◌++◌, OnOk};
ghost use Rattle.rvd_gen.specs.Bytes.{halves, words};

use std::alloc::AllocError;

/// Appends numbers of sixteen bits, the low byte of each first.
pub fn push_halves(out: &mut Vec<u8>, values: &[u16]) -> Result<(), AllocError>
    ensures { OnOk result (out.new.items ≡ out.old.items ++ halves values.now) }
{
    for half in values {
        out.extend_from_slice(&half.to_le_bytes())?;
    }
    Ok(())
}

/// Appends numbers of thirty-two bits, the low byte of each first.
pub fn push_words(out: &mut Vec<u8>, values: &[u32]) -> Result<(), AllocError>
    ensures { OnOk result (out.new.items ≡ out.old.items ++ words values.now) }
{
    for word in values {
        out.extend_from_slice(&word.to_le_bytes())?;
    }
    Ok(())
}
