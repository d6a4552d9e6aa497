ghost use Rattle.std.specs.Prelude.{◌≡◌, Some};
ghost use Rattle.rvd_decode.specs.Table.{instruction};
ghost use Rattle.rvd_decode.specs.Flow.{is_unconditional, calls, jumps, falls_through, target};

use crate::decoding::decode;
use crate::insn::{Insn, Op};

impl Insn {
    /// Whether this is a call: JAL or JALR with a destination other than x0.
    pub fn is_call(&self) -> bool
        ensures { result ≡ calls (Some self.now) }
    {
        matches!(self.op, Op::Jal | Op::Jalr) && self.rd != 0
    }

    /// Whether this is a jump and no call: JAL or JALR with the destination x0.
    pub fn is_jump(&self) -> bool
        ensures { result ≡ jumps (Some self.now) }
    {
        matches!(self.op, Op::Jal | Op::Jalr) && self.rd == 0
    }

    /// The address that this leads to where it is JAL or a branch that stands at the address `at`:
    /// `at` plus the immediate, modulo 2^32.
    pub fn target(&self, at: u32) -> u32
        ensures { result ≡ target at self.now }
    {
        at.wrapping_add(self.imm.cast_unsigned())
    }
}

/// Whether a word is a call.
pub fn is_call(word: u32) -> bool
    ensures { result ≡ calls (instruction word) }
{
    decode(word).is_some_and(|insn| insn.is_call())
}

/// Whether a word is a jump and no call.
pub fn is_jump(word: u32) -> bool
    ensures { result ≡ jumps (instruction word) }
{
    decode(word).is_some_and(|insn| insn.is_jump())
}

/// Whether the word after this one is reached from it: so for all but jumps, also for a word that
/// is no instruction.
pub fn falls_through(word: u32) -> bool
    ensures { result ≡ falls_through (instruction word) }
{
    !is_jump(word)
}
