ghost use Rattle.std.specs.Prelude.{◌≡◌, length, slice_index};

use crate::ends::End;
use crate::registers::Registers;
use rvd_fact::Addr;
use std::marker::Model;

/// What a run did: its steps, why it ended, and the state at the end.
#[derive(Drop)]
pub struct Trace {
    pub(crate) done: Vec<(Addr, u32)>,
    pub(crate) end: End,
    pub(crate) pc: Addr,
    pub(crate) regs: Registers,
}

impl Model for Trace {
    ghost use Rattle.rvd_emul.specs.Run.{Run};

    ghost Value = { Run };

    ghost view = { λ t. record { done = t.done.items; end = t.end; pc = t.pc; regs = t.regs } };
}

impl Trace {
    /// The address and the word of each step, in order.
    pub fn done(&self) -> &[(Addr, u32)]
        ensures { result.now ≡ self.now.done }
    {
        self.done.as_slice()
    }

    /// Why the run ended.
    pub fn end(&self) -> &End
        ensures { result.now ≡ self.now.end }
    {
        &self.end
    }

    /// The program counter at the end.
    pub fn pc(&self) -> Addr
        ensures { result ≡ self.now.pc }
    {
        self.pc
    }

    /// The 32 registers at the end, of which the first is 0.
    pub fn regs(&self) -> &[u32]
        ensures value { result.now ≡ self.now.regs }
        ensures count { length result.now ≡ 32 }
        ensures zero { slice_index result.now 0 ≡ 0 }
    {
        self.regs.words()
    }
}
