ghost use Rattle.std.specs.Prelude.{◌≡◌, ◌<◌, ◌+◌, ◌^◌, ◌≤◌, true, None, IfOk, OnOk};
ghost use Rattle.rvd_emul.specs.declared.classes.Class.{Class};
ghost use Rattle.rvd_emul.specs.Effects.{address, effect, effect_of, first, loaded, passed, second, width, writes};
ghost use Rattle.rvd_emul.specs.Machine.{IsLike, lies_in, start};
ghost use Rattle.rvd_emul.specs.Run.{refusal};

use crate::classes::{Class, class_of};
use crate::operations::{computed, is_taken, jump_target, upper, width};
use crate::reading::loaded;
use crate::registers::Registers;
use crate::stored::{StoredByte, store};
use rvd_decode::Insn;
use rvd_fact::Addr;
use rvd_program::Program;
use rvd_table::Table;
use std::alloc::{AllocError, Global};
use std::marker::Model;

/// The state of a machine. Contracts see it with the bytes stored as a list; the list that is kept has each address once.
#[derive(Drop)]
pub struct Machine {
    pub pc: Addr,
    pub regs: Registers,
    pub stored: Table<Addr, StoredByte>,
}

impl Model for Machine {
    ghost use Rattle.rvd_emul.specs.Machine.{Machine};

    ghost Value = { Machine };

    ghost view = { λ m. record { pc = m.pc; regs = m.regs; stored = m.stored } };
}

impl Machine {
    /// The machine before its first step.
    pub fn new(alloc: Global, at: Addr) -> Result<Machine, AllocError>
        ensures { IfOk result (λ m. m ≡ start at) }
    {
        Ok(Machine {
            pc: at,
            regs: Registers::new(),
            stored: Table::new(alloc)?,
        })
    }

    /// The program counter.
    pub fn pc(&self) -> Addr
        ensures { result ≡ self.now.pc }
    {
        self.pc
    }

    // The value of the first source register.
    fn first(&self, insn: &Insn) -> u32
        ensures { result ≡ first self.now insn.now }
    {
        self.regs.value(insn.rs1)
    }

    // The value of the second source register.
    fn second(&self, insn: &Insn) -> u32
        ensures { result ≡ second self.now insn.now }
    {
        self.regs.value(insn.rs2)
    }

    /// The address of a load or a store.
    pub fn address(&self, insn: &Insn) -> Addr
        ensures { result ≡ address self.now insn.now }
    {
        self.first(insn).wrapping_add(insn.imm.cast_unsigned())
    }

    // Goes on to the next instruction.
    fn pass(&mut self)
        ensures { self.new ≡ passed self.old }
    {
        self.pc = self.pc.wrapping_add(4);
    }

    // Writes a register, and goes on.
    fn write(&mut self, insn: &Insn, value: u32)
        ensures { self.new ≡ writes self.old insn.now value }
    {
        self.regs.write(insn.rd, value);
        self.pass();
    }

    // LUI and AUIPC.
    fn set_upper(&mut self, insn: &Insn)
        ensures { self.new ≡ effect_of self.old insn.now Class.Upper 0 }
    {
        let value = upper(insn.op, self.pc, insn.imm.cast_unsigned());
        self.write(insn, value);
    }

    // An integer operation on a register and the immediate.
    fn compute_immediate(&mut self, insn: &Insn)
        ensures { self.new ≡ effect_of self.old insn.now Class.Immediate 0 }
    {
        let value = computed(insn.op, self.first(insn), insn.imm.cast_unsigned());
        self.write(insn, value);
    }

    // An integer operation on two registers.
    fn compute(&mut self, insn: &Insn)
        ensures { self.new ≡ effect_of self.old insn.now Class.Register 0 }
    {
        let value = computed(insn.op, self.first(insn), self.second(insn));
        self.write(insn, value);
    }

    // Jumps, and keeps the address of the next instruction in a register.
    fn jump(&mut self, insn: &Insn)
        ensures { self.new ≡ effect_of self.old insn.now Class.Jump 0 }
    {
        let base = self.first(insn);
        let target = jump_target(insn.op, self.pc, base, insn.imm.cast_unsigned());
        self.regs.write(insn.rd, self.pc.wrapping_add(4));
        self.pc = target;
    }

    // Goes to the target of a branch where it is taken, and else to the next instruction.
    fn branch(&mut self, insn: &Insn)
        ensures { self.new ≡ effect_of self.old insn.now Class.Branch 0 }
    {
        let taken = is_taken(insn.op, self.first(insn), self.second(insn));
        let offset = if taken { insn.imm.cast_unsigned() } else { 4 };
        self.pc = self.pc.wrapping_add(offset);
    }

    // Loads into a register.
    fn load(&mut self, program: &Program, insn: &Insn)
        requires { lies_in program.now (address self.old insn.now) (width insn.now.op) ≡ true }
        ensures { let value = loaded program.now self.old.stored insn.now.op (address self.old insn.now) in
            self.new ≡ effect_of self.old insn.now Class.Load value }
    {
        let value = loaded(program, &self.stored, insn.op, self.address(insn));
        self.write(insn, value);
    }

    // Stores the low bytes of the second source register.
    fn store(&mut self, insn: &Insn) -> Result<(), AllocError>
        requires { address self.old insn.now + width insn.now.op ≤ 2 ^ 32 }
        ensures { OnOk result (IsLike (effect_of self.old insn.now Class.Store 0) self.new) }
    {
        let at = self.address(insn);
        let bytes = self.second(insn).to_le_bytes();
        store(&mut self.stored, at, &bytes[..width(insn.op) as usize])?;
        self.pass();
        Ok(())
    }

    /// Does what an instruction says that nothing refuses.
    pub fn execute(&mut self, program: &Program, insn: &Insn) -> Result<(), AllocError>
        requires { refusal program.now self.old insn.now ≡ None }
        ensures { OnOk result (IsLike (effect program.now self.old insn.now) self.new) }
    {
        match class_of(insn) {
            Class::Upper => self.set_upper(insn),
            Class::Jump => self.jump(insn),
            Class::Branch => self.branch(insn),
            Class::Load => self.load(program, insn),
            Class::Store => return self.store(insn),
            Class::Immediate => self.compute_immediate(insn),
            Class::Register => self.compute(insn),
            Class::MemoryOrdering => self.pass(),
            Class::Environment => {}
        }
        Ok(())
    }
}
