ghost use Rattle.std.specs.Prelude.{◌≡◌, ◌<◌, Some, IfOk, IfErr};
ghost use Rattle.rvd_decode.specs.Table.{instruction};
ghost use Rattle.rvd_emul.specs.Run.{IsStep, access_cause, cause, denied, environment_end, fetched, refusal, word_cause};

use crate::classes::{Class, class_of};
use crate::ends::End;
use crate::machine::Machine;
use crate::memory::{Access, is_open};
use crate::operations::width;
use crate::reading::memory_word;
use rvd_decode::{Insn, Op, decode};
use rvd_fact::Addr;
use rvd_program::Program;
use std::alloc::AllocError;

/// What became of a step: it is done, with its word, or it ended the run.
#[derive(Clone, Copy, Debug, PartialEq, Eq)]
pub enum Step {
    Done(u32),
    Ended(End),
}

fn environment_end(op: Op) -> End
    ensures { result ≡ environment_end op }
{
    match op {
        Op::Ebreak => End::Ebreak,
        _ => End::Ecall,
    }
}

// An access that no block permits.
fn denied(access: Access, at: Addr) -> End
    ensures { result ≡ denied access at }
{
    match access {
        Access::Fetch => End::NoFetch,
        Access::Load => End::NoLoad(at),
        Access::Store => End::NoStore(at),
    }
}

// Why a load or a store ends the run.
fn access_cause(program: &Program, access: Access, at: Addr, len: u32) -> Option<End>
    requires { 0 < len }
    ensures { result ≡ access_cause program.now access at len }
{
    if at % len != 0 {
        return Some(End::Misaligned(at));
    }
    if !is_open(program, access, at, len) {
        return Some(denied(access, at));
    }
    None
}

impl Machine {
    // The word at the program counter.
    #[tactic(auto, unfolding(crate::specs::Run::cause))]
    fn fetch(&self, program: &Program) -> Result<u32, End>
        ensures word { IfOk result (λ w. w ≡ fetched program.now self.now) }
        ensures goes_on { IfOk result (λ w. cause program.now self.now ≡ word_cause program.now self.now w (instruction w)) }
        ensures err { IfErr result (λ e. cause program.now self.now ≡ Some e) }
    {
        if self.pc % 4 != 0 {
            return Err(End::MisalignedPc);
        }
        if !is_open(program, Access::Fetch, self.pc, 4) {
            return Err(denied(Access::Fetch, self.pc));
        }
        Ok(memory_word(program, &self.stored, self.pc))
    }

    // Why an instruction ends the run.
    #[tactic(auto, unfolding(crate::specs::Run::refusal))]
    fn refusal(&self, program: &Program, insn: &Insn) -> Option<End>
        ensures { result ≡ refusal program.now self.now insn.now }
    {
        match class_of(insn) {
            Class::Environment => Some(environment_end(insn.op)),
            Class::Load => {
                access_cause(program, Access::Load, self.address(insn), width(insn.op))
            }
            Class::Store => {
                access_cause(program, Access::Store, self.address(insn), width(insn.op))
            }
            _ => None,
        }
    }

    /// Does a step, where nothing ends the run.
    pub fn step(&mut self, program: &Program) -> Result<Step, AllocError>
        ensures { IfOk result (IsStep program.now self.old self.new) }
    {
        let word = match self.fetch(program) {
            Ok(word) => word,
            Err(end) => return Ok(Step::Ended(end)),
        };
        let Some(insn) = decode(word) else {
            return Ok(Step::Ended(End::Outside(word)));
        };
        match self.refusal(program, &insn) {
            Some(end) => Ok(Step::Ended(end)),
            None => {
                self.execute(program, &insn)?;
                Ok(Step::Done(word))
            }
        }
    }
}
