ghost use Rattle.std.specs.Prelude.{◌≡◌, IfOk};
ghost use Rattle.rvd_emul.specs.Machine.{start};
ghost use Rattle.rvd_emul.specs.Run.{after_steps, ended, run};

use crate::OutOfMemory;
use crate::ends::End;
use crate::machine::Machine;
use crate::steps::Step;
use crate::trace::Trace;
use rvd_fact::Addr;
use rvd_program::Program;
use std::alloc::Global;

// The trace of steps that an end stopped.
fn trace_of(done: Vec<(Addr, u32)>, end: End, machine: Machine) -> Trace
    ensures { result ≡ after_steps done.items (ended machine end) }
{
    let Machine { pc, regs, .. } = machine;
    Trace {
        done,
        end,
        pc,
        regs,
    }
}

/// Runs the code of a program from the address `at`, for `n` steps at the most: the trace is that of the machine's run, step
/// by step, with the one end that stops it. Only want of memory refuses it.
pub fn emulate(alloc: Global, program: &Program, at: Addr, n: u32) -> Result<Trace, OutOfMemory>
    ensures { IfOk result (λ trace. trace ≡ run program.now n (start at)) }
{
    let mut machine = Machine::new(alloc, at)?;
    let mut done = Vec::new(alloc);
    for step in 0..n {
        let pc = machine.pc();
        let stepped = machine.step(program)?;
        match stepped {
            Step::Done(word) => done.push((pc, word))?,
            Step::Ended(end) => return Ok(trace_of(done, end, machine)),
        }
    }
    Ok(trace_of(done, End::Budget, machine))
}
