ghost use Rattle.std.specs.Prelude.{◌≡◌, IfOk, IfErr};
ghost use Rattle.rvd_player.specs.Analysed.{AnalysisFails, IsAnalysed};

use rvd_ask::listing_law;
use rvd_desk::{Desk, DeskError};
use rvd_machine::journals_are_bounded;
use rvd_program::Program;
use rvd_settle::settle;
use std::alloc::Global;

/// How many items a job of a whole analysis has at most.
const BATCH: u32 = 64;

/// Analyses a program: session 1 asks for a whole analysis, and one worker settles it. No analyzer would change the committed
/// program of the desk. JournalFull comes only where the journal so far has no room for a begin; Refused and Stopped are
/// never given.
pub fn analyse(alloc: Global, program: Program) -> Result<Desk, DeskError>
    ensures ok { IfOk result (λ desk. IsAnalysed program desk) }
    ensures err { IfErr result (λ error. AnalysisFails program error) }
{
    journals_are_bounded();
    listing_law();
    let mut desk = Desk::new(alloc, program, 1, 1)?;
    let _ = desk.status();
    desk.full(alloc, 1)?;
    let _ = desk.status();
    let settled = settle(alloc, &mut desk, 2, BATCH);
    let _ = desk.status();
    settled?;
    Ok(desk)
}
