ghost use Rattle.std.specs.Prelude.{◌≡◌, IfOk};
ghost use Rattle.rvd_event.specs.Verdicts.{has_forms};

use rvd_ask::{Answer, Ask};
use std::alloc::{AllocError, Global};
use std::marker::Model;

/// What became of one item of a job.
#[derive(Debug, Drop)]
pub enum Verdict {
    /// Its changes were applied; how many they are.
    Joined(u32),
    /// It proposed no change.
    Nothing,
    /// Its analyzer is disabled.
    Off,
    /// The program has changed under it: an ask, its answer when the job was taken, and now.
    Stale { ask: Ask, was: Answer, now: Answer },
    /// The proposal wasn't made of the job's program: an ask, the proposal's answer, and the
    /// job's.
    Foreign { ask: Ask, said: Answer, was: Answer },
}

impl Verdict {
    /// An equal verdict.
    pub fn copy(&self) -> Result<Verdict, AllocError>
        ensures { IfOk result (λ copy. copy ≡ self.now) }
    {
        match self {
            Verdict::Joined(changes) => Ok(Verdict::Joined(*changes)),
            Verdict::Nothing => Ok(Verdict::Nothing),
            Verdict::Off => Ok(Verdict::Off),
            Verdict::Stale { ask, was, now } => Ok(Verdict::Stale {
                ask: *ask,
                was: was.copy()?,
                now: now.copy()?,
            }),
            Verdict::Foreign { ask, said, was } => Ok(Verdict::Foreign {
                ask: *ask,
                said: said.copy()?,
                was: was.copy()?,
            }),
        }
    }

    /// Whether each of its answers has the form of its ask.
    pub fn has_forms(&self) -> bool
        ensures { result ≡ has_forms self.now }
    {
        match self {
            Verdict::Stale { ask, was, now } => was.has_form(ask) && now.has_form(ask),
            Verdict::Foreign { ask, said, was } => said.has_form(ask) && was.has_form(ask),
            _ => true,
        }
    }
}

/// The verdicts on a job, one for each item.
#[derive(Debug, Drop)]
pub struct VerdictList {
    verdicts: Vec<Verdict>,
}

impl Model for VerdictList {
    ghost use Rattle.std.specs.Prelude.{List};
    ghost use Rattle.rvd_event.specs.declared.verdicts.Verdict.{Verdict};

    ghost Value = { List Verdict };

    ghost view = { λ list. list.verdicts.items };
}

impl VerdictList {
    /// These verdicts.
    pub fn of(_alloc: Global, list: Vec<Verdict>) -> Result<VerdictList, AllocError>
        ensures { IfOk result (λ verdicts. verdicts ≡ list.items) }
    {
        Ok(VerdictList { verdicts: list })
    }

    /// The verdicts in order.
    pub fn list(&self) -> &[Verdict]
        ensures { result.now ≡ self.now }
    {
        self.verdicts.as_slice()
    }

    /// An equal list.
    pub fn copy(&self) -> Result<VerdictList, AllocError>
        ensures { IfOk result (λ copy. copy ≡ self.now) }
    {
        let mut verdicts = Vec::with_capacity(*self.verdicts.allocator(), self.verdicts.len())?;
        for verdict in &self.verdicts {
            verdicts.push(verdict.copy()?)?;
        }
        Ok(VerdictList { verdicts })
    }
}
