//! What proposes for jobs.
ghost use Rattle.std.specs.Prelude.{◌≡◌, ℕ, List, [], ◌∷◌, ◌++◌, ◌⊎◌, false, MatchResult, IfOk};
ghost use Rattle.rvd_wake.specs.Made.{AreMadeOn};

use rvd_ask::Proposal;
use rvd_desk::{Desk, Job, OutOfMemory};
use rvd_turn::Pass;
use rvd_wake::proposals_on;
use std::alloc::Global;

/// Makes the proposals for jobs, while its worker doesn't have the turn. Its tickets are those of the jobs that it proposed
/// for, in order.
pub trait Proposer {
    ghost tickets: { Self → List ℕ };

    /// One proposal for each item of a job, in order, made on the job's own program. The job's ticket joins the tickets; where
    /// there is no memory it may.
    fn propose(
        &mut self,
        alloc: Global,
        pass: &Pass<Desk>,
        job: &Job,
    ) -> Result<Vec<Proposal>, OutOfMemory>
        requires no_turn { pass.now.turn ≡ false }
        ensures made { IfOk result (λ proposals. AreMadeOn job.now.program job.now.items proposals.items) }
        ensures tickets { MatchResult result (λ _. tickets self.new ≡ tickets self.old ++ job.now.ticket ∷ []) (λ _. (tickets self.new ≡ tickets self.old) ⊎ (tickets self.new ≡ tickets self.old ++ job.now.ticket ∷ [])) };
}

/// Proposes by the analyzers' rules.
#[derive(Drop)]
pub struct RuleProposer {
    tickets: Vec<u64>,
}

impl RuleProposer {
    /// It has no tickets yet.
    pub fn new(alloc: Global) -> RuleProposer
        ensures { result.tickets.items ≡ [] }
    {
        RuleProposer {
            tickets: Vec::new(alloc),
        }
    }
}

impl Proposer for RuleProposer {
    ghost tickets = { λ p. p.tickets.items };

    fn propose(
        &mut self,
        alloc: Global,
        _pass: &Pass<Desk>,
        job: &Job,
    ) -> Result<Vec<Proposal>, OutOfMemory> {
        let proposals = proposals_on(alloc, job.items().list(), job.program())?;
        self.tickets.push(job.ticket())?;
        Ok(proposals)
    }
}
