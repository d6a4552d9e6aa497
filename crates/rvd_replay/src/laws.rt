ghost use Rattle.rvd_replay.specs.Steps.{BareIsStep};

/// An entry that is a step is one without the bytes of blocks too, and leads to the same state.
#[tactic(auto, using(crate::proofs::BareSteps::bare_is_step))]
pub fn bare_entries_are_steps()
    ensures { BareIsStep }
{}
