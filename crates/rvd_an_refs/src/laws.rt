ghost use Rattle.rvd_ask.specs.Fitting.{FittingLaw};
ghost use Rattle.rvd_ask.specs.Wake.{WakeLaw};

use rvd_ask::{Analyzer, candidate_law};

/// A law of the definitions: where an instruction lacked no reference before a change, and lacks one after it, the change
/// wakes the analyzer of references at it.
pub fn wake_law()
    ensures { WakeLaw Analyzer.Refs }
{
    candidate_law();
}

/// A law of the definitions: the changes of the rule of references may be applied to the valid program that they are
/// found on, one after another.
pub fn refs_fit()
    ensures { FittingLaw Analyzer.Refs }
{}
