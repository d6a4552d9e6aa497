ghost use Rattle.rvd_ask.specs.Fitting.{FittingLaw};
ghost use Rattle.rvd_ask.specs.Wake.{WakeLaw};

use rvd_ask::Analyzer;

/// A law of the definitions: the changes of flow fit a valid program, each unit of a run in turn.
pub fn flow_fit()
    ensures { FittingLaw Analyzer.Flow }
{}

/// A law of the definitions: where flow at an address has nothing to change, and a change doesn't wake it, it has nothing to
/// change after that change.
pub fn wake_law()
    ensures { WakeLaw Analyzer.Flow }
{}
