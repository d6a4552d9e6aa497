ghost use Rattle.rvd_ask.specs.Fitting.{FittingLaw};
ghost use Rattle.rvd_ask.specs.Wake.{WakeLaw};

use rvd_ask::Analyzer;

/// A law of the definitions: where no string was to be added at an address before a change, and one is after it, the
/// change wakes the analyzer of strings there.
pub fn wake_law()
    ensures { WakeLaw Analyzer.Strings }
{}

/// A law of the definitions: the string that the rule adds may be put into the valid program that it is found on.
pub fn strings_fit()
    ensures { FittingLaw Analyzer.Strings }
{}
