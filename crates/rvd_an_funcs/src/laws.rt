ghost use Rattle.rvd_ask.specs.Fitting.{FittingLaw};
ghost use Rattle.rvd_ask.specs.Wake.{WakeLaw};
ghost use Rattle.rvd_an_funcs.specs.Laws.{SettlingLaw};

use rvd_ask::Analyzer;

/// A law of the definitions: where calls to an address found no new function before a change, and find one after it, the
/// change wakes the analyzer of functions at the address.
pub fn funcs_wake_law()
    ensures { WakeLaw Analyzer.Funcs }
{}

/// A law of the definitions: the change of the rule of functions may be applied to the valid program that it is found on.
pub fn funcs_fit()
    ensures { FittingLaw Analyzer.Funcs }
{}

/// A law of the definitions: where the body of a function was that of its reach before a change, or not for an analyzer to
/// set, and is neither after it, the change wakes the analyzer of bodies at the function's entry.
pub fn body_wake_law()
    ensures { WakeLaw Analyzer.Body }
{}

/// A law of the definitions: the change of the rule of bodies may be applied to the valid program that it is found on. So the
/// bytes of a reach are a set of ranges.
pub fn body_fit()
    ensures { FittingLaw Analyzer.Body }
{}

/// A law of the definitions: after the change of the rule of bodies at an entry, the rule has no change there.
pub fn body_settled()
    ensures { SettlingLaw Analyzer.Body }
{}
