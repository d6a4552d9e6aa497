ghost use Rattle.rvd_ask.specs.Reach.{ReachLaw};
ghost use Rattle.rvd_ask.specs.Rules.{SparingLaw};
ghost use Rattle.rvd_ask.specs.Unsettled.{ListingLaw};
ghost use Rattle.rvd_ask.specs.Wake.{CandidateLaw};

use crate::asks::Analyzer;

/// A law of the definitions: the reach of an entry, which is computed in rounds, has just the ends of walks from it.
pub fn reach_law()
    ensures { ReachLaw }
{}

/// A law of the definitions: the list of the items that pass a test has each of them once, by priority and address, and
/// it is the only such list.
pub fn listing_law()
    ensures { ListingLaw }
{}

/// A law of the definitions: an item that is no candidate of its analyzer has no change.
pub fn candidate_law()
    ensures flow { CandidateLaw Analyzer.Flow }
    ensures refs { CandidateLaw Analyzer.Refs }
    ensures funcs { CandidateLaw Analyzer.Funcs }
    ensures body { CandidateLaw Analyzer.Body }
    ensures strings { CandidateLaw Analyzer.Strings }
{}

/// A law of the definitions: the changes of each rule set analyzers' cells alone, and leave each protected cell as it was.
pub fn sparing_law()
    ensures flow { SparingLaw Analyzer.Flow }
    ensures refs { SparingLaw Analyzer.Refs }
    ensures funcs { SparingLaw Analyzer.Funcs }
    ensures body { SparingLaw Analyzer.Body }
    ensures strings { SparingLaw Analyzer.Strings }
{}
