ghost use Rattle.rvd_wake.specs.Laws.{AnalysisLaws};

use rvd_an_flow::flow_fit;
use rvd_an_funcs::{body_fit, body_settled, body_wake_law, funcs_fit, funcs_wake_law};
use rvd_an_refs::refs_fit;
use rvd_an_strings::strings_fit;
use rvd_ask::{candidate_law, listing_law, sparing_law};

/// The laws of the five analyzers as one: what a change may unsettle is woken, what is unsettled is a candidate, the changes
/// of each rule lead from valid program to valid program and spare what is protected, and those of a body's item settle it.
pub fn analysis_laws()
    ensures { AnalysisLaws }
{
    listing_law();
    candidate_law();
    sparing_law();
    flow_fit();
    refs_fit();
    funcs_fit();
    body_fit();
    strings_fit();
    rvd_an_flow::wake_law();
    rvd_an_refs::wake_law();
    funcs_wake_law();
    body_wake_law();
    rvd_an_strings::wake_law();
    body_settled();
}
