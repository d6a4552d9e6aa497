ghost use Rattle.rvd_edit.specs.Laws.{FirstMetLaw, FitsLaw, NoAnalysisLaw};

/// The changes of an edit whose parts are in their ranges fit a valid program: each finds the cell that it
/// says at its turn, and leaves a valid program. A law, and no work.
pub fn edits_fit()
    ensures { FitsLaw }
{}

/// What an edit sets is an analyst's, so that no edit sets what analysis would. A law, and no work.
pub fn edits_set_no_analysis()
    ensures { NoAnalysisLaw }
{}

/// The unit that an overlap names is the first that the bytes of the new one meet, the lowest byte first, and
/// there is no overlap exactly where no byte is a unit's. A law, and no work.
pub fn overlap_is_first_met()
    ensures { FirstMetLaw }
{}
