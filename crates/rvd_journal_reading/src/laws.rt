ghost use Rattle.rvd_journal_reading.specs.Laws.{RefusalLaw, VerdictLaw};

/// What is printed of a verdict and of a refusal is read back.
pub fn reading_law()
    ensures verdicts { VerdictLaw }
    ensures refusals { RefusalLaw }
{}
