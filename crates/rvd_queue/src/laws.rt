ghost use Rattle.rvd_queue.specs.Sets.{SetLaw};

/// A law of the definitions: which items a set has after others are added or taken away, that the rest follows its least
/// items, and that it is told by its members.
pub fn set_law()
    ensures { SetLaw }
{}
