ghost use Rattle.rvd_line_reading.specs.Laws.{EventLaw, FrontLaw, LineLaw, ReplyLaw};

/// What is printed of a reply, an event and an entry is read back.
pub fn reading_law()
    ensures replies { ReplyLaw }
    ensures events { EventLaw }
    ensures lines { LineLaw }
{}

/// Two lines at the front of one text are alike: head lines of the same names, lines of entries that differ in no more than the
/// bytes of blocks. An `end` line is no entry's.
pub fn front_law()
    ensures { FrontLaw }
{}
