ghost use Rattle.rvd_reading.specs.Laws.{CellLaw, FactLaw, NumberLaw, PlaceLaw, TextLaw, WordLaw};

/// What is printed is read back.
pub fn reading_law()
    ensures words { WordLaw }
    ensures numbers { NumberLaw }
    ensures texts { TextLaw }
    ensures facts { FactLaw }
    ensures places { PlaceLaw }
    ensures cells { CellLaw }
{}
