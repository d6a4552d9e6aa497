ghost use Rattle.rvd_gen.specs.Laws.{SizeLaw, CodeLaw};

/// An image of n functions has 116 + 48 n bytes: a law, and no work.
pub fn size_law()
    ensures { SizeLaw }
{}

/// What the code of an image does, as a reader of its words finds it: a law, and no work.
pub fn code_law()
    ensures { CodeLaw }
{}
