ghost use Rattle.rvd_text.specs.Decimal.{DecimalLaw};
ghost use Rattle.rvd_text.specs.Hex.{HexLaw};
ghost use Rattle.rvd_text.specs.Quoted.{QuotedLaw};

/// What a quoted text is, that reading gives back what was printed, and that nothing else is printed alike.
pub fn text_law()
    ensures decimal { DecimalLaw }
    ensures hexadecimal { HexLaw }
    ensures quoted { QuotedLaw }
{}
