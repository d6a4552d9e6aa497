ghost use Rattle.rvd_listing.specs.Lookups.{NextUnitLaw};
ghost use Rattle.rvd_listing.specs.Names.{PrimaryLaw};

/// The primary name is that of a symbol at the address of the highest source, the lowest slot among these,
/// and there is none exactly where the address has no symbol.
pub fn primary_law()
    ensures { PrimaryLaw }
{}

/// In a valid program the next unit above an address begins above it, with none between, and there is none exactly
/// where no unit begins above.
pub fn next_unit_law()
    ensures { NextUnitLaw }
{}
