ghost use Rattle.std.specs.Prelude.{◌≡◌};
ghost use Rattle.rvd_decode.specs.Table.{instruction};

use crate::decoding::read_as;
use crate::insn::Insn;
use crate::table::walk;

/// Decodes a word by going through the rows of the table, as the definition does: the program to
/// compare `decode` with.
pub fn decode(word: u32) -> Option<Insn>
    ensures { result ≡ instruction word }
{
    walk(word).map(|op| read_as(word, op))
}
