ghost use Rattle.std.specs.Prelude.{◌≤◌, ℕ, List, Option, OnErr};
ghost use Rattle.rvd_io.specs.Causes.{Rose};
ghost use Rattle.rvd_io.specs.Outside.{Puts};

/// Why a put fails.
#[derive(Clone, Copy, Debug, PartialEq, Eq)]
pub enum PutError {
    /// A fault of writing. The count of faults rose.
    Failed,
}

/// Where text goes.
pub trait Sink {
    /// The bytes that it holds, where it tells them.
    ghost contents: { Self → Option (List ℕ) };

    /// How many calls have failed. The count never falls.
    ghost faults: { Self → ℕ };

    /// Appends the piece. It answers `Failed` only where the count of faults rose in this call, and then
    /// a front of the piece was appended.
    fn put(&mut self, piece: &[u8]) -> Result<(), PutError>
        ensures bytes { Puts (contents self.old) (contents self.new) piece.now result }
        ensures later { faults self.old ≤ faults self.new }
        ensures failed { OnErr result (Rose (faults self.old) (faults self.new)) };
}
