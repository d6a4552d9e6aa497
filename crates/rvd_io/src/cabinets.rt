ghost use Rattle.std.specs.Prelude.{◌≡◌, ◌≤◌, ℕ, List, Option, Some, Result, Vec, IfOk, IsErrOf, vec_len};
ghost use Rattle.std.specs.declared.alloc.Global.{Global as GlobalType};
ghost use Rattle.rvd_io.specs.declared.cabinets.FetchError.{FetchError as FetchAnswer};
ghost use Rattle.rvd_io.specs.Causes.{Rose};
ghost use Rattle.rvd_io.specs.Outside.{Fetches};

use std::alloc::Global;

/// Why a fetch gives no bytes.
#[derive(Clone, Copy, Debug, PartialEq, Eq)]
pub enum FetchError {
    /// A fault of reading. The count of faults rose.
    Failed,
    /// The file has more bytes than the limit.
    TooLong,
    /// There was no memory.
    OutOfMemory,
}

/// Where files come from, by their names.
pub trait Cabinet {
    /// The bytes of the file of a name, where the cabinet tells them. No call changes them.
    ghost held: { Self → List ℕ → Option (List ℕ) };

    /// How many calls have failed. The count never falls.
    ghost faults: { Self → ℕ };

    /// What one fetch may do: the cabinet before it, the name and the limit, its answer, and the cabinet after it. By this a
    /// caller says which fetches it made, and in which order.
    ghost fetched: { Self → List ℕ → ℕ → Result (Vec ℕ GlobalType) FetchAnswer → Self → Type 0 } = { λ _ _ _ _ _. Unit {0} };

    /// The bytes of the file of this name, where there are at most `limit`. It answers `Failed` only
    /// where the count of faults rose in this call, `TooLong` exactly where more than `limit` bytes
    /// are held (faults and want of memory aside), and `OutOfMemory` freely.
    fn fetch(&mut self, alloc: Global, name: &str, limit: u64) -> Result<Vec<u8>, FetchError>
        ensures step { fetched self.old name.now limit result self.new }
        ensures held { held self.new ≡ held self.old }
        ensures bytes { (bytes : List ℕ) → held self.old name.now ≡ Some bytes → Fetches bytes limit result }
        ensures within { IfOk result (λ got. vec_len got ≤ limit) }
        ensures later { faults self.old ≤ faults self.new }
        ensures failed { IsErrOf result FetchError.Failed → Rose (faults self.old) (faults self.new) };
}
