ghost use Rattle.std.specs.Prelude.{◌≡◌, ◌≤◌, ℕ, List, [], Some, IfOk, IsErrOf, true, map, unwrap_or, vec_len};
ghost use Rattle.std.specs.Option.{option_map};
ghost use Rattle.rvd_io.specs.Causes.{Rose};
ghost use Rattle.rvd_io.specs.Outside.{Fetches};
ghost use Rattle.rvd_io.specs.Memory.{after_call, fails_at, file_named, file_of};

use crate::cabinets::{Cabinet, FetchError};
use rvd_fact::Text;
use std::alloc::Global;
use std::marker::Model;

// The bytes of the first file of this name.
fn find_file<'a>(files: &'a [(Text, Vec<u8>)], name: &str) -> Option<&'a [u8]>
    ensures { option_map (λ bytes. bytes.now) result ≡ file_named (map file_of files.now) name.now }
{
    for (title, bytes) in files {
        if title.list() == name.as_bytes() {
            return Some(bytes.as_slice());
        }
    }
    None
}

// The bytes of the first file of this name, and none where there is no such file.
fn file_or_nothing<'a>(files: &'a [(Text, Vec<u8>)], name: &str) -> &'a [u8]
    ensures { result.now ≡ unwrap_or (file_named (map file_of files.now) name.now) [] }
{
    match find_file(files, name) {
        Some(bytes) => bytes,
        None => &[],
    }
}

// A copy of the bytes, where they are no more than the limit.
fn copy_within(alloc: Global, bytes: &[u8], limit: u64) -> Result<Vec<u8>, FetchError>
    ensures bytes { Fetches bytes.now limit result }
    ensures no_fault { IsErrOf result FetchError.Failed → ⊥ }
{
    if bytes.len() as u64 > limit {
        return Err(FetchError::TooLong);
    }
    match Vec::from_slice(alloc, bytes) {
        Ok(copied) => Ok(copied),
        Err(_) => Err(FetchError::OutOfMemory),
    }
}

/// Files in memory, some of whose fetches fail: those with the given numbers, and those of a name that it
/// lacks. It tells the bytes of its files.
#[derive(Drop)]
pub struct MemoryCabinet {
    files: Vec<(Text, Vec<u8>)>,
    failing: Vec<u64>,
    calls: u64,
    faults: u64,
}

impl Model for MemoryCabinet {
    ghost use Rattle.std.specs.Prelude.{map};
    ghost use Rattle.rvd_io.specs.Memory.{Shelf, file_of};

    ghost Value = { Shelf };

    ghost view = { λ a. record { files = map file_of a.files.items; failing = a.failing.items; calls = a.calls; faults = a.faults } };
}

impl MemoryCabinet {
    ghost use Rattle.rvd_io.specs.Memory.{file_of};

    /// A cabinet of these files (name, bytes). The calls with these numbers, from 1, fail.
    pub fn new(_alloc: Global, files: Vec<(Text, Vec<u8>)>, failing: Vec<u64>) -> MemoryCabinet
        ensures { result ≡ record { files = map file_of files.items; failing = failing.items; calls = 0; faults = 0 } }
    {
        MemoryCabinet {
            files,
            failing,
            calls: 0,
            faults: 0,
        }
    }
}

impl Cabinet for MemoryCabinet {
    ghost held = { λ s. file_named s.files };

    ghost faults = { λ s. s.faults };

    fn fetch(&mut self, alloc: Global, name: &str, limit: u64) -> Result<Vec<u8>, FetchError>
        ensures held { file_named self.new.files ≡ file_named self.old.files }
        ensures bytes { (bytes : List ℕ) → file_named self.old.files name.now ≡ Some bytes → Fetches bytes limit result }
        ensures within { IfOk result (λ got. vec_len got ≤ limit) }
        ensures later { self.old.faults ≤ self.new.faults }
        ensures failed { IsErrOf result FetchError.Failed → Rose self.old.faults self.new.faults }

        // Which calls fail, and what each call leaves.
        ensures fails { fails_at self.old name.now ≡ true → IsErrOf result FetchError.Failed }
        ensures only { IsErrOf result FetchError.Failed → fails_at self.old name.now ≡ true }
        ensures after { self.new ≡ after_call self.old name.now }
    {
        self.calls = self.calls.saturating_add(1);
        if !self.failing.contains(&self.calls)
            && let Some(bytes) = find_file(&self.files, name)
        {
            return copy_within(alloc, bytes, limit);
        }
        self.faults = self.faults.saturating_add(1);
        Err(FetchError::Failed)
    }
}

/// Files in memory that no fetch fails on. A name that it lacks holds no bytes, and its count of faults is
/// always 0.
#[derive(Drop)]
pub struct SteadyCabinet {
    files: Vec<(Text, Vec<u8>)>,
}

impl Model for SteadyCabinet {
    ghost use Rattle.std.specs.Prelude.{List, ℕ, map};
    ghost use Rattle.rvd_io.specs.Memory.{file_of};

    ghost Value = { List (List ℕ × List ℕ) };

    ghost view = { λ a. map file_of a.files.items };
}

impl SteadyCabinet {
    /// A cabinet of these files (name, bytes).
    pub fn new(_alloc: Global, files: Vec<(Text, Vec<u8>)>) -> SteadyCabinet
        ensures { result ≡ map file_of files.items }
    {
        SteadyCabinet { files }
    }
}

impl Cabinet for SteadyCabinet {
    ghost held = { λ s name. Some (unwrap_or (file_named s name) []) };

    ghost faults = { λ _. 0 };

    fn fetch(&mut self, alloc: Global, name: &str, limit: u64) -> Result<Vec<u8>, FetchError> {
        copy_within(alloc, file_or_nothing(&self.files, name), limit)
    }
}
