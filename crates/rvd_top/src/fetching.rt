ghost use Rattle.std.specs.Prelude.{◌≡◌, ◌++◌, ◌+◌, ◌^◌, ◌<◌, [], ◌∷◌, ℕ, List, Vec, OnOk, IfOk, IfErr, length, map, string_bytes};
ghost use Rattle.std.specs.declared.alloc.Global.{Global as GlobalType};
ghost use Rattle.rvd_top.specs.Words.{source, sources};
ghost use Rattle.rvd_top.specs.Fetching.{Fetched, FetchedAll, NotFetched};

use crate::endings::Ending;
use crate::words::Command;
use rvd_fact::What;
use rvd_io::{Cabinet, FetchError};
use std::alloc::Global;

// The bytes of the file that a word names, where there are at most `limit`; else how a command ends without them: for want
// of memory, too large, or with a fault of reading where the count of faults rose.
fn fetch_word<C: Cabinet>(
    alloc: Global,
    files: &mut C,
    word: u32,
    name: &str,
    limit: u64,
) -> Result<Vec<u8>, Ending>
    ensures ok { IfOk result (λ got. Fetched C.held C.faults C.fetched (source word name.now limit) files.old files.new got) }
    ensures err { IfErr result (λ ending. NotFetched C.held C.faults C.fetched (source word name.now limit ∷ []) files.old files.new ending) }
{
    match files.fetch(alloc, name, limit) {
        Ok(bytes) => Ok(bytes),
        Err(FetchError::Failed) => Err(Ending::ReadFault { word }),
        Err(FetchError::TooLong) => Err(Ending::TooLarge {
            what: What::FileBytes,
            count: limit,
        }),
        Err(FetchError::OutOfMemory) => Err(Ending::Memory),
    }
}

/// Fetches the files that words name, in their order, up to the first that gives no bytes, and appends the bytes of each. The
/// first of the words stands at a place among the words of the command.
pub(crate) fn fetch_files<C: Cabinet>(
    alloc: Global,
    files: &mut C,
    command: Command,
    word: u32,
    names: &[String],
    lists: &mut Vec<Vec<u8>>,
) -> Result<(), Ending>
    requires { word + length names.now < 2 ^ 32 }
    ensures ok { OnOk result ((more : List (Vec ℕ GlobalType)) × (lists.new.items ≡ lists.old.items ++ more)
        × FetchedAll (C.held files.old) (sources command word (map string_bytes names.now)) (map (λ v. v.items) more)) }
    ensures err { IfErr result (λ ending. NotFetched C.held C.faults C.fetched (sources command word (map string_bytes names.now)) files.old files.new ending) }
{
    let Some((name, rest)) = names.split_first() else {
        return Ok(());
    };
    let bytes = fetch_word(alloc, files, word, name.as_str(), command.limit_at(word))?;
    if let Err(_) = lists.push(bytes) {
        return Err(Ending::Memory);
    }
    fetch_files(alloc, files, command, word + 1, rest, lists)
}
