ghost use Rattle.std.specs.Prelude.{◌≡◌, ◌≤◌, None, IfOk, IfSome, vec_len};
ghost use Rattle.rvd_io.specs.Causes.{Rose};
ghost use Rattle.rvd_io.specs.Outside.{Fetches};

use crate::cabinets::{Cabinet, FetchError};
use std::alloc::Global;
use std::fs::File;
use std::io;
use std::io::{ErrorKind, Read};
use std::rt::Files;

/// The files of the system, by their paths. It tells nothing of what they hold.
#[derive(Drop)]
pub struct FileCabinet<'a, R> {
    files: &'a R,
    faults: u64,
}

impl<'a, R: Files> FileCabinet<'a, R> {
    /// A cabinet that has seen no fault.
    pub fn new(files: &'a R) -> FileCabinet<'a, R>
        ensures { ⟦<FileCabinet<'a, R> as Cabinet>⟧.faults result ≡ 0 }
    {
        FileCabinet { files, faults: 0 }
    }
}

// Reads to the end of a file, in buffers of 4,096 bytes. It is TooLong as soon as the limit is passed.
fn read_whole<F: Read>(alloc: Global, file: &mut F, limit: u64) -> Result<Vec<u8>, FetchError>
    ensures within { IfOk result (λ got. vec_len got ≤ limit) }

    // Where the reader tells what it has left.
    ensures told { IfSome (F.remaining file.old) (λ left. Fetches left limit result) }
{
    let mut bytes = Vec::new(alloc);
    let mut buf = [0u8; 4096];
    for _ in 0..u64::MAX {
        match file.read(&mut buf) {
            Ok(0) => return Ok(bytes),
            Ok(n) => {
                let room = limit - bytes.len() as u64;
                if n as u64 > room {
                    return Err(FetchError::TooLong);
                }
                if bytes.extend_from_slice(&buf[..n]).is_err() {
                    return Err(FetchError::OutOfMemory);
                }
            }
            Err(e) => {
                if e.kind() != ErrorKind::Interrupted {
                    return Err(FetchError::Failed);
                }
            }
        }
    }
    Err(FetchError::Failed)
}

impl<'a, R: Files> Cabinet for FileCabinet<'a, R> {
    ghost held = { λ _ _. None };

    ghost faults = { λ s. s.faults };

    fn fetch(&mut self, alloc: Global, name: &str, limit: u64) -> Result<Vec<u8>, FetchError> {
        let result = match File::open(self.files, name) {
            Ok(mut file) => read_whole(alloc, &mut file, limit),
            Err(_) => Err(FetchError::Failed),
        };
        if let Err(FetchError::Failed) = &result {
            self.faults = self.faults.saturating_add(1);
        }
        result
    }
}
