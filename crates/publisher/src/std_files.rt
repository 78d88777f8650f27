//! The real files. That they keep std's contracts is trusted.
ghost use Rattle.std.specs.Prelude.{◌≡◌, ◌≤◌, None, IfOk, length};

use crate::files::{Files, LoadStep, MAX_FILE};
use px_base::{ReadFault, StdSource, read_all};
use std::alloc::Global;
use std::fs;

/// The files of the system. It tells nothing of its loads.
#[derive(Drop)]
pub struct StdFiles<R: fs::Files> {
    rt: R,
    alloc: Global,
    faults: u64,
}

impl<R: fs::Files> StdFiles<R> {
    pub fn new(rt: R, alloc: Global) -> StdFiles<R>
        ensures { result ≡ record { rt = rt; alloc = alloc; faults = 0 } }
    {
        StdFiles {
            rt,
            alloc,
            faults: 0,
        }
    }
}

impl<R: fs::Files> Files for StdFiles<R> {
    ghost loads = { λ s. None };

    ghost faults = { λ s. s.faults };

    fn load(&mut self, path: &[u8], out: &mut Vec<u8>) -> LoadStep {
        out.clear();
        match load_file(&self.rt, self.alloc, path) {
            Ok(bytes) => {
                *out = bytes;
                LoadStep::Done
            }
            Err(ReadFault::TooLong) => LoadStep::TooLong,
            Err(ReadFault::Memory) => LoadStep::Memory,
            Err(ReadFault::Failed) => {
                self.faults = self.faults.saturating_add(1);
                LoadStep::Failed
            }
        }
    }
}

// The bytes of a file. One that can't be opened has failed.
fn load_file<R: fs::Files>(rt: &R, alloc: Global, path: &[u8]) -> Result<Vec<u8>, ReadFault>
    ensures { IfOk result (λ bytes. length bytes.items ≤ 1048576) }
{
    let Ok(path) = str::from_utf8(path) else {
        return Err(ReadFault::Failed);
    };
    match fs::open(rt, path) {
        Ok(file) => read_all(alloc, &mut StdSource::new(file), MAX_FILE),
        Err(_) => Err(ReadFault::Failed),
    }
}
