//! The first load of the configuration file.
ghost use Rattle.std.specs.Prelude.{◌≡◌, ◌≢◌, IfOk, IfErr, OnErr, OnOk, Option, List, ℕ};
ghost use Rattle.px_base.specs.Bytes.{Rose};
ghost use Rattle.serve_cmd.specs.First.{IsFirstLoad};
ghost use Rattle.serve_cmd.specs.Stops.{IsLoadStop};

use publisher::{Files, LoadStep};
use px_base::Bytes;
use std::alloc::{AllocError, Global};

/// What the first load found.
#[derive(Debug, Drop)]
pub(crate) enum Found {
    /// No file is named.
    NoFile,
    /// The file has more than 1 MiB.
    TooLong,
    Text(Vec<u8>),
}

/// Why nothing is served.
#[derive(Clone, Copy, Debug, PartialEq, Eq)]
pub(crate) enum Stop {
    /// The file can't be loaded.
    Load,
    /// The output failed.
    Write,
    Memory,
}

impl From<AllocError> for Stop {
    ghost use Rattle.serve_cmd.specs.declared.loading.Stop.TheVariants.{Memory as WantsMemory};

    ghost from_gives = { λ _ stop. stop ≡ WantsMemory };

    fn from(_: AllocError) -> Stop {
        Stop::Memory
    }
}

/// Loads the file with this path, if one is named.
pub(crate) fn load_first<F: Files>(
    alloc: Global,
    path: &Option<Bytes>,
    files: &mut F,
) -> Result<Found, Stop>
    ensures found { IfOk result (IsFirstLoad path.now (F.loads files.old) (F.loads files.new)) }
    ensures stop { IfErr result (IsLoadStop (Rose (F.faults files.old) (F.faults files.new))) }
{
    match path {
        Some(path) => load_file(alloc, path.as_slice(), files),
        None => Ok(Found::NoFile),
    }
}

fn load_file<F: Files>(alloc: Global, path: &[u8], files: &mut F) -> Result<Found, Stop>
    ensures found { IfOk result (IsFirstLoad (Some path.now) (F.loads files.old) (F.loads files.new)) }
    ensures stop { IfErr result (IsLoadStop (Rose (F.faults files.old) (F.faults files.new))) }
{
    let mut text = Vec::new(alloc);
    match files.load(path, &mut text) {
        LoadStep::Done => Ok(Found::Text(text)),
        LoadStep::TooLong => Ok(Found::TooLong),
        LoadStep::Failed => Err(Stop::Load),
        LoadStep::Memory => Err(Stop::Memory),
    }
}
