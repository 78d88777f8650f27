// Configurations out of files.
ghost use Rattle.std.specs.Prelude.{◌≡◌, ◌≢◌, ◌<◌, ℕ, List, IfOk, IfErr, IfSome, OnOk, Option, length, true};
ghost use Rattle.px_base.specs.Bytes.{Rose};
ghost use Rattle.file_provider.specs.Files.{IsFileConfig, IsPolled};
ghost use Rattle.file_provider.specs.declared.config.FileFault.TheVariants.{Memory as WantsMemory};

use crate::document::{ReadTreeFault, read_tree};
use dyn_config::{Config, ConfigFault, decode};
use field_tree::Style;
use px_base::{ReadFault, Source, read_all};
use std::alloc::Global;

/// The greatest length of a configuration file, in bytes.
const MAX_FILE: usize = 1_048_576;

/// Why a file's bytes are no configuration.
#[derive(Debug, Drop)]
pub enum FileFault {
    /// They are no TOML text.
    NotToml,
    /// The document is no configuration; never because memory ran out.
    Config(ConfigFault),
    Memory,
}

/// Why a file gave no configuration.
#[derive(Debug, Drop)]
pub enum PollFault {
    /// The source failed.
    ReadFault,
    /// It has more than 1 MiB.
    TooLong,
    /// Its bytes are no configuration; never because memory ran out.
    File(FileFault),
    Memory,
}

/// The configuration that a file's bytes are.
pub fn read_file_config(alloc: Global, bytes: &[u8]) -> Result<Config, FileFault>
    ensures { IsFileConfig bytes.now result }
{
    match read_tree(alloc, bytes) {
        Ok(tree) => match decode(alloc, &tree, Style::Typed) {
            Ok(config) => Ok(config),
            Err(ConfigFault::Memory) => Err(FileFault::Memory),
            Err(fault) => Err(FileFault::Config(fault)),
        },
        Err(ReadTreeFault::NotToml) => Err(FileFault::NotToml),
        Err(ReadTreeFault::Memory) => Err(FileFault::Memory),
    }
}

/// Reads a file to its end, of at most 1 MiB, as a configuration.
pub fn poll_file<S: Source>(alloc: Global, source: &mut S) -> Result<Config, PollFault>
    ensures { IsPolled (S.left source.old) (S.ended source.new ≡ true) (Rose (S.faults source.old) (S.faults source.new)) result }
{
    match read_all(alloc, source, MAX_FILE) {
        Ok(bytes) => match read_file_config(alloc, bytes.as_slice()) {
            Ok(config) => Ok(config),
            Err(FileFault::Memory) => Err(PollFault::Memory),
            Err(fault) => Err(PollFault::File(fault)),
        },
        Err(ReadFault::Failed) => Err(PollFault::ReadFault),
        Err(ReadFault::TooLong) => Err(PollFault::TooLong),
        Err(ReadFault::Memory) => Err(PollFault::Memory),
    }
}
