// A file's bytes as TOML.
ghost use Rattle.std.specs.Prelude.{◌≡◌, IfOk, IfErr, ⊤};
ghost use Rattle.toml.specs.Data.{Members};
ghost use Rattle.file_provider.specs.Shape.{table, fields_of};
ghost use Rattle.file_provider.specs.View.{view};
ghost use Rattle.file_provider.specs.Documents.{IsDocument, IfNotToml};
ghost use Rattle.file_provider.specs.declared.document.ReadTreeFault.TheVariants.{Memory as WantsMemory};

use crate::trees::tree_of;
use field_tree::Tree;
use px_base::Memory;
use std::alloc::Global;

/// Why a file has no tree.
#[derive(Clone, Copy, Debug, PartialEq, Eq)]
pub enum ReadTreeFault {
    /// The bytes are no TOML text. A key that stands twice, an integer outside 64 bits and nesting over 80 are none.
    NotToml,
    Memory,
}

impl From<Memory> for ReadTreeFault {
    ghost from_gives = { λ _ e. e ≡ WantsMemory };

    fn from(_: Memory) -> ReadTreeFault {
        ReadTreeFault::Memory
    }
}

/// The tree of a file's bytes, which are TOML.
pub fn read_tree(alloc: Global, bytes: &[u8]) -> Result<Tree, ReadTreeFault>
    ensures ok { IfOk result (λ tree. (document : Members) × IsDocument bytes.now document
        × (view tree ≡ table (fields_of document))) }
    ensures refused { IfErr result (IfNotToml ((document : Members) → ¬ (IsDocument bytes.now document))) }
{
    match toml::table_from_slice(alloc, bytes) {
        Ok(document) => Ok(tree_of(alloc, &document)?),
        Err(error) => {
            if error.is_memory() {
                Err(ReadTreeFault::Memory)
            } else {
                Err(ReadTreeFault::NotToml)
            }
        }
    }
}
