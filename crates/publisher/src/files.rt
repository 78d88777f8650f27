//! Where files are loaded from.
ghost use Rattle.std.specs.Prelude.{◌≡◌, ℕ, List, Option};
ghost use Rattle.publisher.specs.declared.files.Load.{Load as LoadRecord};
ghost use Rattle.publisher.specs.Loads.{LoadDid, LoadCause};

use px_base::Bytes;

/// The most bytes that a file may have.
pub(crate) const MAX_FILE: usize = 1_048_576;

/// What a load answered.
#[derive(Clone, Copy, Debug, PartialEq, Eq)]
pub enum LoadStep {
    /// The bytes of the file, at most 1 MiB.
    Done,
    /// The file has more than 1 MiB.
    TooLong,
    /// The file can't be read. The count of faults rose.
    Failed,
    Memory,
}

/// A load that was made.
#[derive(Debug, Drop)]
pub struct Load {
    /// The path that was asked for.
    pub path: Bytes,
    pub answer: LoadStep,
    /// The file's bytes where the answer is `Done`, else none.
    pub bytes: Bytes,
}

/// Where files are loaded from. It counts its faults in a number that never falls, and stays at 2^64 - 1 once it is
/// there.
pub trait Files {
    /// The loads that it made, in order, where it tells them. One that answered `Memory` isn't told.
    ghost loads: { Self → Option (List LoadRecord) };

    /// How often it has failed.
    ghost faults: { Self → ℕ };

    /// Replaces `out` by the bytes of the file with this path, or by none.
    fn load(&mut self, path: &[u8], out: &mut Vec<u8>) -> LoadStep
        ensures did { LoadDid (loads self.old) path.now result out.new.items (loads self.new) }
        ensures cause { LoadCause (faults self.old) (faults self.new) result };
}
