//! Where bytes come from: a source gives the next bytes, answers its end, or fails and counts it.
ghost use Rattle.std.specs.Prelude.{◌≡◌, ◌<◌, ◌≤◌, ℕ, List, Option, Bool, true, length, IfOk, OnOk, IfSome, IsErrOf};
ghost use Rattle.std.specs.Io.KnownBytes.{Consumes};
ghost use Rattle.px_base.specs.Bytes.{Rose, ReadGives, ReadCause, is_end};

use crate::step::ReadStep;
use std::alloc::Global;

/// A source of bytes. It counts its faults in a number that never falls, and stays at 2^64 - 1 once
/// it is there.
pub trait Source {
    /// The bytes that are left, where they are known.
    ghost left: { Self → Option (List ℕ) };

    /// How often it has failed. The count never falls.
    ghost faults: { Self → ℕ };

    /// Whether its last read answered `End`.
    ghost ended: { Self → Bool };

    /// Reads the next bytes to the front of the room: at least one, unless none is left or it fails.
    fn read(&mut self, room: &mut [u8]) -> ReadStep
        requires { 0 < length room.old }
        ensures gives { ReadGives (left self.old) (left self.new) result room.new }
        ensures cause { ReadCause (faults self.old) (faults self.new) result }
        ensures end { ended self.new ≡ is_end result };
}

/// Why a source wasn't read to its end.
#[derive(Clone, Copy, Debug, PartialEq, Eq)]
pub enum ReadFault {
    /// The source failed.
    Failed,
    /// More bytes were left than the limit.
    TooLong,
    Memory,
}

/// All bytes that the source has left, of which there may be `limit`.
pub fn read_all<S: Source>(
    alloc: Global,
    source: &mut S,
    limit: usize,
) -> Result<Vec<u8>, ReadFault>
    // All of them were read, to the source's end.
    ensures all { IfOk result (λ bytes. IfSome (S.left source.old) (λ left. bytes.items ≡ left)) }
    ensures fits { IfOk result (λ bytes. length bytes.items ≤ limit) }
    ensures end { OnOk result (S.ended source.new ≡ true) }

    // It doesn't give up by itself.
    ensures failed { IsErrOf result ReadFault.Failed → Rose (S.faults source.old) (S.faults source.new) }
    ensures too_long { IsErrOf result ReadFault.TooLong → IfSome (S.left source.old) (λ left. limit < length left) }
    ensures later { S.faults source.old ≤ S.faults source.new }

    // Whatever the answer, what is left is what follows the bytes that were read.
    ensures rest { (read : List ℕ) × Consumes (S.left source.old) (S.left source.new) read }
{
    let mut bytes = Vec::new(alloc);
    let mut room = [0u8; 4096];
    while bytes.len() <= limit {
        match source.read(&mut room) {
            ReadStep::Got(count) => {
                if bytes.extend_from_slice(&room[..count]).is_err() {
                    return Err(ReadFault::Memory);
                }
            }
            ReadStep::End => return Ok(bytes),
            ReadStep::Failed => return Err(ReadFault::Failed),
        }
    }
    Err(ReadFault::TooLong)
}
