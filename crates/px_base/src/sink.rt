//! Where bytes go: a sink takes the front of each piece, or fails and counts it.
ghost use Rattle.std.specs.Prelude.{◌≡◌, ◌<◌, ◌≤◌, ℕ, List, Option, length, OnOk, OnErr};
ghost use Rattle.std.specs.Io.KnownBytes.{Appends};
ghost use Rattle.px_base.specs.Bytes.{Rose, WriteTakes, WriteCause, AppendsLess};

use crate::step::WriteStep;

/// A sink for bytes. It counts its faults in a number that never falls, and stays at 2^64 - 1 once
/// it is there.
pub trait Sink {
    /// The bytes that it holds, where they are known.
    ghost held: { Self → Option (List ℕ) };

    /// How often it has failed. The count never falls.
    ghost faults: { Self → ℕ };

    /// Takes bytes from the front of a piece: at least one, unless it fails.
    fn write(&mut self, piece: &[u8]) -> WriteStep
        requires { 0 < length piece.now }
        ensures takes { WriteTakes (held self.old) (held self.new) result piece.now }
        ensures cause { WriteCause (faults self.old) (faults self.new) result };
}

/// The sink failed before it had taken all.
#[derive(Clone, Copy, Debug, PartialEq, Eq)]
pub struct WriteFault;

/// Writes a whole text. After a fault the sink holds a proper part of it, from its front.
pub fn write_all<K: Sink>(sink: &mut K, text: &[u8]) -> Result<(), WriteFault>
    ensures whole { OnOk result (Appends (K.held sink.old) (K.held sink.new) text.now) }
    ensures part { OnErr result (AppendsLess (K.held sink.old) (K.held sink.new) text.now) }
    ensures cause { OnErr result (Rose (K.faults sink.old) (K.faults sink.new)) }
    ensures later { K.faults sink.old ≤ K.faults sink.new }
{
    let mut at = 0;
    while at < text.len() {
        match sink.write(&text[at..]) {
            WriteStep::Took(count) => at += count,
            WriteStep::Failed => return Err(WriteFault),
        }
    }
    Ok(())
}
