//! What is kept of a link at its place: its number, and what is meant of it.
ghost use Rattle.std.specs.Prelude.{◌≡◌, ◌<◌, ◌^◌};
ghost use Rattle.link_world.specs.Lately.{is_read_quiet, is_write_quiet};
ghost use Rattle.mio_world.specs.Slots.{asked_at, faults_after, read_failed, write_failed, slot_read, slot_written};

use link_world::{LinkRead, LinkWrite};

/// What was asked of a link since a wait.
#[derive(Clone, Copy)]
pub(crate) struct Asked {
    /// The waits that were made before.
    pub wait: u64,
    pub reads: u64,
    pub read_quiet: bool,
    pub write_quiet: bool,
    pub read_was_quiet: bool,
    pub write_was_quiet: bool,
}

/// The place of a link. An idle link's is written at each turn: it is small.
#[derive(Clone, Copy)]
pub(crate) struct Slot {
    pub asked: Asked,
    pub faults: u64,
    /// The number of its last link, or of its first where none was given.
    pub link: u32,
    pub given: bool,
    pub is_open: bool,
}

impl Asked {
    /// Is told from the last wait on.
    fn renew(&mut self, waits: u64)
        ensures { self.new ≡ asked_at waits self.old }
    {
        if self.wait == waits {
            return;
        }
        let was = self.wait < waits && waits - self.wait == 1;
        *self = Asked {
            wait: waits,
            reads: 0,
            read_quiet: false,
            write_quiet: false,
            read_was_quiet: was && self.read_quiet,
            write_was_quiet: was && self.write_quiet,
        };
    }
}

impl Slot {
    /// Its link was read, with this answer.
    pub fn did_read(&mut self, waits: u64, answer: LinkRead)
        ensures new { self.new ≡ slot_read waits self.old answer }
        ensures small { self.old.faults < 2 ^ 64 }
    {
        self.asked.renew(waits);
        self.asked.reads = self.asked.reads.saturating_add(1);
        self.asked.read_quiet = is_quiet_read(answer);
        self.faults = count_fault(self.faults, is_failed_read(answer));
    }

    /// Its link was written, with this answer.
    pub fn did_write(&mut self, waits: u64, answer: LinkWrite)
        ensures new { self.new ≡ slot_written waits self.old answer }
        ensures small { self.old.faults < 2 ^ 64 }
    {
        self.asked.renew(waits);
        self.asked.write_quiet = is_quiet_write(answer);
        self.faults = count_fault(self.faults, is_failed_write(answer));
    }
}

/// A count of faults after an answer that is one, or isn't.
fn count_fault(faults: u64, failed: bool) -> u64
    ensures { result ≡ faults_after faults failed }
{
    if failed {
        faults.saturating_add(1)
    } else {
        faults
    }
}

fn is_quiet_read(answer: LinkRead) -> bool
    ensures { result ≡ is_read_quiet answer }
{
    match answer {
        LinkRead::Got(_) => false,
        LinkRead::NotYet => true,
        LinkRead::End => false,
        LinkRead::Failed => false,
    }
}

fn is_quiet_write(answer: LinkWrite) -> bool
    ensures { result ≡ is_write_quiet answer }
{
    match answer {
        LinkWrite::Took(_) => false,
        LinkWrite::NotYet => true,
        LinkWrite::Failed => false,
    }
}

fn is_failed_read(answer: LinkRead) -> bool
    ensures { result ≡ read_failed answer }
{
    match answer {
        LinkRead::Got(_) => false,
        LinkRead::NotYet => false,
        LinkRead::End => false,
        LinkRead::Failed => true,
    }
}

fn is_failed_write(answer: LinkWrite) -> bool
    ensures { result ≡ write_failed answer }
{
    match answer {
        LinkWrite::Took(_) => false,
        LinkWrite::NotYet => false,
        LinkWrite::Failed => true,
    }
}
