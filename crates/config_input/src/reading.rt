//! A configuration out of a source.
ghost use Rattle.std.specs.Prelude.{◌≡◌, ◌≤◌, IfOk, length, true};
ghost use Rattle.px_base.specs.Bytes.{Rose};
ghost use Rattle.fault_text.specs.Files.{file_fault_text};
ghost use Rattle.config_input.specs.Inputs.{IsConfigRead, line};

use crate::fault::NoConfig;
use dyn_config::Merged;
use fault_text::push_file_fault;
use file_provider::{FileFault, PollFault, poll_file};
use provider_merge::merge_file;
use px_base::{Answer, Memory, Source, make_answer};
use std::alloc::Global;

/// The configuration that a command is given: that of a TOML file of at most 1 MiB. No other provider declares anything.
///
/// | Status of a refusal | Text |
/// |---|---|
/// | 3 | `config <fault>`: it is no configuration |
/// | 8 | `too long` |
pub fn read_config<C: Source>(alloc: Global, source: &mut C) -> Result<Merged, NoConfig>
    ensures read { IsConfigRead (C.left source.old) (C.ended source.new ≡ true) (Rose (C.faults source.old) (C.faults source.new)) result }
    // A provider declares at most 500 services.
    ensures few { IfOk result (λ m. length m.services ≤ 1000) }
{
    match poll_file(alloc, source) {
        Ok(config) => Ok(merge_file(alloc, config)?),
        Err(PollFault::File(fault)) => Err(NoConfig::Refused(file_answer(alloc, &fault)?)),
        Err(PollFault::ReadFault) => Err(NoConfig::Failed),
        Err(PollFault::TooLong) => Err(NoConfig::Refused(make_answer(alloc, 8, b"too long\n")?)),
        Err(PollFault::Memory) => Err(NoConfig::Memory),
    }
}

// The answer to a file that is no configuration.
fn file_answer(alloc: Global, fault: &FileFault) -> Result<Answer, Memory>
    ensures { IfOk result (λ a. (a.status ≡ 3) × (a.text.items ≡ line (file_fault_text fault.now))) }
{
    let mut text = Vec::new(alloc);
    push_file_fault(fault, &mut text)?;
    text.extend_from_slice(b"\n")?;
    Ok(Answer { status: 3, text })
}
