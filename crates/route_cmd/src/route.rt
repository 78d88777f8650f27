//! The command.
ghost use Rattle.std.specs.Prelude.{◌≡◌, ◌≢◌, ◌<◌, ◌^◌, ℕ, List, Option, Ok, true, length, IsTrue, ◌↔◌, IfOk, IfErr};
ghost use Rattle.px_base.specs.Bytes.{Rose};
ghost use Rattle.file_provider.specs.Files.{IsFileConfig, WasRead, file_limit};
ghost use Rattle.file_provider.specs.declared.config.FileFault.TheVariants.{Memory as NoMemory};
ghost use Rattle.route_cmd.specs.Services.{HaveOneServer};
ghost use Rattle.route_cmd.specs.Output.{MergedOutput, RouteOutput, Stops, StopsInput, line};
ghost use Rattle.fault_text.specs.Files.{file_fault_text};

use crate::answer::Stop;
use crate::requests::answer_source;
use crate::services::have_one_server;
use dyn_config::{Config, Merged};
use fault_text::push_file_fault;
use file_provider::{FileFault, PollFault, poll_file};
use ip_net::Ip;
use provider_merge::merge_file;
use px_base::{Answer, Memory, Source, make_answer};
use rule_eval::PatternShop;
use runtime_config::build_runtime;
use std::alloc::Global;

/// The answer of `route` to a request head, which comes at this entry point from this peer, under the configuration of a file.
///
/// | Status | Text |
/// |---|---|
/// | 0 | `404`, or `stop <router> <place> <status>`, or `forward <router> http://<host>:<port>` |
/// | 3 | `config <fault>`: the file is no configuration, or one that isn't served yet |
/// | 4 | `request <fault>`: the input isn't one whole head that is routed |
/// | 8 | `too long`: the file has more than 1 MiB, or the input more than 16,384 bytes |
pub fn answer_route<C: Source, Q: Source, S: PatternShop>(
    alloc: Global,
    entry: &[u8],
    peer: Ip,
    config: &mut C,
    input: &mut Q,
    shop: &mut S,
) -> Result<Answer, Stop>
    ensures told { IfOk result (λ a. RouteOutput entry.now peer (S.refusals shop.old) (S.refusals shop.new)
        (C.left config.old) (Q.left input.old) a.status a.text.items) }
    // The input was read to its end.
    ensures end { IfOk result (λ a. a.status ≡ 0 → Q.ended input.new ≡ true) }
    // These statuses say that a source or a sink failed.
    ensures apart { IfOk result (λ a. (a.status ≢ 5) × (a.status ≢ 6)) }
    ensures stop { IfErr result (Stops (C.left config.old) (Rose (C.faults config.old) (C.faults config.new))
        (Rose (Q.faults input.old) (Q.faults input.new))) }
{
    match poll_file(alloc, config) {
        Ok(config) => answer_config(alloc, entry, peer, config, input, shop),
        Err(PollFault::File(fault)) => fault_answer(alloc, &fault),
        Err(PollFault::ReadFault) => Err(Stop::File),
        Err(PollFault::TooLong) => Ok(make_answer(alloc, 8, b"too long\n")?),
        Err(PollFault::Memory) => Err(Stop::Memory),
    }
}

/// The answer to a file that is no configuration.
pub fn fault_answer(alloc: Global, fault: &FileFault) -> Result<Answer, Stop>
    ensures told { IfOk result (λ a. (a.status ≡ 3) × (a.text.items ≡ line (file_fault_text fault.now)) × (fault.now ≢ NoMemory)) }
    ensures stop { IfErr result (λ stop. stop ≡ Stop.Memory) }
{
    if wants_memory(fault) {
        return Err(Stop::Memory);
    }
    let text = fault_line(alloc, fault)?;
    Ok(Answer { status: 3, text })
}

fn wants_memory(fault: &FileFault) -> bool
    ensures { IsTrue result ↔ (fault.now ≡ NoMemory) }
{
    matches!(fault, FileFault::Memory)
}

fn fault_line(alloc: Global, fault: &FileFault) -> Result<Vec<u8>, Memory>
    ensures { IfOk result (λ text. text.items ≡ line (file_fault_text fault.now)) }
{
    let mut text = Vec::new(alloc);
    push_file_fault(fault, &mut text)?;
    text.extend_from_slice(b"\n")?;
    Ok(text)
}

// The answer under a configuration.
fn answer_config<Q: Source, S: PatternShop>(
    alloc: Global,
    entry: &[u8],
    peer: Ip,
    config: Config,
    input: &mut Q,
    shop: &mut S,
) -> Result<Answer, Stop>
    ensures told { IfOk result (λ a. (file : Option (List ℕ)) (bytes : List ℕ) → WasRead file file_limit bytes → IsFileConfig bytes (Ok config)
        → RouteOutput entry.now peer (S.refusals shop.old) (S.refusals shop.new) file (Q.left input.old) a.status a.text.items) }
    ensures end { IfOk result (λ a. a.status ≡ 0 → Q.ended input.new ≡ true) }
    ensures apart { IfOk result (λ a. (a.status ≢ 5) × (a.status ≢ 6)) }
    ensures stop { IfErr result (λ stop. (file : Option (List ℕ)) (bytes : List ℕ) → WasRead file file_limit bytes → IsFileConfig bytes (Ok config)
        → Stops file ⊥ (Rose (Q.faults input.old) (Q.faults input.new)) stop) }
{
    let merged = merge_file(alloc, config)?;
    answer_merged(alloc, entry, peer, merged, input, shop)
}

// The answer under what the configuration's provider declares.
fn answer_merged<Q: Source, S: PatternShop>(
    alloc: Global,
    entry: &[u8],
    peer: Ip,
    merged: Merged,
    input: &mut Q,
    shop: &mut S,
) -> Result<Answer, Stop>
    requires few { length merged.services < 2 ^ 32 }
    ensures told { IfOk result (λ a. MergedOutput entry.now peer (S.refusals shop.old) (S.refusals shop.new) merged (Q.left input.old) a.status a.text.items) }
    ensures end { IfOk result (λ a. a.status ≡ 0 → Q.ended input.new ≡ true) }
    ensures apart { IfOk result (λ a. (a.status ≢ 5) × (a.status ≢ 6)) }
    ensures stop { IfErr result (StopsInput (HaveOneServer merged × Rose (Q.faults input.old) (Q.faults input.new))) }
{
    if !have_one_server(merged.services.as_slice()) {
        return Ok(make_answer(alloc, 3, b"config Later\n")?);
    }
    let config = build_runtime(alloc, merged, shop)?;
    answer_source(alloc, &config, entry, peer, input)
}
