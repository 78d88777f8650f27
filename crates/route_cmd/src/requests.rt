//! The answer to an input.
ghost use Rattle.std.specs.Prelude.{◌≡◌, ◌≢◌, true, IfOk, IfErr};
ghost use Rattle.px_base.specs.Bytes.{Rose};
ghost use Rattle.runtime_config.specs.Runtime.{IsRuntime};
ghost use Rattle.route_cmd.specs.Services.{HaveOneServer};
ghost use Rattle.route_cmd.specs.Output.{Answered, InputOutput, StopsInput};

use crate::answer::Stop;
use crate::heads::answer_head;
use head_view::{EMPTY_HEADER_SPAN, Scan, scan_request};
use ip_net::Ip;
use px_base::{Answer, Memory, ReadFault, Source, make_answer, read_all};
use runtime_config::RuntimeConfig;
use std::alloc::Global;

/// The greatest length of an input of `route`, in bytes.
const MAX_INPUT: usize = 16_384;

/// The greatest number of field lines of a head.
const MAX_LINES: usize = 100;

// The answer to what is left of the input.
pub(crate) fn answer_source<Q: Source>(
    alloc: Global,
    config: &RuntimeConfig,
    entry: &[u8],
    peer: Ip,
    input: &mut Q,
) -> Result<Answer, Stop>
    requires runtime { IsRuntime config.now.merged config.now }
    requires form { HaveOneServer config.now.merged }
    ensures told { IfOk result (λ a. InputOutput config.now.merged config.now.table.rows entry.now peer (Q.left input.old) a.status a.text.items) }
    ensures end { IfOk result (λ a. a.status ≡ 0 → Q.ended input.new ≡ true) }
    ensures apart { IfOk result (λ a. (a.status ≢ 5) × (a.status ≢ 6)) }
    ensures stop { IfErr result (StopsInput (Rose (Q.faults input.old) (Q.faults input.new))) }
{
    match read_all(alloc, input, MAX_INPUT) {
        Ok(text) => Ok(answer_input(alloc, config, entry, peer, text.as_slice())?),
        Err(ReadFault::TooLong) => Ok(make_answer(alloc, 8, b"too long\n")?),
        Err(ReadFault::Failed) => Err(Stop::Input),
        Err(ReadFault::Memory) => Err(Stop::Memory),
    }
}

// The answer to an input that keeps its limit.
fn answer_input(
    alloc: Global,
    config: &RuntimeConfig,
    entry: &[u8],
    peer: Ip,
    input: &[u8],
) -> Result<Answer, Memory>
    requires runtime { IsRuntime config.now.merged config.now }
    requires form { HaveOneServer config.now.merged }
    ensures told { IfOk result (λ a. Answered config.now.merged config.now.table.rows entry.now peer input.now a.status a.text.items) }
    ensures apart { IfOk result (λ a. (a.status ≢ 5) × (a.status ≢ 6)) }
{
    let mut room = [EMPTY_HEADER_SPAN; MAX_LINES];
    match scan_request(input, &mut room) {
        Scan::Whole(spans) => answer_head(alloc, config, entry, peer, input, &room, &spans),
        Scan::Part => make_answer(alloc, 4, b"request Part\n"),
        Scan::Bad => make_answer(alloc, 4, b"request BadHead\n"),
        Scan::TooMany => make_answer(alloc, 4, b"request TooMany\n"),
    }
}
