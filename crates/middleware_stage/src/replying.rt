//! A middleware, applied to a reply.
ghost use Rattle.std.specs.Prelude.{◌≡◌, IfOk};
ghost use Rattle.middleware_stage.specs.Effects.{IsReplied, with_lines};
ghost use Rattle.middleware_stage.specs.Stage.{stage_def};

use crate::headers::change_lines;
use crate::stage::{Kind, Stage};
use http_wire::Reply;
use px_base::{Bytes, List, Memory};
use std::alloc::Global;

/// Applies the middleware to a reply: only `headers` changes it.
///
/// Where memory runs out the reply is lost. It takes memory for the lines that it sets, and else none.
pub fn apply_stage_reply(alloc: Global, stage: &Stage, reply: Reply) -> Result<Reply, Memory>
    ensures { IfOk result (IsReplied (stage_def stage.now) reply) }
{
    match &stage.kind {
        Kind::Headers { response, .. } => change_reply(response, reply),
        Kind::AddPrefix { .. } => Ok(reply),
        Kind::StripPrefix { .. } => Ok(reply),
        Kind::ReplacePath { .. } => Ok(reply),
        Kind::ReplacePathRegex { .. } => Ok(reply),
        Kind::IpAllowList { .. } => Ok(reply),
        Kind::Buffering { .. } => Ok(reply),
        Kind::RedirectScheme { .. } => Ok(reply),
        Kind::RedirectRegex { .. } => Ok(reply),
    }
}

fn change_reply(changes: &List<(Bytes, Bytes)>, reply: Reply) -> Result<Reply, Memory>
    ensures { IfOk result (λ changed. changed ≡ record reply { lines = with_lines changes.now reply.lines }) }
{
    let mut changed = reply;
    change_lines(changes, &mut changed.lines)?;
    Ok(changed)
}
