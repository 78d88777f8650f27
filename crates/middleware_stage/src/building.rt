//! A middleware, made of its declaration.
ghost use Rattle.std.specs.Prelude.{◌≡◌, ◌≤◌, ◌↔◌, true, false, Any, IfOk, IsTrue, IsUtf8, string_bytes};
ghost use Rattle.rule_eval.specs.Faults.{IsNetwork};
ghost use Rattle.middleware_stage.specs.Built.{Builds, BuildsFit, BuildsRewrite, IsStageOf};
ghost use Rattle.middleware_stage.specs.Faults.{HasBadValue, IsBadRewrite, is_chain as is_of_others, is_unsupported as lacks_support, pattern_count, pattern_of};
ghost use Rattle.middleware_stage.specs.Lawful.{has_lawful_lines};
ghost use Rattle.middleware_stage.specs.Views.{kind_def, range_texts};

use crate::copies::{copied, copied_lines, copied_texts};
use crate::range::Range;
use crate::stage::{BuiltStage, Kind, Rewrite, Stage, StageFault};
use crate::values::{are_settable, is_bad_rewrite};
use dyn_config::MiddlewareDef;
use ip_net::read_net;
use px_base::{Bytes, List, Memory};
use rule_eval::{PatternFault, PatternShop};
use std::alloc::{AllocError, Global};

/// Whether the middleware is a chain, which stands for others.
pub fn is_chain(def: &MiddlewareDef) -> bool
    ensures { result ≡ is_of_others def.now }
{
    matches!(def, MiddlewareDef::Chain { .. })
}

/// How many patterns the middleware wants: 0 or 1.
pub fn patterns_of(def: &MiddlewareDef) -> u32
    ensures { result ≡ pattern_count def.now }
{
    match def {
        MiddlewareDef::ReplacePathRegex { .. } => 1,
        MiddlewareDef::RedirectRegex { .. } => 1,
        MiddlewareDef::AddPrefix { .. } => 0,
        MiddlewareDef::StripPrefix { .. } => 0,
        MiddlewareDef::ReplacePath { .. } => 0,
        MiddlewareDef::Headers { .. } => 0,
        MiddlewareDef::IpAllowList { .. } => 0,
        MiddlewareDef::Chain { .. } => 0,
        MiddlewareDef::Buffering { .. } => 0,
        MiddlewareDef::RedirectScheme { .. } => 0,
        MiddlewareDef::Unsupported => 0,
    }
}

/// Builds a middleware that is no chain, or says the first of its faults: `Unsupported`, `Value`, `TooManyPatterns`
/// where it has a pattern and `spare` is 0, `Syntax`, `TooBig`. A pattern is built only where none of the first three
/// stands in its way.
///
/// A range is a bad value where it is no network; a field where its name is no field name, its value no field value, or
/// where it is `Content-Length`, `Connection` or `Transfer-Encoding`, or another field of one connection alone that is
/// to be set; a pattern of more than 512 bytes is one too.
pub fn build_stage<S: PatternShop>(
    alloc: Global,
    def: &MiddlewareDef,
    spare: u32,
    shop: &mut S,
) -> Result<BuiltStage, Memory>
    requires { is_of_others def.now ≡ false }
    ensures built { IfOk result (Builds def.now spare (S.refusals shop.old) (S.refusals shop.new)) }
    ensures later { S.refusals shop.old ≤ S.refusals shop.new }
{
    if is_unsupported(def) {
        return Ok(BuiltStage::Fault(StageFault::Unsupported));
    }
    if has_bad_value(def) {
        return Ok(BuiltStage::Fault(StageFault::Value));
    }
    if patterns_of(def) > spare {
        return Ok(BuiltStage::Fault(StageFault::TooManyPatterns));
    }
    build_fit(alloc, def, shop)
}

// Whether an option, or the whole kind, isn't supported.
fn is_unsupported(def: &MiddlewareDef) -> bool
    ensures { result ≡ lacks_support def.now }
{
    match def {
        MiddlewareDef::StripPrefix { unsupported, .. } => *unsupported,
        MiddlewareDef::Headers { unsupported, .. } => *unsupported,
        MiddlewareDef::IpAllowList { unsupported, .. } => *unsupported,
        MiddlewareDef::Buffering { unsupported, .. } => *unsupported,
        MiddlewareDef::Unsupported => true,
        MiddlewareDef::AddPrefix { .. } => false,
        MiddlewareDef::ReplacePath { .. } => false,
        MiddlewareDef::ReplacePathRegex { .. } => false,
        MiddlewareDef::Chain { .. } => false,
        MiddlewareDef::RedirectScheme { .. } => false,
        MiddlewareDef::RedirectRegex { .. } => false,
    }
}

// Whether a value isn't one that the middleware can have.
fn has_bad_value(def: &MiddlewareDef) -> bool
    ensures { IsTrue result ↔ HasBadValue def.now }
{
    match def {
        MiddlewareDef::ReplacePathRegex { regex, replacement } => {
            is_bad_rewrite(regex.as_slice(), replacement.as_slice())
        }
        MiddlewareDef::RedirectRegex {
            regex,
            replacement,
            ..
        } => is_bad_rewrite(regex.as_slice(), replacement.as_slice()),
        MiddlewareDef::Headers {
            request,
            response,
            ..
        } => !(are_settable(request) && are_settable(response)),
        MiddlewareDef::IpAllowList { ranges, .. } => has_bad_range(ranges),
        MiddlewareDef::AddPrefix { .. } => false,
        MiddlewareDef::StripPrefix { .. } => false,
        MiddlewareDef::ReplacePath { .. } => false,
        MiddlewareDef::Chain { .. } => false,
        MiddlewareDef::Buffering { .. } => false,
        MiddlewareDef::RedirectScheme { .. } => false,
        MiddlewareDef::Unsupported => false,
    }
}

// Whether one of the texts is no network.
fn has_bad_range(ranges: &List<Bytes>) -> bool
    ensures { IsTrue result ↔ Any (λ range. ¬ (IsNetwork range)) ranges.now }
{
    for range in ranges.as_slice() {
        if read_net(range.as_slice()).is_none() {
            return true;
        }
    }
    false
}

// Builds a middleware that is supported and has no bad value.
fn build_fit<S: PatternShop>(
    alloc: Global,
    def: &MiddlewareDef,
    shop: &mut S,
) -> Result<BuiltStage, Memory>
    requires single { is_of_others def.now ≡ false }
    requires supported { lacks_support def.now ≡ false }
    requires valued { ¬ (HasBadValue def.now) }
    ensures built { IfOk result (BuildsFit def.now (S.refusals shop.old) (S.refusals shop.new)) }
    ensures later { S.refusals shop.old ≤ S.refusals shop.new }
{
    match def {
        MiddlewareDef::ReplacePathRegex { regex, replacement } => {
            match build_rewrite(alloc, regex, replacement, shop)? {
                BuiltRewrite::Rewrite(rewrite) => Ok(built(Kind::ReplacePathRegex { rewrite })),
                BuiltRewrite::Fault(fault) => Ok(BuiltStage::Fault(fault)),
            }
        }
        MiddlewareDef::RedirectRegex {
            regex,
            replacement,
            permanent,
        } => match build_rewrite(alloc, regex, replacement, shop)? {
            BuiltRewrite::Rewrite(rewrite) => Ok(built(Kind::RedirectRegex {
                rewrite,
                permanent: *permanent,
            })),
            BuiltRewrite::Fault(fault) => Ok(BuiltStage::Fault(fault)),
        },
        _ => build_plain(alloc, def),
    }
}

// Builds a middleware without a pattern.
fn build_plain(alloc: Global, def: &MiddlewareDef) -> Result<BuiltStage, Memory>
    requires plain { pattern_of def.now ≡ None }
    requires single { is_of_others def.now ≡ false }
    requires supported { lacks_support def.now ≡ false }
    requires valued { ¬ (HasBadValue def.now) }
    ensures { IfOk result (IsStageOf def.now) }
{
    let kind = plain_kind(alloc, def)?;
    Ok(built(kind))
}

fn built(kind: Kind) -> BuiltStage
    requires { has_lawful_lines (kind_def kind) ≡ true }
    ensures { IsStageOf (kind_def kind) result }
{
    BuiltStage::Stage(Stage { kind })
}

// The kind of a middleware without a pattern.
fn plain_kind(alloc: Global, def: &MiddlewareDef) -> Result<Kind, Memory>
    requires plain { pattern_of def.now ≡ None }
    requires single { is_of_others def.now ≡ false }
    requires supported { lacks_support def.now ≡ false }
    requires valued { ¬ (HasBadValue def.now) }
    ensures { IfOk result (λ kind. kind_def kind ≡ def.now) }
{
    match def {
        MiddlewareDef::AddPrefix { prefix } => Ok(Kind::AddPrefix {
            prefix: copied(alloc, prefix)?,
        }),
        MiddlewareDef::StripPrefix { prefixes, .. } => Ok(Kind::StripPrefix {
            prefixes: copied_texts(alloc, prefixes)?,
        }),
        MiddlewareDef::ReplacePath { path } => Ok(Kind::ReplacePath {
            path: copied(alloc, path)?,
        }),
        MiddlewareDef::Headers {
            request,
            response,
            ..
        } => headers_kind(alloc, request, response),
        MiddlewareDef::IpAllowList { ranges, .. } => Ok(Kind::IpAllowList {
            ranges: ranges_of(alloc, ranges)?,
        }),
        MiddlewareDef::RedirectScheme {
            scheme,
            port,
            permanent,
        } => redirect_kind(alloc, scheme, port, *permanent),
        MiddlewareDef::Buffering { max_body, .. } => Ok(Kind::Buffering {
            max_body: *max_body,
        }),
        MiddlewareDef::ReplacePathRegex { .. } => unreachable!(),
        MiddlewareDef::RedirectRegex { .. } => unreachable!(),
        MiddlewareDef::Chain { .. } => unreachable!(),
        MiddlewareDef::Unsupported => unreachable!(),
    }
}

fn headers_kind(
    alloc: Global,
    request: &List<(Bytes, Bytes)>,
    response: &List<(Bytes, Bytes)>,
) -> Result<Kind, Memory>
    ensures { IfOk result (λ kind. kind_def kind ≡ MiddlewareDef.Headers request.now response.now false) }
{
    let request = copied_lines(alloc, request)?;
    let response = copied_lines(alloc, response)?;
    Ok(Kind::Headers { request, response })
}

fn redirect_kind(
    alloc: Global,
    scheme: &Bytes,
    port: &Bytes,
    permanent: bool,
) -> Result<Kind, Memory>
    ensures { IfOk result (λ kind. kind_def kind ≡ MiddlewareDef.RedirectScheme scheme.now port.now permanent) }
{
    let scheme = copied(alloc, scheme)?;
    let port = copied(alloc, port)?;
    Ok(Kind::RedirectScheme {
        scheme,
        port,
        permanent,
    })
}

// The networks that these texts write.
fn ranges_of(alloc: Global, texts: &List<Bytes>) -> Result<List<Range>, Memory>
    requires { ¬ (Any (λ text. ¬ (IsNetwork text)) texts.now) }
    ensures { IfOk result (λ ranges. range_texts ranges ≡ texts.now) }
{
    let mut ranges = List::new(alloc);
    for text in texts.as_slice() {
        ranges.push(range_of(alloc, text)?)?;
    }
    Ok(ranges)
}

fn range_of(alloc: Global, text: &Bytes) -> Result<Range, Memory>
    requires { ¬ (¬ (IsNetwork text.now)) }
    ensures { IfOk result (λ range. range.text ≡ text.now) }
{
    let net = read_net(text.as_slice()).unwrap();
    let text = copied(alloc, text)?;
    Ok(Range { text, net })
}

// A pattern that was built, or why it can't be.
#[derive(Drop)]
pub(crate) enum BuiltRewrite {
    Rewrite(Rewrite),
    Fault(StageFault),
}

// Builds a pattern, and keeps the template that goes with it.
fn build_rewrite<S: PatternShop>(
    alloc: Global,
    regex: &Bytes,
    replacement: &Bytes,
    shop: &mut S,
) -> Result<BuiltRewrite, Memory>
    requires { ¬ (IsBadRewrite regex.now replacement.now) }
    ensures built { IfOk result (BuildsRewrite regex.now replacement.now (S.refusals shop.old) (S.refusals shop.new)) }
    ensures later { S.refusals shop.old ≤ S.refusals shop.new }
{
    let Ok(text) = std::str::from_utf8(regex.as_slice()) else {
        return Ok(BuiltRewrite::Fault(StageFault::Syntax));
    };
    match shop.build(text) {
        Ok(pattern) => {
            let replacement = text_of(alloc, replacement)?;
            Ok(BuiltRewrite::Rewrite(Rewrite {
                pattern,
                replacement,
            }))
        }
        Err(PatternFault::Syntax) => Ok(BuiltRewrite::Fault(StageFault::Syntax)),
        Err(PatternFault::TooBig) => Ok(BuiltRewrite::Fault(StageFault::TooBig)),
        Err(PatternFault::Memory) => Err(AllocError),
    }
}

fn text_of(alloc: Global, bytes: &Bytes) -> Result<String, Memory>
    requires { ¬ (¬ (IsUtf8 bytes.now)) }
    ensures { IfOk result (λ text. string_bytes text ≡ bytes.now) }
{
    let text = std::str::from_utf8(bytes.as_slice()).unwrap();
    String::from_str(alloc, text)
}
