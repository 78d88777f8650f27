//! Texts with the matches of a pattern replaced, and requests with another path.
ghost use Rattle.std.specs.Prelude.{◌≡◌, ◌≤◌, IfOk, IfSome, find, length, nat_eq, option_map, string_bytes};
ghost use Rattle.std.specs.List.{starts_with};
ghost use Rattle.middleware_stage.specs.Effects.{replaced, replaced_by_regex, stripped, with_prefix, without_prefix};
ghost use Rattle.middleware_stage.specs.Redirects.{rewritten as rewritten_by};
ghost use Rattle.middleware_stage.specs.Views.{regex_text, replacement_text};

use crate::paths::path_of;
use crate::stage::Rewrite;
use http_wire::Request;
use px_base::{Bytes, List, Memory};
use std::alloc::Global;

/// The text with each match of the pattern replaced, where it is UTF-8 and has one.
pub(crate) fn rewritten(
    alloc: Global,
    rewrite: &Rewrite,
    text: &[u8],
) -> Result<Option<String>, Memory>
    ensures { IfOk result (λ found. option_map (λ text. string_bytes text) found
        ≡ rewritten_by (regex_text rewrite.now) (replacement_text rewrite.now) text.now) }
{
    let Ok(text) = std::str::from_utf8(text) else {
        return Ok(None);
    };
    if !rewrite.pattern.is_found(alloc, text)? {
        return Ok(None);
    }
    let replaced = rewrite
        .pattern
        .replace(alloc, rewrite.replacement.as_str(), text)?;
    Ok(Some(replaced))
}

/// The request with the prefix before its path.
pub(crate) fn add_prefix(alloc: Global, prefix: &[u8], request: Request) -> Result<Request, Memory>
    ensures { IfOk result (λ added. added ≡ with_prefix prefix.now request) }
{
    let path = path_of(alloc, prefix, request.path.as_slice())?;
    Ok(Request { path, ..request })
}

/// The request without the first prefix that begins its path, which is told in `X-Forwarded-Prefix`.
pub(crate) fn strip_prefix(
    alloc: Global,
    prefixes: &List<Bytes>,
    request: Request,
) -> Result<Request, Memory>
    ensures { IfOk result (λ cut. cut ≡ stripped prefixes.now request) }
{
    match prefix_in(prefixes, request.path.as_slice()) {
        None => Ok(request),
        Some(prefix) => cut_prefix(alloc, prefix, request),
    }
}

// The first prefix that begins the path.
fn prefix_in<'a>(prefixes: &'a List<Bytes>, path: &[u8]) -> Option<&'a [u8]>
    ensures first { option_map (λ prefix. prefix.now) result ≡ find (λ prefix. starts_with nat_eq path.now prefix) prefixes.now }
    ensures within { IfSome result (λ prefix. length prefix.now ≤ length path.now) }
{
    for prefix in prefixes.as_slice() {
        if path.starts_with(prefix.as_slice()) {
            return Some(prefix.as_slice());
        }
    }
    None
}

fn cut_prefix(alloc: Global, prefix: &[u8], request: Request) -> Result<Request, Memory>
    requires { length prefix.now ≤ length request.path }
    ensures { IfOk result (λ cut. cut ≡ without_prefix (Some prefix.now) request) }
{
    let path = path_of(alloc, b"", &request.path.as_slice()[prefix.len()..])?;
    let mut request = request;
    request.lines.set(b"X-Forwarded-Prefix", prefix)?;
    request.path = path;
    Ok(request)
}

/// The request with another path. The old one is told in `X-Replaced-Path`.
pub(crate) fn replace_path(alloc: Global, path: &[u8], request: Request) -> Result<Request, Memory>
    ensures { IfOk result (λ other. other ≡ replaced path.now request) }
{
    let path = path_of(alloc, b"", path)?;
    let mut request = request;
    request
        .lines
        .set(b"X-Replaced-Path", request.path.as_slice())?;
    request.path = path;
    Ok(request)
}

/// The same with each match in the path replaced, where there is one.
pub(crate) fn replace_matches(
    alloc: Global,
    rewrite: &Rewrite,
    request: Request,
) -> Result<Request, Memory>
    ensures { IfOk result (λ other. other ≡ replaced_by_regex (regex_text rewrite.now) (replacement_text rewrite.now) request) }
{
    match rewritten(alloc, rewrite, request.path.as_slice())? {
        None => Ok(request),
        Some(path) => replace_path(alloc, path.as_bytes(), request),
    }
}
