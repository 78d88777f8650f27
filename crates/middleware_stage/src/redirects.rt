//! Where redirects lead.
ghost use Rattle.std.specs.Prelude.{◌≡◌, ◌≢◌, ◌++◌, ◌↔◌, ℕ, List, IsTrue, IfOk, OnOk, MatchOption, codes, option_map};
ghost use Rattle.http_wire.specs.Spelling.{target_text};
ghost use Rattle.middleware_stage.specs.Redirects.{by_regex, by_scheme, elsewhere, is_default_port as has_no_port, port_text, query_text, redirect_status as status_of, scheme_url, url as url_of_request};
ghost use Rattle.middleware_stage.specs.Views.{regex_text, replacement_text};

use crate::rewriting::rewritten;
use crate::stage::Rewrite;
use http_wire::{Request, without_port};
use px_base::{Bytes, Memory};
use std::alloc::Global;

/// The request's URL with this scheme and this port, where that is another one.
pub(crate) fn scheme_target(
    alloc: Global,
    scheme: &[u8],
    port: &[u8],
    request: &Request,
) -> Result<Option<Vec<u8>>, Memory>
    ensures { IfOk result (λ target. option_map (λ text. text.items) target ≡ by_scheme scheme.now port.now request.now) }
{
    let target = with_scheme(alloc, scheme, port, request)?;
    Ok(other_than_url(target, request))
}

/// The request's URL with each match of the pattern replaced, where there is one and the text is another.
pub(crate) fn regex_target(
    alloc: Global,
    rewrite: &Rewrite,
    request: &Request,
) -> Result<Option<Vec<u8>>, Memory>
    ensures { IfOk result (λ target. option_map (λ text. text.items) target
        ≡ by_regex (regex_text rewrite.now) (replacement_text rewrite.now) request.now) }
{
    let url = url_of(alloc, request)?;
    match rewritten(alloc, rewrite, url.as_slice())? {
        None => Ok(None),
        Some(target) => Ok(other_than_url(target.into_bytes(), request)),
    }
}

// The target, where it isn't the request's own URL.
fn other_than_url(target: Vec<u8>, request: &Request) -> Option<Vec<u8>>
    ensures { option_map (λ text. text.items) result ≡ elsewhere request.now (Some target.items) }
{
    if is_url(target.as_slice(), request) {
        None
    } else {
        Some(target)
    }
}

// Whether the text is the request's own URL.
fn is_url(text: &[u8], request: &Request) -> bool
    ensures { IsTrue result ↔ (text.now ≡ url_of_request request.now) }
{
    match behind(text, b"http://") {
        None => false,
        Some(rest) => is_authority_and_target(rest, request),
    }
}

fn is_authority_and_target(text: &[u8], request: &Request) -> bool
    ensures { IsTrue result ↔ (text.now ≡ request.now.host ++ target_text request.now.path request.now.query) }
{
    match behind(text, request.host.as_slice()) {
        None => false,
        Some(rest) => is_target(rest, request),
    }
}

// Whether the text is the request's path with its query.
fn is_target(text: &[u8], request: &Request) -> bool
    ensures { IsTrue result ↔ (text.now ≡ target_text request.now.path request.now.query) }
{
    match behind(text, request.path.as_slice()) {
        None => false,
        Some(rest) => is_query(rest, &request.query),
    }
}

// Whether the text is this query behind its question mark, or nothing where there is none.
fn is_query(text: &[u8], query: &Option<Bytes>) -> bool
    ensures { IsTrue result ↔ (text.now ≡ query_text query.now) }
{
    match query {
        None => text.is_empty(),
        Some(query) => match behind(text, b"?") {
            None => false,
            Some(rest) => rest == query.as_slice(),
        },
    }
}

// What stands behind this front, where the text has it.
fn behind<'a>(text: &'a [u8], front: &[u8]) -> Option<&'a [u8]>
    ensures { MatchOption result
        ((rest : List ℕ) → text.now ≢ front.now ++ rest)
        (λ rest. text.now ≡ front.now ++ rest.now) }
{
    if text.starts_with(front) {
        Some(&text[front.len()..])
    } else {
        None
    }
}

// The request's own URL.
fn url_of(alloc: Global, request: &Request) -> Result<Vec<u8>, Memory>
    ensures { IfOk result (λ url. url.items ≡ url_of_request request.now) }
{
    let mut url = Vec::new(alloc);
    url.extend_from_slice(b"http://")?;
    url.extend_from_slice(request.host.as_slice())?;
    push_target(request, &mut url)?;
    Ok(url)
}

fn with_scheme(
    alloc: Global,
    scheme: &[u8],
    port: &[u8],
    request: &Request,
) -> Result<Vec<u8>, Memory>
    ensures { IfOk result (λ url. url.items ≡ scheme_url scheme.now port.now request.now) }
{
    let mut url = Vec::new(alloc);
    url.extend_from_slice(scheme)?;
    url.extend_from_slice(b"://")?;
    url.extend_from_slice(without_port(request.host.as_slice()))?;
    push_port(scheme, port, &mut url)?;
    push_target(request, &mut url)?;
    Ok(url)
}

fn push_port(scheme: &[u8], port: &[u8], out: &mut Vec<u8>) -> Result<(), Memory>
    ensures { OnOk result (out.new.items ≡ out.old.items ++ port_text scheme.now port.now) }
{
    if is_default_port(scheme, port) {
        return Ok(());
    }
    out.extend_from_slice(b":")?;
    out.extend_from_slice(port)
}

// Whether the port is the scheme's own, or none is given.
fn is_default_port(scheme: &[u8], port: &[u8]) -> bool
    ensures { result ≡ has_no_port scheme.now port.now }
{
    port.is_empty()
        || scheme == b"http".as_slice() && port == b"80".as_slice()
        || scheme == b"https".as_slice() && port == b"443".as_slice()
}

// Appends the path and the query behind it.
fn push_target(request: &Request, out: &mut Vec<u8>) -> Result<(), Memory>
    ensures { OnOk result (out.new.items ≡ out.old.items ++ target_text request.now.path request.now.query) }
{
    out.extend_from_slice(request.path.as_slice())?;
    match &request.query {
        None => Ok(()),
        Some(query) => {
            out.extend_from_slice(b"?")?;
            out.extend_from_slice(query.as_slice())
        }
    }
}

/// The status of a redirect of a request with this method.
pub(crate) fn redirect_status(permanent: bool, method: &[u8]) -> u16
    ensures { result ≡ status_of permanent method.now }
{
    match (method == b"GET".as_slice(), permanent) {
        (true, false) => 302,
        (true, true) => 301,
        (false, false) => 307,
        (false, true) => 308,
    }
}
