//! What a request's target and its host text say (RFC 9112 section 3.2).
ghost use Rattle.std.specs.Prelude.{◌≡◌, ◌≤◌, ◌<◌, IfSome, length, take};
ghost use Rattle.std.specs.List.{list_all, position};
ghost use Rattle.std.specs.Option.{option_map};
ghost use Rattle.http_wire.specs.Targets.{is_origin, is_absolute, ends_authority, before_place, from_place, path_and_query, is_question, or_slash, path_of, query_of, host_text_of, is_target_byte, is_bad_target, last_digits, port_of, without_port as text_without_port, host_of_rules as rule_host};

use crate::fields::begins_with;
use px_base::without_last_dot;

/// Whether the target begins with `http://`, without case.
fn has_scheme(target: &[u8]) -> bool
    ensures { result ≡ is_absolute target.now }
{
    begins_with(target, b"http://")
}

fn is_rooted(target: &[u8]) -> bool
    ensures { result ≡ is_origin target.now }
{
    matches!(target, [b'/', ..])
}

// Where the authority at the front ends, if anything stands behind it.
fn authority_end(text: &[u8]) -> Option<usize>
    ensures value { result ≡ position ends_authority text.now }
    ensures within { IfSome result (λ at. at < length text.now) }
{
    text.iter().position(|b| *b == b'/' || *b == b'?')
}

fn authority_in(rest: &[u8]) -> &[u8]
    ensures { result.now ≡ before_place (position ends_authority rest.now) rest.now }
{
    match authority_end(rest) {
        Some(at) => &rest[..at],
        None => rest,
    }
}

fn behind_authority(rest: &[u8]) -> &[u8]
    ensures { result.now ≡ from_place (position ends_authority rest.now) rest.now }
{
    match authority_end(rest) {
        Some(at) => &rest[at..],
        None => b"",
    }
}

/// The host text: the authority of an absolute target, else the value of `Host`.
pub(crate) fn host_text<'a>(target: &'a [u8], host: &'a [u8]) -> &'a [u8]
    ensures { result.now ≡ host_text_of target.now host.now }
{
    if has_scheme(target) {
        authority_in(&target[7..])
    } else {
        host
    }
}

// The target without its scheme and its authority.
fn path_with_query(target: &[u8]) -> &[u8]
    ensures { result.now ≡ path_and_query target.now }
{
    if has_scheme(target) {
        behind_authority(&target[7..])
    } else {
        target
    }
}

/// The path, which is a slash where the target has none, and what stands behind the first question mark.
pub(crate) fn path_and_query_in(target: &[u8]) -> (&[u8], Option<&[u8]>)
    ensures path { result.0.now ≡ path_of target.now }
    ensures query { option_map (λ q. q.now) result.1 ≡ query_of target.now }
{
    let all = path_with_query(target);
    match question_at(all) {
        Some(at) => (slash_if_empty(&all[..at]), Some(&all[at + 1..])),
        None => (slash_if_empty(all), None),
    }
}

fn slash_if_empty(path: &[u8]) -> &[u8]
    ensures { result.now ≡ or_slash path.now }
{
    if path.is_empty() { b"/" } else { path }
}

fn question_at(text: &[u8]) -> Option<usize>
    ensures value { result ≡ position is_question text.now }
    ensures within { IfSome result (λ at. at < length text.now) }
{
    text.iter().position(|b| *b == b'?')
}

/// Whether the proxy doesn't take this target, or this host text with it.
pub(crate) fn is_refused_target(method: &[u8], target: &[u8], host: &[u8]) -> bool
    ensures { result ≡ is_bad_target method.now target.now host.now }
{
    method == b"CONNECT".as_slice()
        || !(is_rooted(target) || has_scheme(target))
        || !has_target_bytes(target)
        || !has_target_bytes(host)
}

fn has_target_bytes(text: &[u8]) -> bool
    ensures { result ≡ list_all is_target_byte text.now }
{
    text.iter().all(|b| *b >= 33 && *b <= 126 && *b != b'#')
}

/// The port of a host text: the digits behind a last colon, else 80.
pub(crate) fn port_in(host: &[u8]) -> &[u8]
    ensures { result.now ≡ port_of host.now }
{
    let digits = digits_at_end(host);
    if digits > 0 && digits < host.len() && host[host.len() - digits - 1] == b':' {
        &host[host.len() - digits..]
    } else {
        b"80"
    }
}

fn digits_at_end(text: &[u8]) -> usize
    ensures within { result ≤ length text.now }
    ensures value { result ≡ last_digits text.now }
{
    text.iter().rev().take_while(|b| b.is_ascii_digit()).count()
}

/// The host that rules see, of a request's host text: without a last `:` that digits alone or nothing follow, and
/// without one last dot.
pub fn host_of_rules(host: &[u8]) -> &[u8]
    ensures { result.now ≡ rule_host host.now }
{
    without_last_dot(without_port(host))
}

/// A host text without its port: without a last `:` that digits alone or nothing follow.
pub fn without_port(host: &[u8]) -> &[u8]
    ensures { result.now ≡ text_without_port host.now }
{
    let digits = digits_at_end(host);
    if digits < host.len() && host[host.len() - digits - 1] == b':' {
        &host[..host.len() - digits - 1]
    } else {
        host
    }
}
