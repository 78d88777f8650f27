//! One call of a rule, asked of a request.
ghost use Rattle.std.specs.Prelude.{◌≡◌, ◌++◌, ◌↔◌, ℕ, List, Any, IsTrue, IfOk, IsOk, bytes_eq};
ghost use Rattle.std.specs.List.{list_any};
ghost use Rattle.std.specs.Str.{str_to_ascii_lowercase, str_to_ascii_uppercase};
ghost use Rattle.head_view.specs.Lines.{values_of};
ghost use Rattle.head_view.specs.Views.{view_lines};
ghost use Rattle.rule_eval.specs.Calls.{is_plain};
ghost use Rattle.rule_eval.specs.Checks.{probe_call};
ghost use Rattle.px_base.specs.Bytes.{without_dot};
ghost use Rattle.rule_eval.specs.Patterns.{finds as is_found_in_bytes};
ghost use Rattle.rule_eval.specs.Truth.{Truth, IsPeerIn, asked_of};
ghost use Rattle.rule_eval.specs.Views.{pattern_text};

use crate::method::UpperMethod;
use crate::network::Network;
use crate::pairs::{has_pair, is_found_in_pairs};
use crate::pattern::Pattern;
use crate::probe::Probe;
use head_view::RequestView;
use ip_net::{Ip, contains};
use px_base::{Memory, fold_equal, without_last_dot};
use std::alloc::Global;

// Whether a call is true. A plain one takes no memory.
pub(crate) fn is_met(
    alloc: Global,
    probe: &Probe,
    view: &RequestView<'_>,
    peer: Ip,
) -> Result<bool, Memory>
    ensures truth { IfOk result (λ met. IsTrue met ↔ Truth (probe_call probe.now) (asked_of view.now) peer) }
    ensures plain { IsTrue (is_plain (probe_call probe.now)) → IsOk result }
{
    match probe {
        Probe::Header(words) => Ok(has_value(view, words.key.as_slice(), words.value.as_slice())),
        Probe::HeaderRegexp(search) => {
            is_found_in_values(alloc, view, search.key.as_slice(), &search.pattern)
        }
        Probe::Host(words) => Ok(is_host(view.host, words.value.as_slice())),
        Probe::HostRegexp(search) => is_found_in_host(alloc, view.host, &search.pattern),
        Probe::Method(words) => Ok(is_method(view.method, words)),
        Probe::Path(words) => Ok(view.path == words.value.as_slice()),
        Probe::PathPrefix(words) => Ok(begins_with(view.path, words.value.as_slice())),
        Probe::PathRegexp(search) => finds(alloc, &search.pattern, view.path),
        Probe::Query(words) => has_pair(
            alloc,
            view.query,
            words.key.as_slice(),
            words.value.as_slice(),
        ),
        Probe::QueryRegexp(search) => {
            is_found_in_pairs(alloc, view.query, search.key.as_slice(), &search.pattern)
        }
        Probe::ClientIp(network) => Ok(has_peer(network, peer)),
    }
}

// Whether one value of the field is this one.
fn has_value(view: &RequestView<'_>, key: &[u8], value: &[u8]) -> bool
    ensures { IsTrue result ↔ Any (λ v. v ≡ value.now) (values_of key.now (view_lines view.now)) }
{
    any_is(view, key, value)
}

fn any_is(view: &RequestView<'_>, key: &[u8], value: &[u8]) -> bool
    ensures { result ≡ list_any (λ v. bytes_eq v value.now) (values_of key.now (view_lines view.now)) }
{
    'values: for found in view.field(key) {
        if found == value {
            return true;
        }
    }
    false
}

// Whether the pattern is found in one value of the field that is UTF-8.
fn is_found_in_values(
    alloc: Global,
    view: &RequestView<'_>,
    key: &[u8],
    pattern: &Pattern,
) -> Result<bool, Memory>
    ensures { IfOk result (λ found. IsTrue found ↔ Any (λ v.
        IsTrue (is_found_in_bytes (pattern_text pattern.now) v)) (values_of key.now (view_lines view.now))) }
{
    any_finds(alloc, view, key, pattern)
}

fn any_finds(
    alloc: Global,
    view: &RequestView<'_>,
    key: &[u8],
    pattern: &Pattern,
) -> Result<bool, Memory>
    ensures { IfOk result (λ found. found
        ≡ list_any (is_found_in_bytes (pattern_text pattern.now)) (values_of key.now (view_lines view.now))) }
{
    'values: for value in view.field(key) {
        if finds(alloc, pattern, value)? {
            return Ok(true);
        }
    }
    Ok(false)
}

// Whether the bytes are UTF-8, and the pattern is found in them.
pub(crate) fn finds(alloc: Global, pattern: &Pattern, bytes: &[u8]) -> Result<bool, Memory>
    ensures { IfOk result (λ found. found ≡ is_found_in_bytes (pattern_text pattern.now) bytes.now) }
{
    match std::str::from_utf8(bytes) {
        Ok(text) => pattern.is_found(alloc, text),
        Err(_) => Ok(false),
    }
}

// Whether the host is the wanted one without its last dot, without ASCII case.
fn is_host(host: &[u8], wanted: &[u8]) -> bool
    ensures { IsTrue result
        ↔ (str_to_ascii_lowercase host.now ≡ str_to_ascii_lowercase (without_dot wanted.now)) }
{
    fold_equal(host, without_last_dot(wanted))
}

// Whether the pattern is found in the lower-cased host.
fn is_found_in_host(alloc: Global, host: &[u8], pattern: &Pattern) -> Result<bool, Memory>
    ensures { IfOk result (λ found. found
        ≡ is_found_in_bytes (pattern_text pattern.now) (str_to_ascii_lowercase host.now)) }
{
    let lower = lower_case(alloc, host)?;
    finds(alloc, pattern, lower.as_slice())
}

fn lower_case(alloc: Global, text: &[u8]) -> Result<Vec<u8>, Memory>
    ensures { IfOk result (λ lower. lower.items ≡ str_to_ascii_lowercase text.now) }
{
    text.iter()
        .map(|byte| byte.to_ascii_lowercase())
        .collect(alloc)
}

// Whether the method is the wanted one in upper case.
fn is_method(method: &[u8], wanted: &UpperMethod) -> bool
    ensures { IsTrue result ↔ (method.now ≡ str_to_ascii_uppercase wanted.now.value) }
{
    method == wanted.upper.as_slice()
}

// Whether the path begins with these bytes.
fn begins_with(path: &[u8], front: &[u8]) -> bool
    ensures { IsTrue result ↔ ((rest : List ℕ) × (path.now ≡ front.now ++ rest)) }
{
    path.starts_with(front)
}

// Whether the peer's address is in the network.
fn has_peer(network: &Network, peer: Ip) -> bool
    ensures { IsTrue result ↔ IsPeerIn network.now.text peer }
{
    contains(&network.net, peer)
}
