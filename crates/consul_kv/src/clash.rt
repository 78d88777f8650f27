// Keys that can't stand in one tree.
ghost use Rattle.std.specs.Prelude.{◌≡◌, ◌<◌, map, length, drop, Option, None, Some, MatchOption, IsTrue, ◌↔◌, option_map};
ghost use Rattle.consul_kv.specs.Keys.{HasNoClash, IsFirstClash, path_of as path_in};
ghost use Rattle.consul_kv.specs.Pairs.{pair_view};
ghost use Rattle.consul_kv.specs.Sorted.{AreKeysSorted, IsFound, lesser_of};

use crate::element::Pair;
use crate::keys::{has_empty_part, leads};
use std::cmp::Ordering;

/// The least key, by its bytes, that has an empty part, occurs twice or is the parent of another key.
pub(crate) fn first_clash<'a>(root: &[u8], pairs: &[Pair<'a>]) -> Option<&'a [u8]>
    requires { AreKeysSorted (map pair_view pairs.now) }
    ensures { MatchOption result
        (HasNoClash root.now (map pair_view pairs.now))
        (λ key. IsFirstClash root.now (map pair_view pairs.now) key.now) }
{
    let mut least: Option<&'a [u8]> = None;
    for at in 0..pairs.len() {
        if is_found(root, pairs, at) {
            least = Some(lesser(least, pairs[at].key));
        }
    }
    least
}

// Whether the key has an empty part, or leads to the next one. Of keys that clash one leads to the next.
fn is_found(root: &[u8], pairs: &[Pair<'_>], at: usize) -> bool
    requires { at < length pairs.now }
    ensures { IsTrue result ↔ IsFound root.now (map pair_view pairs.now) at }
{
    let key = pairs[at].key;
    has_empty_part(path_of(root, key)) || (at + 1 < pairs.len() && leads(key, pairs[at + 1].key))
}

/// What a key names below the root.
pub(crate) fn path_of<'a>(root: &[u8], key: &'a [u8]) -> &'a [u8]
    ensures { result.now ≡ path_in root.now key.now }
{
    behind(key, root.len() + 1)
}

/// What stands behind so many bytes.
pub(crate) fn behind(text: &[u8], len: usize) -> &[u8]
    ensures { result.now ≡ drop len text.now }
{
    text.get(len..).unwrap_or_default()
}

fn lesser<'a>(least: Option<&'a [u8]>, key: &'a [u8]) -> &'a [u8]
    ensures { result.now ≡ lesser_of (option_map (λ k. k.now) least.entry) key.now }
{
    match least {
        None => key,
        Some(least) => match key.cmp(least) {
            Ordering::Less => key,
            Ordering::Equal => least,
            Ordering::Greater => least,
        },
    }
}
