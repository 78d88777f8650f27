// Keys of a store, whose parts stand between slashes.
ghost use Rattle.std.specs.Prelude.{◌≡◌};
ghost use Rattle.consul_kv.specs.Keys.{is_counted as is_counted_in, has_empty_part as lacks_part, leads as leads_to, is_below as is_below_in, key_cmp, rank as rank_of};

use std::cmp::Ordering;

/// Whether a key stands below the root and names no folder.
pub(crate) fn is_counted(root: &[u8], key: &[u8]) -> bool
    ensures { result ≡ is_counted_in root.now key.now }
{
    root.len() < key.len()
        && &key[..root.len()] == root
        && key[root.len()] == b'/'
        && key[key.len() - 1] != b'/'
}

/// Whether a part of a path is empty.
pub(crate) fn has_empty_part(path: &[u8]) -> bool
    ensures { result ≡ lacks_part path.now }
{
    let mut fresh = true;
    for b in path {
        if *b == b'/' {
            if fresh {
                return true;
            }
            fresh = true;
        } else {
            fresh = false;
        }
    }
    false
}

/// Whether a key is this one, or stands below it.
pub(crate) fn leads(parent: &[u8], key: &[u8]) -> bool
    ensures { result ≡ leads_to parent.now key.now }
{
    key == parent || is_below(parent, key)
}

/// Whether a key goes on behind this one with a slash.
pub(crate) fn is_below(parent: &[u8], key: &[u8]) -> bool
    ensures { result ≡ is_below_in parent.now key.now }
{
    parent.len() < key.len() && &key[..parent.len()] == parent && key[parent.len()] == b'/'
}

/// The order in which a key stands right before the keys below it.
pub(crate) fn key_order(a: &[u8], b: &[u8]) -> Ordering
    ensures { result ≡ key_cmp a.now b.now }
{
    let shared = a.len().min(b.len());
    for i in 0..shared {
        let x = rank(a[i]);
        let y = rank(b[i]);
        if x < y {
            return Ordering::Less;
        }
        if x > y {
            return Ordering::Greater;
        }
    }
    a.len().cmp(&b.len())
}

fn rank(b: u8) -> u16
    ensures { result ≡ rank_of b }
{
    if b == b'/' { 0 } else { u16::from(b) + 1 }
}
