//! The order in which the keys of a table are visited.

ghost use Rattle.std.specs.Prelude.{◌≡◌};
ghost use Rattle.field_tree.specs.Keys.{fold_cmp, walk_cmp};

use std::cmp::Ordering;

/// The order in which keys are visited: by the bytes of their lower-case forms, and of two keys with one
/// such form first the lesser by its bytes as written.
pub fn walk_order(a: &[u8], b: &[u8]) -> Ordering
    ensures { result ≡ walk_cmp a.now b.now }
{
    match fold_order(a, b) {
        Ordering::Less => Ordering::Less,
        Ordering::Equal => a.cmp(b),
        Ordering::Greater => Ordering::Greater,
    }
}

fn fold_order(a: &[u8], b: &[u8]) -> Ordering
    ensures { result ≡ fold_cmp a.now b.now }
{
    let shared = a.len().min(b.len());
    for i in 0..shared {
        let x = a[i].to_ascii_lowercase();
        let y = b[i].to_ascii_lowercase();
        if x < y {
            return Ordering::Less;
        }
        if x > y {
            return Ordering::Greater;
        }
    }
    a.len().cmp(&b.len())
}
