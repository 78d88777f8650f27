//! Keys with more slashes than a tree may have levels.
ghost use Rattle.std.specs.Prelude.{◌≡◌, map};
ghost use Rattle.serde_json.specs.View.{view as data_of};
ghost use Rattle.consul_kv.specs.Depths.{deep_place as first_deep, has_many_slashes as has_too_many, is_deep as is_deep_element};

use crate::clash::path_of;
use crate::element::key_of;
use crate::keys::is_counted;
use serde_json::Value;

/// The most slashes that a key may have below the root.
const MOST_SLASHES: usize = 255;

/// The place of the first element whose key counts and has too many slashes below the root.
pub(crate) fn deep_place(elements: &[Value], root: &[u8]) -> Option<usize>
    ensures { result ≡ first_deep root.now (map data_of elements.now) }
{
    for (at, element) in elements.iter().enumerate() {
        if is_deep(element, root) {
            return Some(at);
        }
    }
    None
}

fn is_deep(element: &Value, root: &[u8]) -> bool
    ensures { result ≡ is_deep_element root.now (data_of element.now) }
{
    match key_of(element) {
        Some(key) => is_counted(root, key) && has_many_slashes(path_of(root, key)),
        None => false,
    }
}

fn has_many_slashes(path: &[u8]) -> bool
    ensures { result ≡ has_too_many path.now }
{
    path.iter().filter(|b| **b == b'/').count() > MOST_SLASHES
}
