//! The normal form of a path.
ghost use Rattle.std.specs.Prelude.{◌≡◌, [], List, ℕ, OnOk, OnErr, IfErr};
ghost use Rattle.path_norm.specs.Escapes.{HasWholeEscapes};
ghost use Rattle.path_norm.specs.Normal.{IsRooted, Normalises, HasNoDots, IsFaultOf};

use super::Memory;
use super::escapes::first_bad_escape;
use super::segments::{add_segment, cut_segment};

/// Why a path has no normal form.
#[derive(Clone, Copy, Debug, PartialEq, Eq)]
pub enum PathFault {
    /// The first `%` without two hexadecimal digits after it.
    BadEscape { at: usize },
    /// No memory for the normal form of a path whose escapes are whole.
    Memory,
}

/// Replaces `out` by the normal form of a path that begins with a slash: escapes of unreserved
/// bytes are decoded, other escapes get upper-case digits (RFC 3986 section 6.2.2), and then dot
/// segments are removed (section 5.2.4). Repeated slashes stay. After a fault `out` is empty.
pub fn normalise(path: &[u8], out: &mut Vec<u8>) -> Result<(), PathFault>
    requires { IsRooted path.now }
    ensures normal { OnOk result (Normalises path.now out.new.items) }
    ensures no_dots { OnOk result (HasNoDots out.new.items) }
    // Another call on the result changes nothing.
    ensures again { OnOk result (Normalises out.new.items out.new.items) }
    ensures whole { OnOk result (HasWholeEscapes path.now) }
    ensures fault { IfErr result (IsFaultOf path.now) }
    ensures emptied { OnErr result (out.new.items ≡ []) }
{
    out.clear();
    if let Some(at) = first_bad_escape(path) {
        return Err(PathFault::BadEscape { at });
    }
    match write_normal(path, out) {
        Ok(()) => Ok(()),
        Err(_) => {
            out.clear();
            Err(PathFault::Memory)
        }
    }
}

// Appends the normal form of a path whose escapes are whole.
fn write_normal(path: &[u8], out: &mut Vec<u8>) -> Result<(), Memory>
    requires rooted { IsRooted path.now }
    requires whole { HasWholeEscapes path.now }
    requires empty { out.old.items ≡ [] }
    ensures { OnOk result (Normalises path.now out.new.items) }
{
    let mut rest = path;
    let mut ends_in_dots = false;
    while !rest.is_empty() {
        let (segment, after) = cut_segment(rest);
        ends_in_dots = add_segment(segment, out)?;
        rest = after;
    }
    if ends_in_dots {
        out.push(b'/')?;
    }
    Ok(())
}

/// A path has one normal form at most. It begins with a slash, has no dot segment, and is its own
/// normal form.
pub fn normal_paths_are_normal()
    ensures one { (path a b : List ℕ) → Normalises path a → Normalises path b → a ≡ b }
    ensures rooted { (path normal : List ℕ) → IsRooted path → Normalises path normal → IsRooted normal }
    ensures no_dots { (path normal : List ℕ) → IsRooted path → Normalises path normal → HasNoDots normal }
    ensures again { (path normal : List ℕ) → Normalises path normal → Normalises normal normal }
{}
