//! The segments of a path, and dot segments among them.
ghost use Rattle.std.specs.Prelude.{◌≡◌, ◌≢◌, ℕ, ◌<◌, ◌≤◌, slice_index, ◌++◌, ◌∷◌, ◌⊎◌, [], List, length, IfOk, vec_len};
ghost use Rattle.std.specs.List.{AllByRecursion};
ghost use Rattle.path_norm.specs.Escapes.{Piece, AreSegment, segment_text, segment_written, HasWholeEscapes};
ghost use Rattle.path_norm.specs.Dots.{path_of, is_dots, with_segment};
ghost use Rattle.path_norm.specs.Asked.{dots_of as dots_it_is};
ghost use Rattle.path_norm.specs.Normal.{IsRooted, IsSlashless};

use super::Memory;
use super::escapes::write_segment;

// The first segment of what is left of a path, without its slash, and what follows it.
pub(crate) fn cut_segment(rest: &[u8]) -> (&[u8], &[u8])
    requires rooted { IsRooted rest.now }
    requires whole { HasWholeEscapes rest.now }
    ensures cut { rest.now ≡ (47 ∷ result.0.now) ++ result.1.now }
    ensures slashless { IsSlashless result.0.now }
    ensures whole { HasWholeEscapes result.0.now }
    ensures begins { (result.1.now ≡ []) ⊎ IsRooted result.1.now }
{
    let tail = &rest[1..];
    tail.split_at(segment_len(tail))
}

// The length of the segment that the text begins with.
fn segment_len(text: &[u8]) -> usize
    ensures within { result ≤ length text.now }
    ensures before { (k : ℕ) → k < result → slice_index text.now k ≢ 47 }
    ensures slash { result < length text.now → slice_index text.now result ≡ 47 }
{
    for (i, byte) in text.iter().enumerate() {
        if *byte == b'/' {
            return i;
        }
    }
    text.len()
}

// Adds a segment to the normal path so far, and says whether it was a dot segment.
pub(crate) fn add_segment(segment: &[u8], out: &mut Vec<u8>) -> Result<bool, Memory>
    requires whole { HasWholeEscapes segment.now }
    requires slashless { IsSlashless segment.now }
    ensures { IfOk result (λ dots. (pieces : List Piece) × AreSegment pieces
        × (segment.now ≡ segment_text pieces)
        × ((stack : List (List ℕ)) → AllByRecursion IsSlashless stack → out.old.items ≡ path_of stack
        → (dots ≡ is_dots (segment_written pieces))
        × (out.new.items ≡ path_of (with_segment stack (segment_written pieces))))) }
{
    let start = out.as_slice().len();
    out.push(b'/')?;
    write_segment(segment, out)?;
    Ok(close_segment(out, start))
}

// Takes a dot segment back, and with `..` the one before it. The last segment's slash is at `start`.
fn close_segment(out: &mut Vec<u8>, start: usize) -> bool
    requires { start < vec_len out.old }
    ensures { (stack : List (List ℕ)) (s : List ℕ) → AllByRecursion IsSlashless stack
        → out.old.items ≡ path_of stack ++ 47 ∷ s → start ≡ length (path_of stack)
        → (result ≡ is_dots s) × (out.new.items ≡ path_of (with_segment stack s)) }
{
    match dots_of(&out.as_slice()[start + 1..]) {
        Dots::None => false,
        Dots::Here => {
            out.truncate(start);
            true
        }
        Dots::Parent => {
            let parent = parent_len(&out.as_slice()[..start]);
            out.truncate(parent);
            true
        }
    }
}

// What a segment asks for.
#[derive(Clone, Copy)]
enum Dots {
    None,
    Here,
    Parent,
}

fn dots_of(segment: &[u8]) -> Dots
    ensures { result ≡ dots_it_is segment.now }
{
    match segment {
        b"." => Dots::Here,
        b".." => Dots::Parent,
        _ => Dots::None,
    }
}

// Where the last slash stands.
fn parent_len(path: &[u8]) -> usize
    ensures last { (before s : List ℕ) → IsSlashless s → path.now ≡ before ++ 47 ∷ s
        → result ≡ length before }
    ensures none { path.now ≡ [] → result ≡ 0 }
{
    let mut len = path.len();
    while len > 0 {
        len -= 1;
        if path[len] == b'/' {
            return len;
        }
    }
    0
}
