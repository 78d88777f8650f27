//! The lines of a script.
ghost use Rattle.std.specs.Prelude.{◌≡◌, ◌≤◌, ◌↔◌, ◌∷◌, [], IsTrue, length, IfOk, MatchOption};
ghost use Rattle.replay_cmd.specs.Script.{IsCut, IsBlock, IsUnbarred};

use px_base::Memory;
use std::alloc::Global;

/// The line at the front of a text, and what stands behind it.
pub(crate) fn cut_line(text: &[u8]) -> (&[u8], &[u8])
    ensures cut { IsCut text.now result.0.now result.1.now }
    ensures shorter { length result.1.now ≤ length text.now }
{
    match text.iter().position(|b| *b == b'\n') {
        Some(at) => (&text[..at], &text[at + 1..]),
        None => (text, &[]),
    }
}

/// Whether the text has no byte.
pub(crate) fn is_blank(text: &[u8]) -> bool
    ensures { IsTrue result ↔ (text.now ≡ []) }
{
    text.is_empty()
}

/// The lines at the front of the text that stand behind a `|`, without it, and what follows them.
pub(crate) fn take_block(alloc: Global, text: &[u8]) -> Result<(Vec<u8>, &[u8]), Memory>
    ensures block { IfOk result (λ r. IsBlock text.now r.0.items r.1.now) }
    ensures shorter { IfOk result (λ r. length r.1.now ≤ length text.now) }
{
    let mut block = Vec::new(alloc);
    let mut rest = text;
    while let Some(behind) = behind_bar(rest) {
        let (line, more) = cut_line(behind);
        block.extend_from_slice(line)?;
        block.push(b'\n')?;
        rest = more;
    }
    Ok((block, rest))
}

// What stands behind the bar at the front.
fn behind_bar(text: &[u8]) -> Option<&[u8]>
    ensures { MatchOption result (IsUnbarred text.now) (λ behind. text.now ≡ 124 ∷ behind.now) }
{
    match text {
        [b'|', behind @ ..] => Some(behind),
        _ => None,
    }
}
