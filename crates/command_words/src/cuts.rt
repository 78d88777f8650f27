//! Text cut at a byte.
ghost use Rattle.std.specs.Prelude.{◌≡◌, ◌<◌, ◌==◌, Some, None, MatchOption, IfSome, position, length};
ghost use Rattle.command_words.specs.Cuts.{Cut, cut_at as parts_at};

/// What stands before the first such byte, and what stands behind it.
pub(crate) fn cut_at(text: &[u8], byte: u8) -> Option<(&[u8], &[u8])>
    ensures { MatchOption result
        (parts_at byte text.now ≡ None)
        (λ parts. parts_at byte text.now ≡ Some (record { before = parts.0.now; behind = parts.1.now })) }
{
    match place_of(text, byte) {
        Some(at) => Some((&text[..at], &text[at + 1..])),
        None => None,
    }
}

// Where the first such byte stands.
fn place_of(text: &[u8], byte: u8) -> Option<usize>
    ensures value { result ≡ position (λ b. b == byte) text.now }
    ensures within { IfSome result (λ at. at < length text.now) }
{
    text.iter().position(|b| *b == byte)
}
