//! Small questions on ASCII text.
ghost use Rattle.std.specs.Prelude.{◌≡◌, ◌≢◌, ◌++◌, ◌∷◌, All, MatchOption};
ghost use Rattle.std.specs.Str.{str_eq_ignore_ascii_case};
ghost use Rattle.px_base.specs.Bytes.{without_dot};

/// Whether two texts are equal without ASCII case.
pub fn fold_equal(a: &[u8], b: &[u8]) -> bool
    ensures { result ≡ str_eq_ignore_ascii_case a.now b.now }
{
    a.eq_ignore_ascii_case(b)
}

/// What stands before the first colon and what stands after it.
pub fn cut_at_colon(text: &[u8]) -> Option<(&[u8], &[u8])>
    ensures { MatchOption result
        (All (λ b. b ≢ 58) text.now)
        (λ parts. (text.now ≡ parts.0.now ++ 58 ∷ parts.1.now) × All (λ b. b ≢ 58) parts.0.now) }
{
    let at = text.iter().position(|b| *b == b':')?;
    Some((&text[..at], &text[at + 1..]))
}

/// The text without one dot at its end, as host names are compared (RFC 1034 section 3.1).
pub fn without_last_dot(text: &[u8]) -> &[u8]
    ensures { result.now ≡ without_dot text.now }
{
    match text {
        [front @ .., b'.'] => front,
        _ => text,
    }
}
