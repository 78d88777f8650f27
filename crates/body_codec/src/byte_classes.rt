//! The classes of bytes in a chunked body.
ghost use Rattle.std.specs.Prelude.{◌≡◌, ◌<◌, ◌≤◌, MatchOption};
ghost use Rattle.body_codec.specs.Bytes.{hex_value, is_name_mark, is_name_byte, is_value_byte};

/// The value of a hexadecimal digit of either case.
#[tactic(auto, unfolding(crate::specs::Bytes::hex_value))]
pub(crate) fn hex_digit(byte: u8) -> Option<u8>
    ensures { MatchOption result (16 ≤ hex_value byte) (λ d. (d < 16) × (d ≡ hex_value byte)) }
{
    match byte {
        b'0'..=b'9' => Some(byte - b'0'),
        b'a'..=b'f' => Some(byte - b'a' + 10),
        b'A'..=b'F' => Some(byte - b'A' + 10),
        _ => None,
    }
}

/// Whether a byte may stand in a field's name: a `tchar` (RFC 9110, section 5.6.2).
#[tactic(auto, unfolding(crate::specs::Bytes::is_name_byte))]
pub(crate) fn is_name(byte: u8) -> bool
    ensures { result ≡ is_name_byte byte }
{
    byte.is_ascii_alphanumeric() || is_name_mark(byte)
}

/// Whether a byte is one of the marks among the `tchar`.
#[tactic(auto, unfolding(crate::specs::Bytes::is_name_mark))]
fn is_name_mark(byte: u8) -> bool
    ensures { result ≡ is_name_mark byte }
{
    b"!#$%&'*+-.^_`|~".iter().any(|mark| *mark == byte)
}

/// Whether a byte may stand in a field's value (RFC 9110, section 5.5).
#[tactic(auto, unfolding(crate::specs::Bytes::is_value_byte))]
pub(crate) fn is_value(byte: u8) -> bool
    ensures { result ≡ is_value_byte byte }
{
    byte == b'\t' || (32 <= byte && byte <= 126) || (128 <= byte && byte <= 255)
}
