//! Spells content as chunks (RFC 9112, section 7.1).
ghost use Rattle.std.specs.Prelude.{◌≡◌, ◌<◌, ◌++◌, length, OnOk, OnErr};
ghost use Rattle.std.specs.Char.{digit_char};
ghost use Rattle.body_codec.specs.Writing.{size_text, written_chunk, written_last, AppendsPart};

use crate::Memory;

/// Appends a piece of content as one chunk. A piece that is empty would be the last chunk. Where
/// memory runs out `out` may have a part of the chunk at its end.
pub fn write_chunk(piece: &[u8], out: &mut Vec<u8>) -> Result<(), Memory>
    requires { 0 < length piece.now }
    ensures ok { OnOk result (out.new.items ≡ out.old.items ++ written_chunk piece.now) }
    ensures err { OnErr result (AppendsPart out.old.items out.new.items (written_chunk piece.now)) }
{
    write_size(piece.len(), out)?;
    out.extend_from_slice(b"\r\n")?;
    out.extend_from_slice(piece)?;
    out.extend_from_slice(b"\r\n")?;
    Ok(())
}

/// Appends the last chunk, without trailers. Where memory runs out `out` may have a part of it.
pub fn write_last(out: &mut Vec<u8>) -> Result<(), Memory>
    ensures ok { OnOk result (out.new.items ≡ out.old.items ++ written_last) }
    ensures err { OnErr result (AppendsPart out.old.items out.new.items written_last) }
{
    out.extend_from_slice(b"0\r\n\r\n")?;
    Ok(())
}

/// Appends a size in lower-case hexadecimal digits without leading zeros, and nothing for 0.
fn write_size(size: usize, out: &mut Vec<u8>) -> Result<(), Memory>
    ensures ok { OnOk result (out.new.items ≡ out.old.items ++ size_text size) }
    ensures err { OnErr result (AppendsPart out.old.items out.new.items (size_text size)) }
{
    if size == 0 {
        return Ok(());
    }
    write_size(size / 16, out)?;
    out.push(hex_digit((size % 16) as u8))?;
    Ok(())
}

/// The lower-case digit that writes a number below 16.
fn hex_digit(value: u8) -> u8
    requires { value < 16 }
    ensures { result ≡ digit_char value }
{
    if value < 10 {
        b'0' + value
    } else {
        b'a' + (value - 10)
    }
}
