//! Where a body stands between two bytes, and the step over one byte.
ghost use Rattle.std.specs.Prelude.{◌≡◌, ◌↔◌, IsTrue, ◌+◌, ◌<◌, ◌≤◌, ◌^◌, ◌==◌, if◌then◌else◌};
ghost use Rattle.body_codec.specs.Reading.{after, after_size, after_digits, after_extension, after_name_byte, after_value_byte, is_framing, may_end, IsPhase};

use crate::byte_classes::{hex_digit, is_name, is_value};

/// The most digits of a chunk's size.
const SIZE_DIGITS: u8 = 10;

/// The most bytes of a size line before its CRLF.
const SIZE_LINE: u16 = 256;

/// The most bytes of all trailer lines, with their CRLFs.
const TRAILERS: u16 = 8192;

/// Where a body stands between two bytes.
#[derive(Clone, Copy)]
pub enum Phase {
    /// In a body of a known length, with so many bytes left.
    Length { left: u64 },
    /// In a body that ends with its link.
    ToEnd,
    /// In a chunk's size, after so many digits that write this number.
    Size { digits: u8, size: u64 },
    /// In a chunk's extension, after so many bytes of the size line.
    Extension { size: u64, line: u16 },
    /// Before the LF of a size line.
    SizeLf { size: u64 },
    /// In a chunk, with so many bytes left.
    Data { left: u64 },
    /// Before the CR after a chunk.
    DataCr,
    /// Before the LF after a chunk.
    DataLf,
    /// At the begin of a trailer line or of the last, empty line, after so many bytes of trailers.
    TrailerStart { used: u16 },
    /// In a trailer's name.
    TrailerName { used: u16 },
    /// In a trailer's value.
    TrailerValue { used: u16 },
    /// Before the LF of a trailer line.
    TrailerLf { used: u16 },
    /// Before the LF of the last, empty line.
    EndLf,
    /// At the body's end.
    Done,
    /// After a byte with which no body continues.
    Bad,
}

impl Phase {
    /// Whether the next byte is neither content nor past the body's end.
    pub(crate) fn is_framing(&self) -> bool
        ensures { result ≡ is_framing self.now }
    {
        !matches!(
            self,
            Phase::Length { .. } | Phase::ToEnd | Phase::Data { .. } | Phase::Done
        )
    }

    /// Whether the body ended.
    pub(crate) fn is_done(&self) -> bool
        ensures { IsTrue result ↔ (self.now ≡ Phase.Done) }
    {
        matches!(self, Phase::Done)
    }

    /// Whether the link's end here leaves the body whole.
    pub(crate) fn may_end(&self) -> bool
        ensures { result ≡ may_end self.now }
    {
        matches!(self, Phase::Done | Phase::ToEnd)
    }

    /// The phase after a byte.
    pub(crate) fn after(self, byte: u8) -> Phase
        requires { IsPhase self }
        ensures value { result ≡ after self byte }
        ensures valid { IsPhase result }
    {
        match self {
            Phase::Length { left } => {
                if left == 1 {
                    Phase::Done
                } else {
                    Phase::Length { left: left - 1 }
                }
            }
            Phase::ToEnd => Phase::ToEnd,
            Phase::Size { digits, size } => after_size(digits, size, byte),
            Phase::Extension { size, line } => after_extension(size, line, byte),
            Phase::SizeLf { size } => after_size_line(size, byte),
            Phase::Data { left } => {
                if left == 1 {
                    Phase::DataCr
                } else {
                    Phase::Data { left: left - 1 }
                }
            }
            Phase::DataCr => expect(byte, b'\r', Phase::DataLf),
            Phase::DataLf => expect(byte, b'\n', Phase::Size { digits: 0, size: 0 }),
            Phase::TrailerStart { used } => {
                if byte == b'\r' {
                    Phase::EndLf
                } else {
                    after_name_byte(used, byte)
                }
            }
            Phase::TrailerName { used } => {
                if byte == b':' {
                    Phase::TrailerValue { used: used + 1 }
                } else {
                    after_name_byte(used, byte)
                }
            }
            Phase::TrailerValue { used } => {
                if byte == b'\r' {
                    Phase::TrailerLf { used: used + 1 }
                } else {
                    after_value_byte(used, byte)
                }
            }
            Phase::TrailerLf { used } => expect(
                byte,
                b'\n',
                Phase::TrailerStart { used: used + 1 },
            ),
            Phase::EndLf => expect(byte, b'\n', Phase::Done),
            Phase::Done | Phase::Bad => Phase::Bad,
        }
    }
}

/// The next phase where the one byte came that may come.
fn expect(byte: u8, wanted: u8, next: Phase) -> Phase
    requires { IsPhase next }
    ensures value { result ≡ (if byte == wanted then next else Phase.Bad) }
    ensures valid { IsPhase result }
{
    if byte == wanted { next } else { Phase::Bad }
}

/// In a size, after so many digits.
#[tactic(auto, using(crate::proofs::Runs::size_bound, crate::proofs::Runs::size_more))]
fn after_size(digits: u8, size: u64, byte: u8) -> Phase
    requires { IsPhase (Phase.Size digits size) }
    ensures value { result ≡ after_size digits size byte }
    ensures valid { IsPhase result }
{
    match hex_digit(byte) {
        Some(value) if digits < SIZE_DIGITS => Phase::Size {
            digits: digits + 1,
            size: size * 16 + value as u64,
        },
        Some(_) => Phase::Bad,
        None => after_digits(digits, size, byte),
    }
}

/// After a size's digits, at a byte that is no digit.
#[tactic(auto, using(crate::proofs::Runs::size_bound))]
fn after_digits(digits: u8, size: u64, byte: u8) -> Phase
    requires { IsPhase (Phase.Size digits size) }
    ensures value { result ≡ after_digits digits size byte }
    ensures valid { IsPhase result }
{
    if digits == 0 {
        return Phase::Bad;
    }
    match byte {
        b'\r' => Phase::SizeLf { size },
        b';' => Phase::Extension {
            size,
            line: digits as u16 + 1,
        },
        _ => Phase::Bad,
    }
}

/// In an extension, after so many bytes of the size line.
fn after_extension(size: u64, line: u16, byte: u8) -> Phase
    requires { IsPhase (Phase.Extension size line) }
    ensures value { result ≡ after_extension size line byte }
    ensures valid { IsPhase result }
{
    match byte {
        b'\r' => Phase::SizeLf { size },
        b'\n' => Phase::Bad,
        _ if line < SIZE_LINE => Phase::Extension {
            size,
            line: line + 1,
        },
        _ => Phase::Bad,
    }
}

/// After the CR of a size line: a chunk of size 0 is the last.
fn after_size_line(size: u64, byte: u8) -> Phase
    requires { IsPhase (Phase.SizeLf size) }
    ensures value { result ≡ after (Phase.SizeLf size) byte }
    ensures valid { IsPhase result }
{
    if byte != b'\n' {
        Phase::Bad
    } else if size == 0 {
        Phase::TrailerStart { used: 0 }
    } else {
        Phase::Data { left: size }
    }
}

/// A byte of a trailer's name, with room for a colon and CRLF after it.
fn after_name_byte(used: u16, byte: u8) -> Phase
    requires { used ≤ 8192 }
    ensures value { result ≡ after_name_byte used byte }
    ensures valid { IsPhase result }
{
    if is_name(byte) && used + 4 <= TRAILERS {
        Phase::TrailerName { used: used + 1 }
    } else {
        Phase::Bad
    }
}

/// A byte of a trailer's value, with room for CRLF after it.
fn after_value_byte(used: u16, byte: u8) -> Phase
    requires { used ≤ 8192 }
    ensures value { result ≡ after_value_byte used byte }
    ensures valid { IsPhase result }
{
    if is_value(byte) && used + 3 <= TRAILERS {
        Phase::TrailerValue { used: used + 1 }
    } else {
        Phase::Bad
    }
}
