//! Bodies written by hand from RFC 9112, section 7.1, and what they give however they are cut.
use crate::{Body, BodyStep, Framing, write_chunk, write_last};
use std::alloc::{AllocError, Global};
use std::process::Abort;
use std::test::*;

/// How the bytes of a body end.
#[derive(Clone, Copy, Debug, PartialEq, Eq)]
enum Ending {
    /// The body is done after so many of them.
    Done(usize),
    /// The body may go on.
    Open,
    /// The byte at this place is the first that is bad.
    Bad(usize),
}

/// Feeds these bytes and appends their content.
fn feed_all(body: &mut Body, bytes: &[u8], content: &mut Vec<u8>) -> Result<Ending, AllocError> {
    let mut rest = bytes;
    let mut at: usize = 0;
    for _ in 0..bytes.len() {
        match body.feed(rest) {
            BodyStep::Took {
                used,
                from,
                len,
                done,
            } => {
                content.extend_from_slice(&rest[from..from + len])?;
                rest = &rest[used..];
                at = at.wrapping_add(used);
                if done {
                    return Ok(Ending::Done(at));
                }
            }
            BodyStep::Bad { at: place } => return Ok(Ending::Bad(at.wrapping_add(place))),
        }
    }
    Ok(Ending::Open)
}

/// Feeds these bytes in two pieces.
fn feed_cut(
    framing: Framing,
    bytes: &[u8],
    cut: usize,
    content: &mut Vec<u8>,
) -> Result<Ending, AllocError> {
    let (front, back) = bytes.split_at(cut.min(bytes.len()));
    let mut body = Body::new(framing);
    let ending = feed_all(&mut body, front, content)?;
    if ending != Ending::Open {
        return Ok(ending);
    }
    match feed_all(&mut body, back, content)? {
        Ending::Done(at) => Ok(Ending::Done(cut.wrapping_add(at))),
        Ending::Bad(at) => Ok(Ending::Bad(cut.wrapping_add(at))),
        Ending::Open => Ok(Ending::Open),
    }
}

/// Checks a body at every cut.
fn check(
    rt: &impl Abort,
    framing: Framing,
    bytes: &[u8],
    ending: Ending,
    wanted: &[u8],
    content: &mut Vec<u8>,
) -> Result<(), AllocError> {
    for cut in 0..bytes.len() {
        content.clear();
        let found = feed_cut(framing, bytes, cut, content)?;
        assert!(rt; found == ending);
        assert!(rt; content.as_slice() == wanted);
    }
    Ok(())
}

#[test]
fn reads(rt: HostRuntime) -> Result<(), Fail> {
    let content = &mut Vec::new(rt.alloc());
    let whole = [
        (b"5\r\nhello\r\n0\r\n\r\n".as_slice(), b"hello".as_slice()),
        (
            b"1\r\na\r\n0000000002;x=\"y\"\r\nbc\r\n0\r\n\r\n".as_slice(),
            b"abc".as_slice(),
        ),
        (
            b"A\r\n0123456789\r\n000;last\r\nName: v \t\x80\xff\r\n!#$%&'*+-.^_`|~09AZaz:\r\n\r\n".as_slice(),
            b"0123456789".as_slice(),
        ),
        (b"00\r\n\r\n".as_slice(), b"".as_slice()),
    ];
    for (bytes, wanted) in whole {
        check(
            &rt,
            Framing::Chunked,
            bytes,
            Ending::Done(bytes.len()),
            wanted,
            content,
        )?;
    }
    let hostile = [
        (b"5\r\nhelloX".as_slice(), 8, b"hello".as_slice()),
        (b"0x5\r\n".as_slice(), 1, b"".as_slice()),
        (b"5 \r\n".as_slice(), 1, b"".as_slice()),
        (b"+5\r\n".as_slice(), 0, b"".as_slice()),
        (b" 5\r\n".as_slice(), 0, b"".as_slice()),
        (b"00000000005\r\n".as_slice(), 10, b"".as_slice()),
        (b"5\nhello".as_slice(), 1, b"".as_slice()),
        (b"5\r\nhello\n".as_slice(), 8, b"hello".as_slice()),
        (b"\r\n".as_slice(), 0, b"".as_slice()),
        (b";x\r\n".as_slice(), 0, b"".as_slice()),
        (b"5;a\nb".as_slice(), 3, b"".as_slice()),
        (b"5;a\rb".as_slice(), 4, b"".as_slice()),
        (b"0\r\n0\r\n\r\n".as_slice(), 4, b"".as_slice()),
        (b"0\r\na: b\r\n c\r\n\r\n".as_slice(), 9, b"".as_slice()),
        (b"0\r\na: \0\r\n\r\n".as_slice(), 6, b"".as_slice()),
        (b"0\r\na: \x7f\r\n\r\n".as_slice(), 6, b"".as_slice()),
        (b"0\r\n: b\r\n\r\n".as_slice(), 3, b"".as_slice()),
        (b"0\r\na : b\r\n\r\n".as_slice(), 4, b"".as_slice()),
        (b"0\r\n\rX".as_slice(), 4, b"".as_slice()),
    ];
    for (bytes, place, wanted) in hostile {
        check(
            &rt,
            Framing::Chunked,
            bytes,
            Ending::Bad(place),
            wanted,
            content,
        )?;
    }
    check(
        &rt,
        Framing::Chunked,
        b"FFFFFFFFFF\r\nabc",
        Ending::Open,
        b"abc",
        content,
    )?;
    check(
        &rt,
        Framing::Length(5),
        b"hello",
        Ending::Done(5),
        b"hello",
        content,
    )?;
    check(
        &rt,
        Framing::Length(u64::MAX),
        b"hello",
        Ending::Open,
        b"hello",
        content,
    )?;
    check(
        &rt,
        Framing::ToEnd,
        b"hello",
        Ending::Open,
        b"hello",
        content,
    )?;
    Ok(())
}

/// Checks a body with so many bytes `x` between two texts.
fn check_padded(
    rt: &impl Abort,
    front: &[u8],
    middle: usize,
    back: &[u8],
    ending: Ending,
    bytes: &mut Vec<u8>,
) -> Result<(), AllocError> {
    bytes.clear();
    bytes.extend_from_slice(front)?;
    for _ in 0..middle {
        bytes.push(b'x')?;
    }
    bytes.extend_from_slice(back)?;
    let mut content = Vec::new(*bytes.allocator());
    let found = feed_cut(Framing::Chunked, bytes, 100, &mut content)?;
    assert!(rt; found == ending);
    Ok(())
}

/// A body whose one extension has every byte but CR and LF.
fn every_extension_byte(bytes: &mut Vec<u8>) -> Result<(), AllocError> {
    bytes.clear();
    bytes.extend_from_slice(b"1;")?;
    for byte in 0..=255u8 {
        if byte != b'\r' && byte != b'\n' {
            bytes.push(byte)?;
        }
    }
    bytes.extend_from_slice(b"\r\nc\r\n0\r\n\r\n")
}

/// Checks the answers of calls one after another.
fn check_steps(rt: &impl Abort, steps: &[(&[u8], BodyStep)]) {
    let mut body = Body::new(Framing::Chunked);
    for (piece, step) in steps {
        let found = body.feed(piece);
        assert!(rt; found == *step);
    }
}

/// A body that the writers wrote, of these pieces.
fn written(pieces: &[&[u8]], bytes: &mut Vec<u8>) -> Result<(), AllocError> {
    bytes.clear();
    for piece in pieces {
        if !piece.is_empty() {
            write_chunk(piece, bytes)?;
        }
    }
    write_last(bytes)
}

/// Checks bodies at the limits.
fn limits(rt: &impl Abort, alloc: Global) -> Result<(), AllocError> {
    let content = &mut Vec::new(alloc);
    let bytes = &mut Vec::new(alloc);
    let padded = [
        // A size line of 256 bytes, and of 257.
        (
            b"1;".as_slice(),
            254,
            b"\r\nc\r\n0\r\n\r\n".as_slice(),
            Ending::Done(266),
        ),
        (
            b"1;".as_slice(),
            255,
            b"\r\nc\r\n0\r\n\r\n".as_slice(),
            Ending::Bad(256),
        ),
        // Trailers of 8,192 bytes, and of 8,193.
        (
            b"0\r\na:b\r\nc:".as_slice(),
            8183,
            b"\r\n\r\n".as_slice(),
            Ending::Done(8197),
        ),
        (
            b"0\r\na:b\r\nc:".as_slice(),
            8184,
            b"\r\n\r\n".as_slice(),
            Ending::Bad(8193),
        ),
        (
            b"0\r\n".as_slice(),
            8190,
            b":\r\n\r\n".as_slice(),
            Ending::Bad(8192),
        ),
    ];
    for (front, middle, back, ending) in padded {
        check_padded(rt, front, middle, back, ending, bytes)?;
    }
    every_extension_byte(bytes)?;
    check(
        rt,
        Framing::Chunked,
        bytes,
        Ending::Done(266),
        b"c",
        content,
    )
}

/// Checks single calls.
fn calls(rt: &impl Abort) {
    check_steps(
        rt,
        &[
            (
                b"".as_slice(),
                BodyStep::Took {
                    used: 0,
                    from: 0,
                    len: 0,
                    done: false,
                },
            ),
            (
                b"2\r\nab\r\n0\r\n\r\nX".as_slice(),
                BodyStep::Took {
                    used: 5,
                    from: 3,
                    len: 2,
                    done: false,
                },
            ),
            (
                b"\r\n0\r\n\r\nX".as_slice(),
                BodyStep::Took {
                    used: 7,
                    from: 7,
                    len: 0,
                    done: true,
                },
            ),
            (
                b"X".as_slice(),
                BodyStep::Took {
                    used: 0,
                    from: 0,
                    len: 0,
                    done: true,
                },
            ),
        ],
    );
    check_steps(
        rt,
        &[
            (
                b"2\r\nab".as_slice(),
                BodyStep::Took {
                    used: 5,
                    from: 3,
                    len: 2,
                    done: false,
                },
            ),
            (b"X".as_slice(), BodyStep::Bad { at: 0 }),
            (b"".as_slice(), BodyStep::Bad { at: 0 }),
            (b"\r\n".as_slice(), BodyStep::Bad { at: 0 }),
        ],
    );
    let endings = [
        (Framing::None, true),
        (Framing::Length(0), true),
        (Framing::Length(1), false),
        (Framing::Chunked, false),
        (Framing::ToEnd, true),
    ];
    for (framing, ends) in endings {
        let found = Body::new(framing).ends_here();
        assert!(rt; found == ends);
    }
}

#[test]
fn answers(rt: HostRuntime) -> Result<(), Fail> {
    limits(&rt, rt.alloc())?;
    calls(&rt);
    let bytes = &mut Vec::new(rt.alloc());
    written(&[b"hello".as_slice(), [b'x'; 27].as_slice()], bytes)?;
    assert!(rt;
        bytes.as_slice()
            == b"5\r\nhello\r\n1b\r\nxxxxxxxxxxxxxxxxxxxxxxxxxxx\r\n0\r\n\r\n".as_slice()
    );
    Ok(())
}
