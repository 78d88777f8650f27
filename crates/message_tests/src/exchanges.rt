//! Exchanges: replies in one piece and byte by byte, and what breaks them.
use back_machine::{Back, BackCause, BackState};
use body_codec::Framing;
use http_wire::{FieldLines, Request};
use px_base::{Bytes, Server};
use std::alloc::{AllocError, Global};
use std::process::Abort;
use std::test::Fail;

// An exchange with a server at this port.
fn exchange(alloc: Global, port: u16) -> Result<Back, AllocError> {
    let request = Request {
        method: Bytes::from_slice(alloc, b"GET")?,
        host: Bytes::from_slice(alloc, b"a.test")?,
        path: Bytes::from_slice(alloc, b"/")?,
        query: None,
        lines: FieldLines::new(alloc),
        framing: Framing::None,
        version: 1,
        keep: true,
    };
    let server = Server {
        host: Bytes::from_slice(alloc, b"127.0.0.1")?,
        port,
        weight: 1,
    };
    Back::new(alloc, &request, &server, false)
}

// Feeds a piece, and appends its content.
fn feed(alloc: Global, back: &mut Back, piece: &[u8], out: &mut Vec<u8>) -> Result<(), AllocError> {
    if back.state().is_open() {
        let content = back.bytes(alloc, piece)?;
        out.extend_from_slice(&piece[content.from..content.from + content.len])?;
    }
    Ok(())
}

fn sending(rt: &impl Abort, alloc: Global) -> Result<(), Fail> {
    let plain = exchange(alloc, 80)?;
    let text = b"GET / HTTP/1.1\r\nHost: 127.0.0.1\r\nConnection: close\r\n\r\n".as_slice();
    assert_eq!(rt; plain.pending(), text);
    let mut other = exchange(alloc, 9000)?;
    if other.pending().len() > 16 {
        other.took(16);
    }
    let rest = b"Host: 127.0.0.1:9000\r\nConnection: close\r\n\r\n".as_slice();
    assert_eq!(rt; other.pending(), rest);
    Ok(())
}

fn expect_ok(rt: &impl Abort, back: &Back, out: &[u8]) {
    assert_eq!(rt; back.state(), BackState::Done);
    assert_eq!(rt; out, b"ok".as_slice());
    match back.reply() {
        Some(reply) => assert_eq!(rt; reply.status, 200),
        None => panic!(rt; "a reply"),
    }
}

fn one_piece(rt: &impl Abort, alloc: Global, text: &[u8]) -> Result<(), Fail> {
    let mut back = exchange(alloc, 80)?;
    let mut out = Vec::new(alloc);
    feed(alloc, &mut back, text, &mut out)?;
    expect_ok(rt, &back, &out);
    Ok(())
}

fn byte_by_byte(rt: &impl Abort, alloc: Global, text: &[u8]) -> Result<(), Fail> {
    let mut back = exchange(alloc, 80)?;
    let mut out = Vec::new(alloc);
    for byte in text {
        feed(alloc, &mut back, &[*byte], &mut out)?;
    }
    expect_ok(rt, &back, &out);
    Ok(())
}

fn state_after(alloc: Global, text: &[u8]) -> Result<BackState, AllocError> {
    let mut back = exchange(alloc, 80)?;
    let mut out = Vec::new(alloc);
    feed(alloc, &mut back, text, &mut out)?;
    Ok(back.state())
}

fn heads(rt: &impl Abort, alloc: Global) -> Result<(), Fail> {
    let states = [
        state_after(alloc, b"HTTP/1.1 204 No Content\r\n\r\n")?,
        state_after(alloc, b"HTTP/1.1 200 OK\r\nContent-Length: 1048576\r\n\r\n")?,
        state_after(alloc, b"HTTP/1.1 20")?,
    ];
    let wanted = [BackState::Done, BackState::HeadRead, BackState::Waiting];
    assert_eq!(rt; states, wanted);
    let bad = [
        state_after(alloc, b"HTTP/1.1 200 OK\r\nContent-Length: 1048577\r\n\r\n")?,
        state_after(
            alloc,
            b"HTTP/1.1 200 OK\r\nTransfer-Encoding: chunked\r\n\r\n",
        )?,
        state_after(alloc, b"HTTP/1.1 200 OK\r\n\r\n")?,
        state_after(alloc, b"HTTP/1.1 100 Continue\r\n\r\n")?,
        state_after(alloc, b"HTTP/1.1 600 No\r\nContent-Length: 0\r\n\r\n")?,
        state_after(alloc, b"HTTP/2")?,
    ];
    assert_eq!(rt; bad, [BackState::Broken(BackCause::Bad); 6]);
    Ok(())
}

// The state after a head with so many bytes in a value.
fn state_after_value(alloc: Global, count: usize) -> Result<BackState, AllocError> {
    let mut text = Vec::from_slice(alloc, b"HTTP/1.1 200 OK\r\nContent-Length: 0\r\nX: ")?;
    for _ in 0..count {
        text.push(b'x')?;
    }
    text.extend_from_slice(b"\r\n\r\n")?;
    state_after(alloc, &text)
}

fn long_heads(rt: &impl Abort, alloc: Global) -> Result<(), Fail> {
    assert_eq!(rt; state_after_value(alloc, 16341)?, BackState::Done);
    assert_eq!(rt;
        state_after_value(alloc, 16342)?,
        BackState::Broken(BackCause::Bad)
    );
    Ok(())
}

fn endings(rt: &impl Abort, alloc: Global) -> Result<(), Fail> {
    let mut out = Vec::new(alloc);
    let mut back = exchange(alloc, 80)?;
    back.end();
    back.failed();
    assert_eq!(rt; back.state(), BackState::Broken(BackCause::Ended));
    let mut cut = exchange(alloc, 80)?;
    feed(
        alloc,
        &mut cut,
        b"HTTP/1.1 200 OK\r\nContent-Length: 2\r\n\r\no",
        &mut out,
    )?;
    cut.end();
    assert_eq!(rt; cut.state(), BackState::Broken(BackCause::Ended));
    assert_eq!(rt; cut.reply().is_some(), true);
    let mut failed = exchange(alloc, 80)?;
    failed.failed();
    assert_eq!(rt; failed.state(), BackState::Broken(BackCause::Failed));
    Ok(())
}

#[test]
fn replies(rt: HostRuntime) -> Result<(), Fail> {
    let text = b"HTTP/1.1 200 OK\r\nContent-Length: 2\r\n\r\nokay".as_slice();
    one_piece(&rt, rt.alloc(), text)?;
    byte_by_byte(&rt, rt.alloc(), text)?;
    heads(&rt, rt.alloc())?;
    long_heads(&rt, rt.alloc())?;
    Ok(())
}

#[test]
fn links(rt: HostRuntime) -> Result<(), Fail> {
    sending(&rt, rt.alloc())?;
    endings(&rt, rt.alloc())?;
    Ok(())
}
