//! Messages byte for byte: as they are spelled, and as they are taken from the bytes of their heads.
ghost use Rattle.std.specs.Prelude.{IsTrue};
ghost use Rattle.http_wire.specs.Own.{is_own_error};

use body_codec::Framing;
use head_view::{EMPTY_HEADER_SPAN, ReplyScan, Scan, scan_reply, scan_request};
use http_wire::{
    FieldLines, HeadFault, Reply, ReplyFault, ReplyRefused, Request, RequestRefused,
    is_interim_status, own_content, own_reply, spell_reply, spell_request, take_reply,
    take_request,
};
use ip_net::Ip;
use px_base::Bytes;
use std::alloc::Global;
use std::process::Abort;
use std::test::Fail;

fn expect_bytes(rt: &impl Abort, found: &[u8], wanted: &str) {
    assert_eq!(rt; found, wanted.as_bytes());
}

// The request as it goes to the backend 127.0.0.1:9000, behind what stood there before.
fn expect_request_text(
    rt: &impl Abort,
    alloc: Global,
    request: &Request,
    pass_host: bool,
    text: &str,
) -> Result<(), Fail> {
    let mut out = Vec::from_slice(alloc, b"before")?;
    spell_request(alloc, request, b"127.0.0.1:9000", pass_host, &mut out)?;
    match out.as_slice().strip_prefix(b"before") {
        Some(added) => expect_bytes(rt, added, text),
        None => panic!(rt; "what stood there"),
    }
    Ok(())
}

// A request with a query and a body, and without a line.
fn bare_request(alloc: Global) -> Result<Request, Fail> {
    Ok(Request {
        method: Bytes::from_slice(alloc, b"GET")?,
        host: Bytes::from_slice(alloc, b"a.test")?,
        path: Bytes::from_slice(alloc, b"/")?,
        query: Some(Bytes::from_slice(alloc, b"a=b?c")?),
        lines: FieldLines::new(alloc),
        framing: Framing::Length(5),
        version: 1,
        keep: true,
    })
}

fn another_authority(rt: &impl Abort, alloc: Global) -> Result<(), Fail> {
    let request = bare_request(alloc)?;
    expect_request_text(
        rt,
        alloc,
        &request,
        false,
        "GET /?a=b?c HTTP/1.1\r\nHost: 127.0.0.1:9000\r\nContent-Length: 5\r\nConnection: close\r\n\r\n",
    )
}

fn expect_reply_text(
    rt: &impl Abort,
    alloc: Global,
    reply: &Reply,
    version: u8,
    close: bool,
    text: &str,
) -> Result<(), Fail> {
    let mut out = Vec::new(alloc);
    spell_reply(reply, version, close, &mut out)?;
    expect_bytes(rt, out.as_slice(), text);
    Ok(())
}

// A reply without a line, with this framing.
fn expect_framing(
    rt: &impl Abort,
    alloc: Global,
    framing: Framing,
    version: u8,
    close: bool,
    text: &str,
) -> Result<(), Fail> {
    let reply = Reply {
        status: 200,
        reason: Bytes::from_slice(alloc, b"OK")?,
        lines: FieldLines::new(alloc),
        framing,
    };
    expect_reply_text(rt, alloc, &reply, version, close, text)
}

// For a client of version 1.1 and of version 1.0.
fn framings(rt: &impl Abort, alloc: Global) -> Result<(), Fail> {
    expect_framing(
        rt,
        alloc,
        Framing::Length(2),
        1,
        false,
        "HTTP/1.1 200 OK\r\nContent-Length: 2\r\n\r\n",
    )?;
    expect_framing(
        rt,
        alloc,
        Framing::ToEnd,
        1,
        true,
        "HTTP/1.1 200 OK\r\nTransfer-Encoding: chunked\r\nConnection: close\r\n\r\n",
    )?;
    expect_framing(
        rt,
        alloc,
        Framing::ToEnd,
        0,
        false,
        "HTTP/1.1 200 OK\r\n\r\n",
    )
}

fn redirect(rt: &impl Abort, alloc: Global) -> Result<(), Fail> {
    let reply = own_reply(alloc, 302, Some(b"https://a.test/x?q=1"))?;
    expect_reply_text(
        rt,
        alloc,
        &reply,
        1,
        false,
        "HTTP/1.1 302 Found\r\nLocation: https://a.test/x?q=1\r\nContent-Length: 0\r\n\r\n",
    )
}

fn expect_own_head(rt: &impl Abort, alloc: Global, status: u16, text: &str) -> Result<(), Fail>
    requires { IsTrue (is_own_error status) }
{
    let reply = own_reply(alloc, status, None)?;
    expect_reply_text(rt, alloc, &reply, 1, false, text)
}

fn expect_own_content(rt: &impl Abort, alloc: Global, status: u16, text: &str) -> Result<(), Fail>
    requires { IsTrue (is_own_error status) }
{
    let content = own_content(alloc, status)?;
    expect_bytes(rt, content.as_slice(), text);
    Ok(())
}

fn own_heads(rt: &impl Abort, alloc: Global) -> Result<(), Fail> {
    expect_own_head(
        rt,
        alloc,
        404,
        "HTTP/1.1 404 Not Found\r\nContent-Type: text/plain; charset=utf-8\r\nContent-Length: 19\r\n\r\n",
    )?;
    expect_own_head(
        rt,
        alloc,
        502,
        "HTTP/1.1 502 Bad Gateway\r\nContent-Type: text/plain; charset=utf-8\r\nContent-Length: 16\r\n\r\n",
    )?;
    expect_own_head(
        rt,
        alloc,
        431,
        "HTTP/1.1 431 Request Header Fields Too Large\r\nContent-Type: text/plain; charset=utf-8\r\nContent-Length: 36\r\n\r\n",
    )
}

fn own_contents(rt: &impl Abort, alloc: Global) -> Result<(), Fail> {
    expect_own_content(rt, alloc, 404, "404 page not found\n")?;
    expect_own_content(rt, alloc, 502, "502 bad gateway\n")?;
    expect_own_content(rt, alloc, 431, "431 request header fields too large\n")
}

// What is taken of a final reply with this head.
fn reply_of(
    rt: &impl Abort,
    alloc: Global,
    head: &[u8],
    method: &[u8],
) -> Result<Reply, ReplyRefused> {
    let mut room = [EMPTY_HEADER_SPAN; 8];
    let spans = match scan_reply(head, &mut room) {
        ReplyScan::Whole(spans) => spans,
        _ => panic!(rt; "a whole head"),
    };
    if is_interim_status(spans.status) {
        panic!(rt; "a final reply");
    }
    take_reply(alloc, head, &room, &spans, method)
}

// What a client of version 1.1 sees of a reply with this head.
fn expect_reply(
    rt: &impl Abort,
    alloc: Global,
    head: &str,
    method: &str,
    text: &str,
) -> Result<(), Fail> {
    match reply_of(rt, alloc, head.as_bytes(), method.as_bytes()) {
        Ok(reply) => expect_reply_text(rt, alloc, &reply, 1, false, text),
        Err(_) => panic!(rt; "a reply"),
    }
}

// Framings, and the lines that go on.
fn replies(rt: &impl Abort, alloc: Global) -> Result<(), Fail> {
    expect_reply(
        rt,
        alloc,
        "HTTP/1.1 200 OK\r\nServer: a\r\nContent-Length: 5\r\ncontent-length: 5\r\nDate: b\r\n\r\n",
        "GET",
        "HTTP/1.1 200 OK\r\nServer: a\r\nDate: b\r\nContent-Length: 5\r\n\r\n",
    )?;
    expect_reply(
        rt,
        alloc,
        "HTTP/1.0 200 OK\r\nA: b\r\nConnection: x, Keep-Alive\r\nKeep-Alive: 5\r\nX: y\r\nTE: z\r\nC: d\r\n\r\n",
        "GET",
        "HTTP/1.1 200 OK\r\nA: b\r\nC: d\r\nTransfer-Encoding: chunked\r\n\r\n",
    )?;
    expect_reply(
        rt,
        alloc,
        "HTTP/1.1 201 Created\r\nTransfer-Encoding:  Chunked \r\nUpgrade: h2c\r\n\r\n",
        "POST",
        "HTTP/1.1 201 Created\r\nTransfer-Encoding: chunked\r\n\r\n",
    )
}

// Replies with one option, without case, and with options on two lines.
fn options(rt: &impl Abort, alloc: Global) -> Result<(), Fail> {
    expect_reply(
        rt,
        alloc,
        "HTTP/1.1 200 OK\r\nX: y\r\nConnection:  x \r\nXY: z\r\nContent-Length: 0\r\n\r\n",
        "GET",
        "HTTP/1.1 200 OK\r\nXY: z\r\nContent-Length: 0\r\n\r\n",
    )?;
    expect_reply(
        rt,
        alloc,
        "HTTP/1.1 200 OK\r\nX: y\r\nConnection: a\r\nY: z\r\nConnection: x\r\nA: b\r\nContent-Length: 0\r\n\r\n",
        "GET",
        "HTTP/1.1 200 OK\r\nY: z\r\nContent-Length: 0\r\n\r\n",
    )
}

fn replies_without_body(rt: &impl Abort, alloc: Global) -> Result<(), Fail> {
    expect_reply(
        rt,
        alloc,
        "HTTP/1.1 200 OK\r\nA: b\r\nContent-Length: 7\r\nC: d\r\n\r\n",
        "HEAD",
        "HTTP/1.1 200 OK\r\nA: b\r\nContent-Length: 7\r\nC: d\r\n\r\n",
    )?;
    expect_reply(
        rt,
        alloc,
        "HTTP/1.1 304 Not Modified\r\nContent-Length: 7\r\nETag: e\r\n\r\n",
        "GET",
        "HTTP/1.1 304 Not Modified\r\nContent-Length: 7\r\nETag: e\r\n\r\n",
    )?;
    expect_reply(
        rt,
        alloc,
        "HTTP/1.1 204 No Content\r\nContent-Length: 0\r\nA: b\r\n\r\n",
        "DELETE",
        "HTTP/1.1 204 No Content\r\nA: b\r\n\r\n",
    )
}

fn expect_reply_fault(rt: &impl Abort, alloc: Global, head: &str, fault: ReplyFault) {
    match reply_of(rt, alloc, head.as_bytes(), b"GET") {
        Ok(_) => panic!(rt; "a fault"),
        Err(refused) => assert_eq!(rt; refused, ReplyRefused::Reply(fault)),
    }
}

fn reply_faults(rt: &impl Abort, alloc: Global) {
    let rows = [
        (
            "HTTP/1.1 200 OK\r\nContent-Length: 5\r\nContent-Length: 05\r\n\r\n",
            ReplyFault::BadLength,
        ),
        (
            "HTTP/1.1 200 OK\r\nContent-Length: 1099511627776\r\n\r\n",
            ReplyFault::BadLength,
        ),
        (
            "HTTP/1.1 200 OK\r\nContent-Length: +5\r\n\r\n",
            ReplyFault::BadLength,
        ),
        (
            "HTTP/1.1 200 OK\r\nContent-Length: 00000000000000000005\r\n\r\n",
            ReplyFault::BadLength,
        ),
        (
            "HTTP/1.1 200 OK\r\nTransfer-Encoding: chunked,\r\n\r\n",
            ReplyFault::BadLength,
        ),
        (
            "HTTP/1.1 200 OK\r\nTransfer-Encoding: gzip\r\n\r\n",
            ReplyFault::BadLength,
        ),
        (
            "HTTP/1.1 200 OK\r\nTransfer-Encoding: , chunked\r\n\r\n",
            ReplyFault::BadCoding,
        ),
        (
            "HTTP/1.1 200 OK\r\nTransfer-Encoding: gzip\r\nTransfer-Encoding: chunked\r\n\r\n",
            ReplyFault::BadCoding,
        ),
        (
            "HTTP/1.1 200 OK\r\nTransfer-Encoding: chunked\r\nContent-Length: 5\r\n\r\n",
            ReplyFault::BothLengths,
        ),
        (
            "HTTP/1.1 200 OK\r\nTransfer-Encoding: gzip, chunked\r\nContent-Length: 5\r\n\r\n",
            ReplyFault::BothLengths,
        ),
        (
            "HTTP/1.0 200 OK\r\nTransfer-Encoding: chunked\r\n\r\n",
            ReplyFault::BothLengths,
        ),
        (
            "HTTP/1.1 101 Switching Protocols\r\nContent-Length: x\r\n\r\n",
            ReplyFault::Switch,
        ),
    ];
    for (head, fault) in &rows {
        expect_reply_fault(rt, alloc, head, *fault);
    }
}

// What is taken of a request with this head from 127.0.0.1.
fn request_of(rt: &impl Abort, alloc: Global, head: &[u8]) -> Result<Request, RequestRefused> {
    let mut room = [EMPTY_HEADER_SPAN; 8];
    let spans = match scan_request(head, &mut room) {
        Scan::Whole(spans) => spans,
        _ => panic!(rt; "a whole head"),
    };
    take_request(alloc, head, &room, &spans, Ip::V4(0x7f000001))
}

// What a backend sees of a request with this head, and whether the connection goes on.
fn expect_request(
    rt: &impl Abort,
    alloc: Global,
    head: &str,
    text: &str,
    keep: bool,
) -> Result<(), Fail> {
    match request_of(rt, alloc, head.as_bytes()) {
        Ok(request) => {
            assert!(rt; request.keep == keep);
            expect_request_text(rt, alloc, &request, true, text)
        }
        Err(_) => panic!(rt; "a request"),
    }
}

fn requests(rt: &impl Abort, alloc: Global) -> Result<(), Fail> {
    expect_request(
        rt,
        alloc,
        "GET / HTTP/1.1\r\nHost: a.test\r\n\r\n",
        "GET / HTTP/1.1\r\nHost: a.test\r\nX-Forwarded-For: 127.0.0.1\r\nX-Forwarded-Host: a.test\r\nX-Forwarded-Port: 80\r\nX-Forwarded-Proto: http\r\nX-Real-Ip: 127.0.0.1\r\nConnection: close\r\n\r\n",
        true,
    )?;
    expect_request(
        rt,
        alloc,
        "POST HTTP://a.test:81?x=%2 HTTP/1.1\r\nhost: b\r\nX-FORWARDED-FOR: 1.2.3.4\r\nA: b\r\nx-real-ip: 5\r\nConnection: close, X\r\nX: y\r\nExpect: 100-continue\r\nContent-Length: 5\r\n\r\n",
        "POST /?x=%2 HTTP/1.1\r\nHost: a.test:81\r\nA: b\r\nX-Forwarded-For: 127.0.0.1\r\nX-Forwarded-Host: a.test:81\r\nX-Forwarded-Port: 81\r\nX-Forwarded-Proto: http\r\nX-Real-Ip: 127.0.0.1\r\nContent-Length: 5\r\nConnection: close\r\n\r\n",
        false,
    )?;
    expect_request(
        rt,
        alloc,
        "GET /a/./%62/../c?d?e HTTP/1.0\r\nA: b\r\n\r\n",
        "GET /a/c?d?e HTTP/1.1\r\nHost: \r\nA: b\r\nX-Forwarded-For: 127.0.0.1\r\nX-Forwarded-Host: \r\nX-Forwarded-Port: 80\r\nX-Forwarded-Proto: http\r\nX-Real-Ip: 127.0.0.1\r\nConnection: close\r\n\r\n",
        false,
    )
}

fn expect_head_fault(rt: &impl Abort, alloc: Global, head: &str, fault: HeadFault) {
    match request_of(rt, alloc, head.as_bytes()) {
        Ok(_) => panic!(rt; "a fault"),
        Err(refused) => assert_eq!(rt; refused, RequestRefused::Head(fault)),
    }
}

fn head_faults(rt: &impl Abort, alloc: Global) {
    let rows = [
        ("GET / HTTP/1.1\r\nA: b\r\n\r\n", HeadFault::NoHost),
        (
            "GET / HTTP/1.0\r\nHost: a\r\nHost: a\r\n\r\n",
            HeadFault::TwoHosts,
        ),
        (
            "GET * HTTP/1.1\r\nHost: a\r\nContent-Length: x\r\n\r\n",
            HeadFault::BadLength,
        ),
        (
            "GET / HTTP/1.0\r\nTransfer-Encoding: chunked\r\n\r\n",
            HeadFault::BothLengths,
        ),
        (
            "GET / HTTP/1.1\r\nHost: a\r\nTransfer-Encoding: gzip, chunked\r\n\r\n",
            HeadFault::BadCoding,
        ),
        ("GET * HTTP/1.1\r\nHost: a\r\n\r\n", HeadFault::BadTarget),
        (
            "CONNECT / HTTP/1.1\r\nHost: a\r\n\r\n",
            HeadFault::BadTarget,
        ),
        ("GET /#a HTTP/1.1\r\nHost: a\r\n\r\n", HeadFault::BadTarget),
        ("GET / HTTP/1.1\r\nHost: a b\r\n\r\n", HeadFault::BadTarget),
        (
            "GET https://a/ HTTP/1.1\r\nHost: a\r\n\r\n",
            HeadFault::BadTarget,
        ),
        ("GET /%2 HTTP/1.1\r\nHost: a\r\n\r\n", HeadFault::BadEscape),
    ];
    for (head, fault) in &rows {
        expect_head_fault(rt, alloc, head, *fault);
    }
}

#[test]
fn spellings(rt: HostRuntime) -> Result<(), Fail> {
    let alloc = rt.alloc();
    another_authority(&rt, alloc)?;
    framings(&rt, alloc)?;
    redirect(&rt, alloc)?;
    own_heads(&rt, alloc)?;
    own_contents(&rt, alloc)
}

#[test]
fn heads(rt: HostRuntime) -> Result<(), Fail> {
    let alloc = rt.alloc();
    replies(&rt, alloc)?;
    options(&rt, alloc)?;
    replies_without_body(&rt, alloc)?;
    reply_faults(&rt, alloc);
    requests(&rt, alloc)?;
    head_faults(&rt, alloc);
    Ok(())
}
