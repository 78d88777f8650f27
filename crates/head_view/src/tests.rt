//! Heads whole and in parts, and views.
use crate::{EMPTY_HEADER_SPAN, HeaderSpan, ReplyScan, Scan, scan_reply, scan_request, view};
use std::alloc::{AllocError, Global};
use std::process::Abort;
use std::test::Fail;

// What a scan with room for this many lines says of the text.
fn scan_of(text: &[u8]) -> Scan {
    let mut room = [EMPTY_HEADER_SPAN; 100];
    scan_request(text, &mut room)
}

fn heads(rt: &impl Abort) {
    let whole = scan_of(b"GET / HTTP/1.1\r\nHost: a.test\r\n\r\nrest");
    match whole {
        Scan::Whole(spans) => assert_eq!(rt; (spans.len, spans.lines, spans.version), (32, 1, 1)),
        _ => panic!(rt; "a whole head"),
    }
    let others = [
        scan_of(b"GET / HTTP/1.1\r\nHost: a.te"),
        scan_of(b"GET /\xFF"),
        scan_of(b"GET / HTTP/2.0\r\n\r\n"),
        scan_of(b"GET / HTTP/1.1\r\nHost : a\r\n\r\n"),
    ];
    assert_eq!(rt; others, [Scan::Part, Scan::Part, Scan::Bad, Scan::Bad]);
}

fn many_lines(rt: &impl Abort, alloc: Global) -> Result<(), AllocError> {
    let mut text = Vec::from_slice(alloc, b"GET / HTTP/1.1\r\n")?;
    for _ in 0..101 {
        text.extend_from_slice(b"X: y\r\n")?;
    }
    text.extend_from_slice(b"\r\n")?;
    assert_eq!(rt; scan_of(&text), Scan::TooMany);
    Ok(())
}

fn replies(rt: &impl Abort) {
    let mut room = [EMPTY_HEADER_SPAN; 4];
    match scan_reply(b"HTTP/1.1 204 No Content\r\nX: y\r\n\r\n", &mut room) {
        ReplyScan::Whole(spans) => assert_eq!(rt;
            (spans.status, spans.lines, spans.len),
            (204, 1, 33)
        ),
        _ => panic!(rt; "a whole reply"),
    }
    let others = [
        scan_reply(b"HTTP/1.1 20", &mut room),
        scan_reply(b"HTTP/1.1 2x4 No\r\n\r\n", &mut room),
    ];
    assert_eq!(rt; others, [ReplyScan::Part, ReplyScan::Bad]);
}

// The values of a name in a head, in order.
fn fields(rt: &impl Abort) {
    let text = b"GET / HTTP/1.1\r\nx: one\r\nHost: a\r\nX:  two \r\n\r\n".as_slice();
    let mut room = [EMPTY_HEADER_SPAN; 4];
    match scan_request(text, &mut room) {
        Scan::Whole(spans) => {
            let head = view(text, &room, &spans, b"a", b"/", b"");
            let mut values = head.field(b"X");
            assert_eq!(rt; values.next(), Some(b"one".as_slice()));
            assert_eq!(rt; values.next(), Some(b"two".as_slice()));
            assert_eq!(rt; values.next(), None);
            assert_eq!(rt; head.method, b"GET".as_slice());
        }
        _ => panic!(rt; "a whole head"),
    }
}

#[test]
fn heads_and_views(rt: HostRuntime) -> Result<(), Fail> {
    heads(&rt);
    many_lines(&rt, rt.alloc())?;
    replies(&rt);
    fields(&rt);
    Ok(())
}
