//! Lines and texts as an operator writes them.
use crate::{Line, LinkKind, escape, read_line, unescape};
use ip_net::Ip;
use std::alloc::Global;
use std::process::Abort;
use std::test::Fail;

fn expect_line(rt: &impl Abort, text: &[u8], line: Option<Line<'_>>) {
    let read = read_line(text);
    assert!(rt; read == line);
}

fn lines(rt: &impl Abort) {
    expect_line(rt, b"config file", Some(Line::ConfigFile));
    expect_line(
        rt,
        b"config consul a b",
        Some(Line::ConfigConsul { root: b"a b" }),
    );
    expect_line(rt, b"publish", Some(Line::Publish));
    expect_line(
        rt,
        b"pin 0",
        Some(Line::OnLink {
            kind: LinkKind::Pin,
            link: 0,
        }),
    );
    expect_line(
        rt,
        b"took 1 all",
        Some(Line::Took {
            link: 1,
            count: None,
        }),
    );
    expect_line(
        rt,
        b"took 1 12",
        Some(Line::Took {
            link: 1,
            count: Some(12),
        }),
    );
    expect_line(rt, b"tick 30000", Some(Line::Tick { now: 30_000 }));
}

fn more_lines(rt: &impl Abort) {
    let peer = Ip::V4(2_130_706_433);
    expect_line(
        rt,
        b"arrive web 127.0.0.1",
        Some(Line::Arrive {
            entry: b"web",
            peer,
        }),
    );
    expect_line(
        rt,
        b"bytes 0 a b",
        Some(Line::Bytes {
            link: 0,
            text: b"a b",
        }),
    );
    expect_line(
        rt,
        b"mark 0 1 down",
        Some(Line::Mark {
            node: 0,
            server: 1,
            up: false,
        }),
    );
    expect_line(rt, b"pin 00", None);
    expect_line(rt, b"pin 4294967296", None);
    expect_line(rt, b"pin 0 ", None);
    expect_line(rt, b"Publish", None);
    expect_line(rt, b"arrive web 127.0.0", None);
}

fn expect_bytes(rt: &impl Abort, alloc: Global, text: &[u8], bytes: &[u8]) -> Result<(), Fail> {
    let Some(read) = unescape(alloc, text)? else {
        return Err(Fail::from("no text"));
    };
    assert_eq!(rt; read.as_slice(), bytes);
    Ok(())
}

fn expect_text(rt: &impl Abort, alloc: Global, bytes: &[u8], text: &[u8]) -> Result<(), Fail> {
    let mut out = Vec::new(alloc);
    escape(bytes, &mut out)?;
    assert_eq!(rt; out.as_slice(), text);
    Ok(())
}

#[test]
fn scripts(rt: HostRuntime) -> Result<(), Fail> {
    lines(&rt);
    more_lines(&rt);
    let alloc = rt.alloc();
    expect_bytes(&rt, alloc, b"a\\r\\n\\\\\\x7f", b"a\r\n\\\x7f")?;
    assert!(rt; unescape(alloc, b"\\x7F")?.is_none());
    assert!(rt; unescape(alloc, b"\\t")?.is_none());
    expect_text(&rt, alloc, b"ok\r\n\x00", b"ok\\r\\n\\x00")
}
