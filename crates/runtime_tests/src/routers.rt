//! Which router a request gets, where that leads, and what its middlewares make of messages.
use crate::samples::{runtime, tells};
use body_codec::Framing;
use head_view::{EMPTY_HEADER_SPAN, Scan, scan_request, view};
use http_wire::{FieldLines, Reply, Request, spell_reply, spell_request};
use ip_net::Ip;
use middleware_chain::Flow;
use px_base::Bytes;
use runtime_config::RuntimeConfig;
use std::alloc::Global;
use std::process::Abort;
use std::test::Fail;

// Rows by name: `a` leads to the node 0, `b` is disabled, `c` leads to the node 2, `d` to the node 1.
const SHOP: &str = "[http.routers.a]\nrule = \"PathPrefix(`/app`)\"\nservice = \"two\"\n\
middlewares = [\"first\", \"second\"]\n\
[http.routers.b]\nrule = \"PathPrefix(`/app/far`)\"\nservice = \"none\"\n\
[http.routers.c]\nrule = \"PathPrefix(`/`)\"\nservice = \"main\"\nmiddlewares = [\"near\"]\n\
[http.routers.d]\nrule = \"Host(`d.test`)\"\npriority = 100\nservice = \"one\"\nentryPoints = [\"web\"]\n\
[[http.services.main.weighted.services]]\nname = \"two\"\nweight = 1\n\
[[http.services.main.weighted.services]]\nname = \"one\"\nweight = 1\n\
[[http.services.one.loadBalancer.servers]]\nurl = \"http://a:1\"\n\
[[http.services.two.loadBalancer.servers]]\nurl = \"http://a:2\"\n\
[http.middlewares.first.headers.customRequestHeaders]\nX-In = \"first\"\n\
[http.middlewares.first.headers.customResponseHeaders]\nX-Out = \"first\"\n\
[http.middlewares.second.headers.customRequestHeaders]\nX-In = \"second\"\n\
[http.middlewares.second.headers.customResponseHeaders]\nX-Out = \"second\"\n\
[http.middlewares.near.ipAllowList]\nsourceRange = [\"10.0.0.0/8\"]\n";

const SHOP_LINES: &str = "router 0 a@file priority 18 enabled\n\
router 1 b@file priority 22 disabled MissingService\n\
router 2 c@file priority 15 enabled\n\
router 3 d@file priority 100 enabled\n\
service main@file weighted node 2\n\
service one@file balancer node 1\nserver 1 0 a:1 weight 1\n\
service two@file balancer node 0\nserver 0 0 a:2 weight 1\n\
middleware first@file enabled\nmiddleware near@file enabled\nmiddleware second@file enabled\n";

#[test]
fn whole_text(rt: HostRuntime) -> Result<(), Fail> {
    let alloc = rt.alloc();
    tells(&rt, alloc, SHOP, "", SHOP_LINES)
}

// The router in a row leads to the node with this number and this name.
fn leads(
    rt: &impl Abort,
    config: &RuntimeConfig,
    row: u32,
    number: u32,
    name: &str,
) -> Result<(), Fail> {
    let Some(at) = config.node(row) else {
        return Err(Fail::from("a node"));
    };
    assert_eq!(rt; at.number, number);
    assert_eq!(rt; at.node.name.as_slice(), name.as_bytes());
    Ok(())
}

#[test]
fn nodes_of_routers(rt: HostRuntime) -> Result<(), Fail> {
    let alloc = rt.alloc();
    let config = runtime(alloc, SHOP, "")?;
    leads(&rt, &config, 0, 0, "two@file")?;
    assert!(rt; config.node(1).is_none());
    leads(&rt, &config, 2, 2, "main@file")?;
    leads(&rt, &config, 3, 1, "one@file")?;
    assert!(rt; config.node(4).is_none());
    Ok(())
}

// The row of the router that a request for this host and path gets, at this entry point.
fn winner(
    alloc: Global,
    config: &RuntimeConfig,
    entry: &str,
    host: &str,
    path: &str,
) -> Result<Option<u32>, Fail> {
    let head = b"GET / HTTP/1.1\r\n\r\n";
    let mut room = [EMPTY_HEADER_SPAN; 4];
    match scan_request(head, &mut room) {
        Scan::Whole(spans) => {
            let view = view(head, &room, &spans, host.as_bytes(), path.as_bytes(), b"");
            Ok(config.winner(alloc, entry.as_bytes(), &view, Ip::V4(0x0a00_0007))?)
        }
        _ => Err(Fail::from("no head")),
    }
}

fn gets(
    rt: &impl Abort,
    alloc: Global,
    config: &RuntimeConfig,
    entry: &str,
    host: &str,
    path: &str,
    wanted: Option<u32>,
) -> Result<(), Fail> {
    let found = winner(alloc, config, entry, host, path)?;
    assert_eq!(rt; found, wanted);
    Ok(())
}

#[test]
fn winners(rt: HostRuntime) -> Result<(), Fail> {
    let alloc = rt.alloc();
    let config = runtime(alloc, SHOP, "")?;
    gets(&rt, alloc, &config, "web", "c.test", "/app", Some(0))?;
    // The router of the greater priority is disabled.
    gets(&rt, alloc, &config, "web", "c.test", "/app/far", Some(0))?;
    gets(&rt, alloc, &config, "web", "c.test", "/", Some(2))?;
    gets(&rt, alloc, &config, "web", "d.test", "/app", Some(3))?;
    gets(&rt, alloc, &config, "side", "d.test", "/app", Some(0))?;
    let config = runtime(alloc, "", "")?;
    gets(&rt, alloc, &config, "web", "d.test", "/app", None)
}

fn request(alloc: Global) -> Result<Request, Fail> {
    Ok(Request {
        method: Bytes::from_slice(alloc, b"GET")?,
        host: Bytes::from_slice(alloc, b"c.test")?,
        path: Bytes::from_slice(alloc, b"/app")?,
        query: None,
        lines: FieldLines::new(alloc),
        framing: Framing::None,
        version: 1,
        keep: true,
    })
}

// What becomes of a request: its forwarded head, or where and how it is stopped.
fn told(alloc: Global, flow: Flow) -> Result<Vec<u8>, Fail> {
    match flow {
        Flow::Pass { request, .. } => {
            let mut out = Vec::new(alloc);
            spell_request(alloc, &request, b"s", true, &mut out)?;
            Ok(out)
        }
        Flow::Stop { place, status, .. } => {
            Ok(format!(in alloc; "stop {place} {status}")?.into_bytes())
        }
    }
}

// What the middlewares of the router in a row make of a request of this peer.
fn asked(alloc: Global, config: &RuntimeConfig, row: u32, peer: Ip) -> Result<Vec<u8>, Fail> {
    let Some(_) = config.node(row) else {
        return Err(Fail::from("an enabled router"));
    };
    let request = request(alloc)?;
    told(alloc, config.apply(alloc, row, request, peer)?)
}

#[test]
fn requests(rt: HostRuntime) -> Result<(), Fail> {
    let alloc = rt.alloc();
    let config = runtime(alloc, SHOP, "")?;
    let passed = asked(alloc, &config, 0, Ip::V4(0x7f00_0001))?;
    // The second one has the last word.
    assert_eq!(rt;
        passed.as_slice(),
        b"GET /app HTTP/1.1\r\nHost: c.test\r\nX-In: second\r\nConnection: close\r\n\r\n".as_slice()
    );
    let stopped = asked(alloc, &config, 2, Ip::V4(0x7f00_0001))?;
    assert_eq!(rt; stopped.as_slice(), b"stop 0 403".as_slice());
    Ok(())
}

// What the middlewares of the router in a row make of a reply.
fn answered(alloc: Global, config: &RuntimeConfig, row: u32) -> Result<Vec<u8>, Fail> {
    let Some(_) = config.node(row) else {
        return Err(Fail::from("an enabled router"));
    };
    let reply = Reply {
        status: 204,
        reason: Bytes::from_slice(alloc, b"No Content")?,
        lines: FieldLines::new(alloc),
        framing: Framing::None,
    };
    let reply = config.apply_reply(alloc, row, reply)?;
    let mut out = Vec::new(alloc);
    spell_reply(&reply, 1, false, &mut out)?;
    Ok(out)
}

#[test]
fn replies(rt: HostRuntime) -> Result<(), Fail> {
    let alloc = rt.alloc();
    let config = runtime(alloc, SHOP, "")?;
    let changed = answered(alloc, &config, 0)?;
    // The second one is asked first, so the first one has the last word.
    assert_eq!(rt;
        changed.as_slice(),
        b"HTTP/1.1 204 No Content\r\nX-Out: first\r\n\r\n".as_slice()
    );
    let same = answered(alloc, &config, 3)?;
    assert_eq!(rt;
        same.as_slice(),
        b"HTTP/1.1 204 No Content\r\n\r\n".as_slice()
    );
    Ok(())
}
