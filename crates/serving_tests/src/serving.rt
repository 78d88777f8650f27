//! Serving over memory.
use ip_net::Ip;
use link_world::{Arrival, PollPlan, ServePlan};
use memory_world::{Given, MemoryWorld};
use publisher::MemoryFiles;
use px_base::{Bytes, List, Memory, MemorySink};
use rule_eval::RegexShop;
use serve_cmd::{ServeEnd, serve};
use std::alloc::Global;
use std::process::Abort;
use std::sync::Wait;
use std::test::Fail;

const CONFIG: &str = "[http.routers.r]
rule = \"PathPrefix(`/a`)\"
service = \"s\"
[http.routers.r-least]
rule = \"PathPrefix(`/a`)\"
priority = -9223372036854775808
service = \"s\"
[http.routers.r-most]
rule = \"PathPrefix(`/a`)\"
priority = 9223372036854774807
service = \"s\"
[http.routers.r-over]
rule = \"PathPrefix(`/a`)\"
priority = 9223372036854774808
service = \"s\"
[http.routers.r-zero]
rule = \"PathPrefix(`/a`)\"
priority = 0
service = \"s\"
[http.routers.t]
rule = \"Host(\"
service = \"s\"
[http.routers.t-arity]
rule = \"Host(`a`, `b`)\"
service = \"s\"
[http.routers.t-end]
rule = \"Host(`a`) &&\"
service = \"s\"
[http.routers.t-lex]
rule = \"Host('a')\"
service = \"s\"
[http.routers.t-matcher]
rule = \"Foo(`a`)\"
service = \"s\"
[http.routers.t-value]
rule = \"Path(`x`)\"
service = \"s\"
[[http.services.s.loadBalancer.servers]]
url = \"http://127.0.0.1:9000\"
";

const CONFIG_TEXT: &str = "generation 1
router 0 r-least@file priority -9223372036854775808 enabled
router 1 r-most@file priority 9223372036854774807 enabled
router 2 r-over@file priority 9223372036854774808 disabled Priority
router 3 r-zero@file priority 16 enabled
router 4 r@file priority 16 enabled
router 5 t-arity@file priority 14 disabled Rule Arity 0
router 6 t-end@file priority 12 disabled Rule Unexpected 12
router 7 t-lex@file priority 9 disabled Rule Lex 5
router 8 t-matcher@file priority 8 disabled Rule UnknownMatcher 0
router 9 t-value@file priority 9 disabled Rule Value 5
router 10 t@file priority 5 disabled Rule Unexpected 5
service s@file balancer node 0
server 0 0 127.0.0.1:9000 weight 1
end
";

const NOT_FOUND: &str =
    "HTTP/1.1 404 Not Found\r\nContent-Type: text/plain; charset=utf-8\r\nContent-Length: 19\r\n\r\n404 page not found\n";

type End = ServeEnd<MemoryWorld, MemoryFiles, MemorySink, RegexShop>;

fn bytes(alloc: Global, text: &str) -> Result<Bytes, Memory> {
    Bytes::from_slice(alloc, text.as_bytes())
}

// A client that asks for a path without a router, and then a stop.
fn one_request(alloc: Global) -> Result<Vec<Given>, Fail> {
    let mut steps = Vec::new(alloc);
    steps.push(Given::Arrive(Arrival {
        link: 0,
        entry: bytes(alloc, "web")?,
        peer: Ip::V4(2_130_706_433),
    }))?;
    steps.push(Given::Bytes {
        link: 0,
        bytes: bytes(alloc, "GET /b HTTP/1.1\r\nHost: a.test\r\n\r\n")?,
    })?;
    steps.push(Given::Clock { now: 1 })?;
    steps.push(Given::Stop)?;
    Ok(steps)
}

fn plan(alloc: Global) -> Result<ServePlan, Memory> {
    Ok(ServePlan {
        listens: List::new(alloc),
        poll: PollPlan {
            file: Some(bytes(alloc, "c.toml")?),
            consul: None,
            period: 5_000,
        },
        workers: 1,
        requests: None,
        access: None,
    })
}

fn files(alloc: Global, config: &str, failing: Vec<u64>) -> Result<MemoryFiles, Memory> {
    let mut texts = List::new(alloc);
    texts.push(bytes(alloc, config)?)?;
    Ok(MemoryFiles::new(alloc, texts, failing))
}

// Serves one request by this configuration; the loads and the writes with these numbers fail.
fn run<R: Wait>(
    rt: &R,
    alloc: Global,
    config: &str,
    loads: Vec<u64>,
    writes: Vec<u64>,
) -> Result<End, Fail> {
    let mut worlds = Vec::with_capacity(alloc, 1)?;
    worlds.push_reserved(MemoryWorld::new(alloc, one_request(alloc)?, Vec::new(alloc))?);
    let files = files(alloc, config, loads)?;
    let out = MemorySink::new(alloc, writes);
    let shop = RegexShop::new(alloc);
    Ok(serve(rt, alloc, &plan(alloc)?, worlds, files, out, shop))
}

fn expect_text(rt: &impl Abort, text: &[u8], wanted: &str) {
    assert_eq!(rt; text, wanted.as_bytes());
}

fn configured<R: Abort + Wait>(rt: &R, alloc: Global) -> Result<(), Fail> {
    let end = run(rt, alloc, CONFIG, Vec::new(alloc), Vec::new(alloc))?;
    assert_eq!(rt; [end.status as u64, end.published], [0, 1]);
    expect_text(rt, end.out.held(), CONFIG_TEXT);
    let Some(world) = end.worlds.as_slice().first() else {
        panic!(rt; "no world");
    };
    expect_text(rt, &world.taken(alloc, 0)?, NOT_FOUND);
    Ok(())
}

fn faulty<R: Abort + Wait>(rt: &R, alloc: Global) -> Result<(), Fail> {
    let end = run(rt, alloc, "a = 1", Vec::new(alloc), Vec::new(alloc))?;
    assert_eq!(rt; [end.status as u64, end.published], [0, 0]);
    expect_text(rt, end.out.held(), "fault file config Unknown a\n");
    Ok(())
}

fn empty<R: Abort + Wait>(rt: &R, alloc: Global) -> Result<(), Fail> {
    let end = run(rt, alloc, "", Vec::new(alloc), Vec::new(alloc))?;
    assert_eq!(rt; [end.status as u64, end.published], [0, 0]);
    expect_text(rt, end.out.held(), "");
    Ok(())
}

#[test]
fn served(rt: HostRuntime) -> Result<(), Fail> {
    let alloc = rt.alloc();
    configured(&rt, alloc)?;
    faulty(&rt, alloc)?;
    empty(&rt, alloc)
}

#[test]
fn not_served(rt: HostRuntime) -> Result<(), Fail> {
    let alloc = rt.alloc();
    let first = Vec::from_slice(alloc, &[1])?;
    let unread = run(&rt, alloc, CONFIG, first, Vec::new(alloc))?;
    assert_eq!(rt; unread.status, 5);
    let first = Vec::from_slice(alloc, &[1])?;
    let unwritten = run(&rt, alloc, CONFIG, Vec::new(alloc), first)?;
    assert_eq!(rt; unwritten.status, 6);
    Ok(())
}
