//! Which router a request goes to, and where it leads. Few functions own a generation, and each with one way out: what it drops
//! is proved at each.
use generation::{Generation, one_router};
use head_view::{EMPTY_HEADER_SPAN, Scan, scan_request, view};
use ip_net::Ip;
use std::alloc::Global;
use std::process::Abort;
use std::test::Fail;

const RULE: &[u8] = b"PathPrefix(`/a`) && Header(`X`, `1`) && Header(`Connection`, `x`)";

// The row that wins a request with field lines, for this path.
fn winner_for(alloc: Global, generation: &Generation, path: &[u8]) -> Result<Option<u32>, Fail> {
    let head = b"GET / HTTP/1.1\r\nConnection: x\r\nX: 1\r\n\r\n";
    let mut room = [EMPTY_HEADER_SPAN; 2];
    match scan_request(head, &mut room) {
        Scan::Whole(spans) => {
            let view = view(head, &room, &spans, b"a.test", path, b"");
            Ok(generation.winner(alloc, b"web", &view, Ip::V4(2_130_706_433))?)
        }
        _ => Err(Fail::from("no head")),
    }
}

fn expect_routes(rt: &impl Abort, alloc: Global, generation: &Generation) -> Result<(), Fail> {
    assert_eq!(rt; generation.number(), 7);
    assert_eq!(rt; winner_for(alloc, generation, b"/a")?, Some(0));
    assert_eq!(rt; winner_for(alloc, generation, b"/b")?, None);
    let port = generation.target(0).map(|target| target.port);
    assert_eq!(rt; port, Some(9000));
    Ok(())
}

fn served(rt: &impl Abort, alloc: Global) -> Result<(), Fail> {
    match one_router(alloc, 7, RULE, b"http://127.0.0.1:9000")? {
        Some(generation) => expect_routes(rt, alloc, &generation),
        None => Err(Fail::from("not served")),
    }
}

fn is_later(alloc: Global) -> Result<bool, Fail> {
    Ok(one_router(alloc, 1, RULE, b"https://a.test")?.is_none())
}

fn empty_number(alloc: Global) -> Result<u64, Fail> {
    let empty = Generation::empty(alloc, 3)?;
    Ok(empty.number())
}

#[test]
fn generations(rt: HostRuntime) -> Result<(), Fail> {
    let alloc = rt.alloc();
    served(&rt, alloc)?;
    assert!(rt; is_later(alloc)?);
    assert_eq!(rt; empty_number(alloc)?, 3);
    Ok(())
}
