//! A worker over a script.
ghost use Rattle.std.specs.Prelude.{◌≡◌, IfOk, OnOk};
ghost use Rattle.desk.specs.Desks.{Grew};
ghost use Rattle.desk.specs.Issues.{issue_plan};
ghost use Rattle.desk.specs.Kept.{desk_of};
ghost use Rattle.worker_loop.specs.Runs.{Attends};

use desk::OneDesk;
use generation::{Generation, one_router};
use ip_net::Ip;
use link_world::{Arrival, World};
use memory_world::{Given, MemoryWorld};
use px_base::{Bytes, Memory};
use std::alloc::{AllocError, Global};
use std::process::Abort;
use std::sync::{Arc, Wait};
use std::test::Fail;
use worker_loop::{Worker, WorkerEnd, run_worker};

const REQUEST: &str = "GET / HTTP/1.1\r\nHost: a.test\r\n\r\n";

const FORWARDED: &str =
    "GET / HTTP/1.1\r\nHost: a.test\r\nX-Forwarded-For: 127.0.0.1\r\nX-Forwarded-Host: a.test\r\nX-Forwarded-Port: 80\r\nX-Forwarded-Proto: http\r\nX-Real-Ip: 127.0.0.1\r\nConnection: close\r\n\r\n";

const REPLY: &str = "HTTP/1.1 200 OK\r\nContent-Length: 2\r\n\r\nok";

const REPLIES: &str =
    "HTTP/1.1 200 OK\r\nContent-Length: 2\r\n\r\nokHTTP/1.1 200 OK\r\nContent-Length: 2\r\n\r\nok";

fn bytes(alloc: Global, text: &str) -> Result<Bytes, Memory> {
    Bytes::from_slice(alloc, text.as_bytes())
}

fn arrival(alloc: Global) -> Result<Given, Memory> {
    Ok(Given::Arrive(Arrival {
        link: 0,
        entry: bytes(alloc, "web")?,
        peer: Ip::V4(2_130_706_433),
    }))
}

fn given(alloc: Global, link: u32, text: &str) -> Result<Given, Memory> {
    Ok(Given::Bytes {
        link,
        bytes: bytes(alloc, text)?,
    })
}

// A client that asks once and ends, its server's reply, and then a stop.
fn one_request(alloc: Global) -> Result<Vec<Given>, Fail> {
    let mut steps = Vec::new(alloc);
    steps.push(arrival(alloc)?)?;
    steps.push(given(alloc, 0, REQUEST)?)?;
    steps.push(given(alloc, 1, REPLY)?)?;
    steps.push(Given::End { link: 0 })?;
    steps.push(Given::Clock { now: 1 })?;
    steps.push(Given::Stop)?;
    Ok(steps)
}

fn expect_text(rt: &impl Abort, text: &[u8], wanted: &str) {
    assert_eq!(rt; text, wanted.as_bytes());
}

fn expect_notes(
    rt: &impl Abort,
    alloc: Global,
    world: &MemoryWorld,
    wanted: &str,
) -> Result<(), Fail> {
    expect_text(rt, &world.note_lines(alloc, 0)?, wanted);
    Ok(())
}

// The fifth counted call, the first write to the server, fails.
#[test]
fn failed(rt: HostRuntime) -> Result<(), Fail> {
    let alloc = rt.alloc();
    let failing = Vec::from_slice(alloc, &[5])?;
    let mut world = MemoryWorld::new(alloc, one_request(alloc)?, failing)?;
    let mut shared = OneDesk::new(alloc, numbered(alloc, 1)?)?;
    let mut worker = Worker::new(alloc, 2)?;
    let end = run_worker(&rt, alloc, &mut worker, &mut world, &mut shared);
    assert!(rt; end == WorkerEnd::Stopped);
    expect_notes(
        &rt,
        alloc,
        &world,
        "note 0 1 gen 1 router 0 status 502 BackFailed 1 looks 0:1 picks 0:0-1:0 turns - backs 1\nnote 0 end Client\n",
    )
}

// A client that asks, asks again after a while, and ends.
fn two_requests(alloc: Global) -> Result<Vec<Given>, Fail> {
    let mut steps = Vec::new(alloc);
    steps.push(arrival(alloc)?)?;
    steps.push(given(alloc, 0, REQUEST)?)?;
    steps.push(given(alloc, 1, REPLY)?)?;
    steps.push(Given::Clock { now: 1 })?;
    steps.push(given(alloc, 0, REQUEST)?)?;
    steps.push(given(alloc, 2, REPLY)?)?;
    steps.push(Given::End { link: 0 })?;
    Ok(steps)
}

// The configuration of this number: every path goes to one server.
fn numbered(alloc: Global, number: u64) -> Result<Arc<Generation, Global>, Memory>
    ensures { IfOk result (λ issue. (issue_plan issue).number ≡ number) }
{
    let Some(generation) = one_router(alloc, number, b"PathPrefix(`/`)", b"http://127.0.0.1:9000")?
    else {
        return Err(AllocError);
    };
    let Ok(issue) = Arc::new(alloc, generation) else {
        return Err(AllocError);
    };
    Ok(issue)
}

fn publish(rt: &impl Abort, alloc: Global, shared: &mut OneDesk) -> Result<(), Memory>
    ensures { OnOk result (Grew (desk_of shared.old).generations (desk_of shared.new).generations) }
{
    let issue = numbered(alloc, 2)?;
    assert!(rt; shared.number() == 1);
    shared.publish(issue)
}

// The second turn meets a configuration that was published after the first.
fn two_turns<R: Abort + Wait, W: World>(
    rt: &R,
    alloc: Global,
    worker: &mut Worker,
    world: &mut W,
    shared: &mut OneDesk,
) -> Result<(), Memory>
    requires { Attends (W.seen world.old) (desk_of shared.old).generations worker.old.conns }
{
    let Ok(()) = world.wait(rt, 0) else {
        return Err(AllocError);
    };
    worker.turn(rt, alloc, world, shared)?;
    publish(rt, alloc, shared)?;
    let Ok(()) = world.wait(rt, 0) else {
        return Err(AllocError);
    };
    worker.turn(rt, alloc, world, shared)
}

#[test]
fn publications(rt: HostRuntime) -> Result<(), Fail> {
    let alloc = rt.alloc();
    let mut world = MemoryWorld::new(alloc, two_requests(alloc)?, Vec::new(alloc))?;
    let mut shared = OneDesk::new(alloc, numbered(alloc, 1)?)?;
    let mut worker = Worker::new(alloc, 2)?;
    two_turns(&rt, alloc, &mut worker, &mut world, &mut shared)?;
    expect_text(&rt, &world.taken(alloc, 1)?, FORWARDED);
    expect_text(&rt, &world.taken(alloc, 2)?, FORWARDED);
    expect_text(&rt, &world.taken(alloc, 0)?, REPLIES);
    expect_notes(
        &rt,
        alloc,
        &world,
        "note 0 1 gen 1 router 0 status 200 Passed looks 0:1 picks 0:0-1:0 turns - backs 1\nnote 0 2 gen 2 router 0 status 200 Passed looks 0:1 picks 0:0-1:0 turns - backs 2\nnote 0 end Client\n",
    )
}
