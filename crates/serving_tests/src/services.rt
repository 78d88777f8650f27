//! A client is sent away. What serving one does is tested where a worker does it.
ghost use Rattle.std.specs.Prelude.{List, IfOk};
ghost use Rattle.conversation.specs.Plans.{Plan};
ghost use Rattle.conn_service.specs.Moments.{IsReady, IsTracked};

use conn_machine::Conn;
use conn_service::{quit, stop};
use ip_net::Ip;
use link_world::{Arrival, World};
use memory_world::{Given, MemoryWorld};
use px_base::{Bytes, Memory};
use std::alloc::{AllocError, Global};
use std::process::Abort;
use std::sync::Wait;
use std::test::Fail;

fn client(alloc: Global, link: u32) -> Result<Given, Memory> {
    Ok(Given::Arrive(Arrival {
        link,
        entry: Bytes::from_slice(alloc, b"web")?,
        peer: Ip::V4(2_130_706_433),
    }))
}

// A client that has come.
fn arrive<W: World>(alloc: Global, world: &mut W) -> Result<Conn, Memory>
    ensures ready { IfOk result (λ c. (generations : List Plan) → IsReady (W.seen world.new) generations c) }
    ensures tracked { IfOk result (IsTracked (W.seen world.new)) }
{
    match world.arrival()? {
        Some(arrival) => {
            let entry = arrival.entry.as_slice();
            let conn = Conn::new(alloc, arrival.link, entry, arrival.peer)?;
            Ok(conn)
        }
        None => Err(AllocError),
    }
}

// One client is stopped, and the next given up.
fn send_away<R: Wait + Abort, W: World>(
    rt: &R,
    alloc: Global,
    world: &mut W,
) -> Result<(), Memory> {
    assert!(rt; world.wait(rt, 0).is_ok());
    let mut first = arrive(alloc, world)?;
    stop(&mut first, alloc, world)?;
    let mut next = arrive(alloc, world)?;
    quit(&mut next, alloc, world)
}

#[test]
fn two_clients(rt: HostRuntime) -> Result<(), Fail> {
    let alloc = rt.alloc();
    let mut steps = Vec::new(alloc);
    steps.push(client(alloc, 0)?)?;
    steps.push(client(alloc, 1)?)?;
    let mut world = MemoryWorld::new(alloc, steps, Vec::new(alloc))?;
    send_away(&rt, alloc, &mut world)?;
    assert_eq!(rt;
        world.note_lines(alloc, 0)?.as_slice(),
        "note 0 end Stopped\n".as_bytes()
    );
    assert_eq!(rt;
        world.note_lines(alloc, 1)?.as_slice(),
        "note 1 end Memory\n".as_bytes()
    );
    assert!(rt; !world.is_open(0) && !world.is_open(1));
    Ok(())
}
