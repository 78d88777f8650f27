//! A world of sockets that dials itself.
use crate::address::ip_of;
use crate::{Access, BindFault, MioWorld};
use ip_net::Ip;
use link_world::{
    Cause, EndCause, LinkRead, LinkWrite, Listen, Note, NoteBody, RequestNote, World,
};
use px_base::{Bytes, List, MemorySink};
use std::alloc::Global;
use std::net::{Ipv4Addr, Ipv6Addr, Net, SocketAddr};
use std::process::Abort;
use std::sync::Wait;
use std::test::Fail;
use std::time::Clock;

const PORT: u16 = 18_471;

fn listens(alloc: Global) -> Result<Vec<Listen>, Fail> {
    let mut listens = Vec::new(alloc);
    listens.push(Listen {
        entry: Bytes::from_slice(alloc, b"web")?,
        ip: Ip::V4(0x7f00_0001),
        port: PORT,
    })?;
    Ok(listens)
}

// Waits until a client comes.
fn next_arrival<W: World, R: Abort + Wait>(rt: &R, world: &mut W) -> Result<u32, Fail> {
    for _ in 0..100u32 {
        if let Some(arrival) = world.arrival()? {
            assert_eq!(rt; arrival.entry.as_slice(), "web".as_bytes());
            assert!(rt; arrival.peer == Ip::V4(0x7f00_0001));
            return Ok(arrival.link);
        }
        let until = world.now().saturating_add(100);
        assert!(rt; world.wait(rt, until).is_ok());
    }
    panic!(rt; "no client came")
}

// Waits until the link answers something else than that it has nothing yet.
fn expect_read<N: Net + Clock + Drop, R: Abort + Wait>(
    rt: &R,
    world: &mut MioWorld<N, MemorySink>,
    link: u32,
    wanted: LinkRead,
    text: &str,
) {
    let mut room = [0u8; 64];
    for _ in 0..100u32 {
        assert!(rt; world.is_open(link));
        let answer = world.read(link, &mut room);
        if answer != LinkRead::NotYet {
            assert!(rt; answer == wanted);
            if let LinkRead::Got(count) = answer {
                assert_eq!(rt; room.get(..count), Some(text.as_bytes()));
            }
            return;
        }
        let until = world.now().saturating_add(100);
        assert!(rt; world.wait(rt, until).is_ok());
    }
    panic!(rt; "nothing was read")
}

fn expect_write<N: Net + Clock + Drop>(
    rt: &impl Abort,
    world: &mut MioWorld<N, MemorySink>,
    link: u32,
    text: &str,
) {
    assert!(rt; world.is_open(link));
    assert!(rt; !text.is_empty());
    assert!(rt; world.write(link, text.as_bytes()) == LinkWrite::Took(text.len()));
}

// A world may be moved into a thread.
fn may_move<T: Send>(_world: &T) {}

fn exchange<N: Net + Clock + Drop, R: Abort + Wait>(
    rt: &R,
    world: &mut MioWorld<N, MemorySink>,
    host: &[u8],
) -> Result<(), Fail> {
    let back = world.dial(host, PORT)?;
    let link = next_arrival(rt, world)?;
    expect_write(rt, world, back, "ping");
    expect_read(rt, world, link, LinkRead::Got(4), "ping");
    expect_write(rt, world, link, "pong!");
    expect_read(rt, world, back, LinkRead::Got(5), "pong!");
    world.close(link);
    assert!(rt; !world.is_open(link));
    expect_read(rt, world, back, LinkRead::End, "");
    world.close(back);
    let nobody = world.dial(b"127.0.0.1", 1)?;
    assert!(rt; nobody != back);
    expect_read(rt, world, nobody, LinkRead::Failed, "");
    Ok(())
}

fn notes<N: Net + Clock + Drop>(
    rt: &impl Abort,
    alloc: Global,
    world: &mut MioWorld<N, MemorySink>,
) -> Result<(), Fail> {
    assert!(rt; !world.stop_asked());
    let request = RequestNote {
        index: 1,
        generation: 1,
        router: None,
        status: 404,
        cause: Cause::NoRouter,
        looks: List::new(alloc),
        picks: List::new(alloc),
        turns: List::new(alloc),
        backs: List::new(alloc),
    };
    world.note(Note {
        link: 0,
        body: NoteBody::Request(request),
    })?;
    assert!(rt; world.stop_asked());
    Ok(())
}

#[test]
fn dials_itself(rt: HostRuntime) -> Result<(), Fail> {
    let alloc = rt.alloc();
    let listens = listens(alloc)?;
    let sink = MemorySink::new(alloc, Vec::new(alloc));
    let Ok(mut world) = MioWorld::bind(rt, alloc, &listens, Access::Lines(sink), Some(1)) else {
        panic!(rt; "the port is in use");
    };
    may_move(&world);
    exchange(&rt, &mut world, b"127.0.0.1")?;
    exchange(&rt, &mut world, b"[::ffff:127.0.0.1]")?;
    notes(&rt, alloc, &mut world)?;
    let none: Access<MemorySink> = Access::Nowhere;
    let Err(fault) = MioWorld::bind(rt, alloc, &listens, none, None) else {
        panic!(rt; "the port was bound twice");
    };
    assert!(rt; fault == BindFault::Bind { listen: 0 });
    Ok(())
}

// A world whose access file couldn't be opened.
fn refusing<N: Net + Clock + Drop, R: Abort + Wait>(rt: &R, world: &mut MioWorld<N, MemorySink>) {
    let until = world.now();
    assert!(rt; world.wait(rt, until).is_ok());
    let end = Note {
        link: 0,
        body: NoteBody::End(EndCause::Client),
    };
    assert!(rt; world.note(end).is_ok());
    assert!(rt; world.has_refused());
    assert!(rt; !world.stop_asked());
    assert!(rt; world.wait(rt, until).is_err());
}

#[test]
fn a_refused_note_fails_the_next_wait(rt: HostRuntime) -> Result<(), Fail> {
    let alloc = rt.alloc();
    let Ok(mut world) = MioWorld::bind(rt, alloc, &[], Access::Refused, Some(0)) else {
        panic!(rt; "there is no poll");
    };
    refusing(&rt, &mut world);
    Ok(())
}

#[test]
fn peers(rt: HostRuntime) {
    let four = Ipv4Addr::new(10, 1, 2, 3);
    let mapped = Ipv6Addr::new(0, 0, 0, 0, 0, 0xffff, 0x0a01, 0x0203);
    let six = Ipv6Addr::new(0, 0, 0, 0, 0, 0, 0, 1);
    assert!(rt; ip_of(SocketAddr::from((four, 9))) == Ip::V4(0x0a01_0203));
    assert!(rt; ip_of(SocketAddr::from((mapped, 9))) == Ip::V4(0x0a01_0203));
    assert!(rt; ip_of(SocketAddr::from((six, 9))) == Ip::V6(1));
}
