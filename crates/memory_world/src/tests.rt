//! A script, and what its world tells.
use crate::{Given, MemoryWorld, Record};
use ip_net::Ip;
use link_world::{Arrival, EndCause, LinkRead, LinkWrite, Note, NoteBody, World};
use px_base::Bytes;
use std::alloc::Global;
use std::process::Abort;
use std::sync::Wait;
use std::test::Fail;

fn list(alloc: Global, text: &str) -> Result<Bytes, Fail> {
    Ok(Bytes::from_slice(alloc, text.as_bytes())?)
}

fn steps(alloc: Global) -> Result<Vec<Given>, Fail> {
    let mut steps = Vec::new(alloc);
    steps.push(Given::Arrive(Arrival {
        link: 3,
        entry: list(alloc, "web")?,
        peer: Ip::V4(1),
    }))?;
    steps.push(Given::Bytes {
        link: 3,
        bytes: list(alloc, "hello")?,
    })?;
    steps.push(Given::Clock { now: 5 })?;
    steps.push(Given::End { link: 3 })?;
    steps.push(Given::Clock { now: 9 })?;
    steps.push(Given::Stop)?;
    Ok(steps)
}

fn expect_read(rt: &impl Abort, world: &mut MemoryWorld, link: u32, wanted: LinkRead, text: &str) {
    let mut room = [0u8; 4];
    assert!(rt; world.is_open(link));
    let answer = world.read(link, &mut room);
    assert!(rt; answer == wanted);
    if let LinkRead::Got(count) = answer {
        assert_eq!(rt; room.get(..count), Some(text.as_bytes()));
    }
}

fn expect_write(
    rt: &impl Abort,
    world: &mut MemoryWorld,
    link: u32,
    text: &str,
    wanted: LinkWrite,
) {
    assert!(rt; world.is_open(link));
    assert!(rt; !text.is_empty());
    assert!(rt; world.write(link, text.as_bytes()) == wanted);
}

fn expect_text(rt: &impl Abort, bytes: &[u8], wanted: &str) {
    assert_eq!(rt; bytes, wanted.as_bytes());
}

fn expect_arrival(
    rt: &impl Abort,
    world: &mut MemoryWorld,
    wanted: Option<u32>,
) -> Result<(), Fail> {
    let link = world.arrival()?.map(|arrival| arrival.link);
    assert_eq!(rt; link, wanted);
    Ok(())
}

fn first_part<R: Abort + Wait>(rt: &R, world: &mut MemoryWorld) -> Result<(), Fail> {
    assert_eq!(rt; world.now(), 0);
    expect_arrival(rt, world, None)?;
    assert!(rt; world.wait(rt, 0).is_ok());
    assert_eq!(rt; world.now(), 5);
    expect_arrival(rt, world, Some(3))?;
    expect_arrival(rt, world, None)?;
    expect_read(rt, world, 3, LinkRead::Got(4), "hell");
    expect_read(rt, world, 3, LinkRead::Got(1), "o");
    expect_read(rt, world, 3, LinkRead::NotYet, "");
    Ok(())
}

// The fifth counted call, a dial, was to fail.
fn dials<R: Abort + Wait>(rt: &R, world: &mut MemoryWorld) -> Result<(), Fail> {
    assert_eq!(rt; world.dial(b"a", 80)?, 4);
    expect_read(rt, world, 4, LinkRead::Failed, "");
    assert_eq!(rt; world.dial(b"b", 80)?, 5);
    expect_write(rt, world, 5, "abc", LinkWrite::Took(3));
    expect_read(rt, world, 5, LinkRead::NotYet, "");
    world.close(4);
    assert!(rt; !world.is_open(4));
    Ok(())
}

fn last_part<R: Abort + Wait>(rt: &R, world: &mut MemoryWorld) -> Result<(), Fail> {
    assert!(rt; world.wait(rt, 0).is_ok());
    assert_eq!(rt; world.now(), 9);
    expect_read(rt, world, 3, LinkRead::End, "");
    assert!(rt; !world.stop_asked());
    assert!(rt; world.wait(rt, 0).is_ok());
    assert!(rt; world.stop_asked());
    world.note(Note {
        link: 3,
        body: NoteBody::End(EndCause::Stopped),
    })?;
    assert!(rt; world.wait(rt, 0).is_err());
    Ok(())
}

#[test]
fn a_script(rt: HostRuntime) -> Result<(), Fail> {
    let alloc = rt.alloc();
    let failing = Vec::from_slice(alloc, &[5])?;
    let mut world = MemoryWorld::new(alloc, steps(alloc)?, failing)?;
    first_part(&rt, &mut world)?;
    dials(&rt, &mut world)?;
    last_part(&rt, &mut world)?;
    expect_text(&rt, &world.taken(alloc, 5)?, "abc");
    expect_text(&rt, &world.taken(alloc, 3)?, "");
    expect_text(&rt, &world.note_lines(alloc, 3)?, "note 3 end Stopped\n");
    Ok(())
}

// The second counted call, a read, and the third, a wait, were to fail.
fn faults<R: Abort + Wait>(rt: &R, world: &mut MemoryWorld) -> Result<(), Fail> {
    assert!(rt; world.wait(rt, 7).is_ok());
    assert_eq!(rt; world.now(), 5);
    expect_arrival(rt, world, Some(3))?;
    expect_read(rt, world, 3, LinkRead::Failed, "");
    assert!(rt; !world.stop_asked());
    assert!(rt; world.wait(rt, 8).is_err());
    world.close(3);
    Ok(())
}

fn tells_faults(records: &[Record]) -> bool {
    match records {
        [
            Record::Waited { until: 7 },
            Record::Clock { now: 5 },
            Record::Came {
                link: 3,
                stamp: 5,
                ..
            },
            Record::Failed { link: 3, stamp: 5 },
            Record::Asked { answer: false },
            Record::WaitFailed { until: 8 },
            Record::Closed { link: 3, stamp: 5 },
        ] => true,
        _ => false,
    }
}

#[test]
fn what_failed_and_what_was_asked_are_records(rt: HostRuntime) -> Result<(), Fail> {
    let alloc = rt.alloc();
    let failing = Vec::from_slice(alloc, &[2, 3])?;
    let mut world = MemoryWorld::new(alloc, steps(alloc)?, failing)?;
    faults(&rt, &mut world)?;
    assert!(rt; tells_faults(world.records()));
    assert!(rt; !world.has_lost_records());
    Ok(())
}
