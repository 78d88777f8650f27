//! Whole runs.
ghost use Rattle.std.specs.Prelude.{ℕ, IfOk};
ghost use Rattle.system_core.specs.Answers.{IsNext};

use crate::draws::Pop;
use crate::{Event, Kind, Refused, System};
use conn_machine::{EventKind, StateName};
use generation::{Generation, one_router};
use ip_net::Ip;
use link_world::{NodePick, note_text};
use px_base::{Bytes, Memory};
use std::alloc::Global;
use std::process::Abort;
use std::sync::Arc;
use std::test::Fail;
use wrr_deadlines::Pick;

// An event that brings no configuration.
#[derive(Clone, Copy)]
enum Step {
    Publish,
    Arrive,
    Bytes(u32, &'static [u8]),
    End(u32),
    Fail(u32),
    Pin(u32),
    Look(u32),
    Draw(u32),
    Dial(u32),
    Took(u32, usize),
    Stop,
}

fn event_of(alloc: Global, step: Step) -> Result<Event, Memory>
    ensures { IfOk result (λ e. (n : ℕ) → IsNext e n) }
{
    Ok(match step {
        Step::Publish => Event::Publish,
        Step::Arrive => Event::Arrive {
            entry: Bytes::from_slice(alloc, b"web")?,
            peer: Ip::V4(2_130_706_433),
        },
        Step::Bytes(link, bytes) => Event::Bytes {
            link,
            bytes: Bytes::from_slice(alloc, bytes)?,
        },
        Step::End(link) => Event::End { link },
        Step::Fail(link) => Event::Fail { link },
        Step::Pin(link) => Event::Pin { link },
        Step::Look(link) => Event::Look { link },
        Step::Draw(link) => Event::Draw { link },
        Step::Dial(link) => Event::Dial { link },
        Step::Took(link, count) => Event::Took { link, count },
        Step::Stop => Event::Stop,
    })
}

fn run(alloc: Global, system: &mut System, steps: &[Step]) -> Result<(), Fail> {
    for step in steps {
        let event = event_of(alloc, *step)?;
        if system.event(alloc, event).is_err() {
            return Err(Fail::from("refused"));
        }
    }
    Ok(())
}

fn refuses(
    rt: &impl Abort,
    alloc: Global,
    system: &mut System,
    step: Step,
    refused: Refused,
) -> Result<(), Fail> {
    let event = event_of(alloc, step)?;
    assert!(rt; system.event(alloc, event) == Err(refused));
    Ok(())
}

// A system whose one router takes each request.
fn system_with_router(alloc: Global) -> Result<System, Fail> {
    let first = Arc::new(alloc, Generation::empty(alloc, 0)?)?;
    let mut system = System::new(alloc, first)?;
    let number = system.published();
    let Some(generation) = one_router(alloc, number, b"PathPrefix(`/`)", b"http://127.0.0.1:9000")?
    else {
        return Err(Fail::from("not served"));
    };
    let issue = Arc::new(alloc, generation)?;
    if system.event(alloc, Event::Config { issue }).is_err() {
        return Err(Fail::from("refused"));
    }
    Ok(system)
}

const REQUEST: &[u8] = b"GET / HTTP/1.1\r\nHost: a.test\r\n\r\n";

const REPLY: &[u8] = b"HTTP/1.1 200 OK\r\nContent-Length: 2\r\n\r\nok";

// Two connections whose events interleave.
#[test]
fn two_connections(rt: HostRuntime) -> Result<(), Fail> {
    let alloc = rt.alloc();
    let mut system = system_with_router(alloc)?;
    run(
        alloc,
        &mut system,
        &[
            Step::Publish,
            Step::Arrive,
            Step::Arrive,
            Step::Bytes(0, REQUEST),
            Step::Bytes(1, REQUEST),
            Step::Pin(1),
            Step::Look(1),
            Step::Draw(1),
            Step::Dial(1),
            Step::Pin(0),
            Step::Fail(2),
            Step::Look(0),
            Step::Draw(0),
            Step::Dial(0),
            Step::Bytes(3, REPLY),
            Step::Took(0, 40),
            Step::End(0),
            Step::Stop,
        ],
    )?;
    assert_eq!(rt; system.links().len(), 4);
    assert_eq!(rt; system.links()[0].sent.as_slice(), REPLY);
    assert_eq!(rt; system.notes().len(), 4);
    Ok(())
}

#[test]
fn refusals(rt: HostRuntime) -> Result<(), Fail> {
    let alloc = rt.alloc();
    let mut system = system_with_router(alloc)?;
    run(alloc, &mut system, &[Step::Publish, Step::Arrive])?;
    let publish = Refused::NotEnabled {
        kind: Kind::Publish,
        state: StateName::Idle,
    };
    refuses(&rt, alloc, &mut system, Step::Publish, publish)?;
    refuses(
        &rt,
        alloc,
        &mut system,
        Step::Pin(1),
        Refused::NoSuchLink { link: 1 },
    )?;
    let pin = Refused::NotEnabled {
        kind: Kind::Conn(EventKind::Pin),
        state: StateName::Idle,
    };
    refuses(&rt, alloc, &mut system, Step::Pin(0), pin)?;
    run(alloc, &mut system, &[Step::Stop])?;
    let arrive = Refused::NotEnabled {
        kind: Kind::Arrive,
        state: StateName::Idle,
    };
    refuses(&rt, alloc, &mut system, Step::Arrive, arrive)
}

const UNAVAILABLE: &[u8] =
    b"HTTP/1.1 503 Service Unavailable\r\nContent-Type: text/plain; charset=utf-8\r\nContent-Length: 24\r\n\r\n503 service unavailable\n";

// The last pick of the balancer of the first configuration: all its pops are taken.
const LAST: Pop = Pop {
    number: 1,
    pick: NodePick {
        node: 0,
        pick: Pick {
            from: 4_611_686_018_427_387_903,
            to: 4_611_686_018_427_387_904,
            child: 0,
        },
    },
};

// A balancer without pops left: the draw is refused, and the client gets 503.
#[test]
fn spent(rt: HostRuntime) -> Result<(), Fail> {
    let alloc = rt.alloc();
    let mut system = system_with_router(alloc)?;
    system.pops.push(LAST)?;
    run(
        alloc,
        &mut system,
        &[
            Step::Publish,
            Step::Arrive,
            Step::Bytes(0, REQUEST),
            Step::Pin(0),
            Step::Look(0),
            Step::Draw(0),
            Step::Took(0, UNAVAILABLE.len()),
        ],
    )?;
    assert_eq!(rt; system.links().len(), 1);
    assert_eq!(rt; system.links()[0].sent.as_slice(), UNAVAILABLE);
    let mut notes = Vec::new(alloc);
    for note in system.notes() {
        note_text(alloc, note, &mut notes)?;
    }
    assert_eq!(rt;
        notes.as_slice(),
        b"note 0 1 gen 1 router 0 status 503 Spent 0 looks 0:1 picks - turns - backs -\n".as_slice()
    );
    Ok(())
}
