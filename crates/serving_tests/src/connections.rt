//! Connections, as lists of events.
use conn_machine::{BackEvent, Conn, ConnEvent};
use generation::{Generation, one_router};
use ip_net::Ip;
use link_world::{Look, NodePick, Note, note_text};
use std::alloc::Global;
use std::process::Abort;
use std::sync::Arc;
use std::test::Fail;
use wrr_deadlines::Pick;

// What happens to a connection on link 0, whose server is on link 1. What is taken is all that is pending, this text.
#[derive(Clone, Copy)]
enum Act {
    Gives(&'static [u8]),
    Ends,
    Fails,
    Takes(&'static [u8]),
    // A configuration with one router, or without.
    Pins,
    PinsNone,
    Looks(u64),
    Draws,
    Dials,
    Server(BackEvent<'static>),
    ServerTakes(&'static [u8]),
    Stops,
}

// A configuration without routers.
fn empty(alloc: Global) -> Result<Arc<Generation, Global>, Fail> {
    Ok(Arc::new(alloc, Generation::empty(alloc, 1)?)?)
}

// A configuration with one router, which takes every path and leads to one server.
fn configuration(alloc: Global) -> Result<Arc<Generation, Global>, Fail> {
    match one_router(alloc, 1, b"PathPrefix(`/`)", b"http://127.0.0.1:9000")? {
        Some(generation) => Ok(Arc::new(alloc, generation)?),
        None => Err(Fail::from("not served")),
    }
}

fn event_of(alloc: Global, act: Act) -> Result<ConnEvent<'static>, Fail> {
    match act {
        Act::Gives(piece) => Ok(ConnEvent::Bytes(piece)),
        Act::Ends => Ok(ConnEvent::End),
        Act::Fails => Ok(ConnEvent::Failed),
        Act::Takes(text) => Ok(ConnEvent::Took(text.len())),
        Act::Pins => Ok(ConnEvent::Pinned(configuration(alloc)?)),
        Act::PinsNone => Ok(ConnEvent::Pinned(empty(alloc)?)),
        Act::Looks(mask) => Ok(ConnEvent::Looked(Look { node: 0, mask })),
        Act::Draws => Ok(ConnEvent::Drew(PICK)),
        Act::Dials => Ok(ConnEvent::Dialled { link: 1 }),
        Act::Server(event) => Ok(of_server(event)),
        Act::ServerTakes(text) => Ok(of_server(BackEvent::Took(text.len()))),
        Act::Stops => Ok(ConnEvent::Stop),
    }
}

const PICK: NodePick = NodePick {
    node: 0,
    pick: Pick {
        from: 0,
        to: 1,
        child: 0,
    },
};

fn of_server(event: BackEvent<'static>) -> ConnEvent<'static> {
    ConnEvent::Back { link: 1, event }
}

// What is taken is all that is pending.
fn expect_pending(rt: &impl Abort, conn: &Conn, act: Act) {
    match act {
        Act::Takes(text) => assert_eq!(rt; conn.pending(), text),
        Act::ServerTakes(text) => assert_eq!(rt; conn.back_pending(), text),
        _ => {}
    }
}

fn play(rt: &impl Abort, alloc: Global, conn: &mut Conn, act: Act) -> Result<(), Fail> {
    expect_pending(rt, conn, act);
    let event = event_of(alloc, act)?;
    conn.reserve()?;
    let comes = conn.enabled(event.shape()) && conn.asked(&event);
    assert!(rt; comes);
    if comes {
        conn.step(alloc, event)?;
    }
    Ok(())
}

fn play_all(rt: &impl Abort, alloc: Global, conn: &mut Conn, acts: &[Act]) -> Result<(), Fail> {
    for act in acts {
        play(rt, alloc, conn, *act)?;
    }
    Ok(())
}

// Appends the text of the next note, where there is one.
fn push_note(alloc: Global, conn: &mut Conn, text: &mut Vec<u8>) -> Result<(), Fail> {
    match conn.take_note(alloc) {
        Some(note) => push_text(alloc, &note, text),
        None => Ok(()),
    }
}

fn push_text(alloc: Global, note: &Note, text: &mut Vec<u8>) -> Result<(), Fail> {
    note_text(alloc, note, text)?;
    Ok(())
}

// What is left to note, as text.
fn notes_of(alloc: Global, conn: &mut Conn) -> Result<Vec<u8>, Fail> {
    let mut text = Vec::new(alloc);
    for _ in 0..8u32 {
        push_note(alloc, conn, &mut text)?;
    }
    Ok(text)
}

// These things happen, in three parts, and the connection notes this text.
fn run(
    rt: &impl Abort,
    alloc: Global,
    first: &[Act],
    then: &[Act],
    last: &[Act],
    text: &[u8],
) -> Result<(), Fail> {
    let mut conn = Conn::new(alloc, 0, b"web", Ip::V4(2_130_706_433))?;
    play_all(rt, alloc, &mut conn, first)?;
    play_all(rt, alloc, &mut conn, then)?;
    play_all(rt, alloc, &mut conn, last)?;
    let notes = notes_of(alloc, &mut conn)?;
    assert_eq!(rt; notes.as_slice(), text);
    Ok(())
}

// A request that went to its server.
const SENT: [Act; 6] = [
    Act::Gives(b"GET / HTTP/1.1\r\nHost: a.test\r\n\r\n"),
    Act::Pins,
    Act::Looks(1),
    Act::Draws,
    Act::Dials,
    Act::ServerTakes(
        b"GET / HTTP/1.1\r\nHost: a.test\r\nX-Forwarded-For: 127.0.0.1\r\nX-Forwarded-Host: a.test\r\nX-Forwarded-Port: 80\r\nX-Forwarded-Proto: http\r\nX-Real-Ip: 127.0.0.1\r\nConnection: close\r\n\r\n",
    ),
];

// The client takes the own reply of this status, and ends.
const NOT_FOUND: [Act; 2] = [
    Act::Takes(
        b"HTTP/1.1 404 Not Found\r\nContent-Type: text/plain; charset=utf-8\r\nContent-Length: 19\r\n\r\n404 page not found\n",
    ),
    Act::Ends,
];

const UNAVAILABLE: [Act; 2] = [
    Act::Takes(
        b"HTTP/1.1 503 Service Unavailable\r\nContent-Type: text/plain; charset=utf-8\r\nContent-Length: 24\r\n\r\n503 service unavailable\n",
    ),
    Act::Ends,
];

const BAD_GATEWAY: [Act; 2] = [
    Act::Takes(
        b"HTTP/1.1 502 Bad Gateway\r\nContent-Type: text/plain; charset=utf-8\r\nContent-Length: 16\r\n\r\n502 bad gateway\n",
    ),
    Act::Ends,
];

// A request that no router takes, cut at this place.
fn not_found(rt: &impl Abort, alloc: Global, at: usize) -> Result<(), Fail> {
    let request = b"GET / HTTP/1.1\r\nHost: a.test\r\n\r\n".as_slice();
    let (front, back) = request.split_at(at.min(request.len()));
    let acts = [Act::Gives(front), Act::Gives(back), Act::PinsNone];
    let text =
        b"note 0 1 gen 1 router - status 404 NoRouter looks - picks - turns - backs -\nnote 0 end Client\n";
    run(rt, alloc, &acts, &NOT_FOUND, &[], text)
}

// The server gives its reply in two pieces, cut at this place.
fn passed(rt: &impl Abort, alloc: Global, at: usize) -> Result<(), Fail> {
    let reply = b"HTTP/1.1 200 OK\r\nContent-Length: 2\r\n\r\nok".as_slice();
    let (front, back) = reply.split_at(at.min(reply.len()));
    let acts = [
        Act::Server(BackEvent::Bytes(front)),
        Act::Server(BackEvent::Bytes(back)),
    ];
    let text =
        b"note 0 1 gen 1 router 0 status 200 Passed looks 0:1 picks 0:0-1:0 turns - backs 1\nnote 0 end Client\n";
    run(
        rt,
        alloc,
        &SENT,
        &acts,
        &[Act::Takes(reply), Act::Ends],
        text,
    )
}

// Two requests in one piece: the second is answered after the first.
fn two(rt: &impl Abort, alloc: Global) -> Result<(), Fail> {
    let acts = [
        Act::Gives(b"GET / HTTP/1.1\r\nHost: a.test\r\n\r\nGET / HTTP/1.1\r\nHost: a.test\r\n\r\n"),
        Act::PinsNone,
        NOT_FOUND[0],
        Act::PinsNone,
    ];
    let text =
        b"note 0 1 gen 1 router - status 404 NoRouter looks - picks - turns - backs -\nnote 0 2 gen 1 router - status 404 NoRouter looks - picks - turns - backs -\nnote 0 end Client\n";
    run(rt, alloc, &acts, &NOT_FOUND, &[], text)
}

// Bytes that no head begins with.
fn refused(rt: &impl Abort, alloc: Global) -> Result<(), Fail> {
    let acts = [
        Act::Gives(b"\x00"),
        Act::Pins,
        Act::Takes(
            b"HTTP/1.1 400 Bad Request\r\nContent-Type: text/plain; charset=utf-8\r\nContent-Length: 16\r\nConnection: close\r\n\r\n400 bad request\n",
        ),
    ];
    let text =
        b"note 0 1 gen 1 router - status 400 BadHead looks - picks - turns - backs -\nnote 0 end Refused\n";
    run(rt, alloc, &acts, &[], &[], text)
}

// The server is down.
fn down(rt: &impl Abort, alloc: Global) -> Result<(), Fail> {
    let text =
        b"note 0 1 gen 1 router 0 status 503 NoChild looks 0:0 picks - turns - backs -\nnote 0 end Client\n";
    run(
        rt,
        alloc,
        &[SENT[0], Act::Pins],
        &[Act::Looks(0)],
        &UNAVAILABLE,
        text,
    )
}

// The client's link fails during an exchange, or a stop is asked for before a request.
fn broken_off(rt: &impl Abort, alloc: Global) -> Result<(), Fail> {
    let text =
        b"note 0 1 gen 1 router 0 status 0 Undecided looks 0:1 picks 0:0-1:0 turns - backs 1\nnote 0 end ClientFailed\n";
    run(rt, alloc, &SENT, &[Act::Fails], &[], text)?;
    run(rt, alloc, &[Act::Stops], &[], &[], b"note 0 end Stopped\n")
}

// The link fails, gives what is no reply, or ends inside a head.
fn lost(rt: &impl Abort, alloc: Global) -> Result<(), Fail> {
    let failed =
        b"note 0 1 gen 1 router 0 status 502 BackFailed 1 looks 0:1 picks 0:0-1:0 turns - backs 1\nnote 0 end Client\n".as_slice();
    let bad =
        b"note 0 1 gen 1 router 0 status 502 BackBad 1 looks 0:1 picks 0:0-1:0 turns - backs 1\nnote 0 end Client\n".as_slice();
    run(
        rt,
        alloc,
        &SENT,
        &[Act::Server(BackEvent::Failed)],
        &BAD_GATEWAY,
        failed,
    )?;
    run(
        rt,
        alloc,
        &SENT,
        &[Act::Server(BackEvent::Bytes(b"\x00"))],
        &BAD_GATEWAY,
        bad,
    )?;
    let acts = [
        Act::Server(BackEvent::Bytes(b"HTTP/1.1 200 OK\r\n")),
        Act::Server(BackEvent::End),
    ];
    run(rt, alloc, &SENT, &acts, &BAD_GATEWAY, bad)
}

// The link ends inside the content of its reply.
fn cut(rt: &impl Abort, alloc: Global) -> Result<(), Fail> {
    let piece = b"HTTP/1.1 200 OK\r\nContent-Length: 2\r\n\r\no";
    let acts = [
        Act::Server(BackEvent::Bytes(piece)),
        Act::Takes(piece),
        Act::Server(BackEvent::End),
    ];
    let text =
        b"note 0 1 gen 1 router 0 status 200 Passed looks 0:1 picks 0:0-1:0 turns - backs 1\nnote 0 end Cut 1\n";
    run(rt, alloc, &SENT, &acts, &[], text)
}

#[test]
fn connections(rt: HostRuntime) -> Result<(), Fail> {
    let alloc = rt.alloc();
    for at in 1..32u32 {
        not_found(&rt, alloc, at as usize)?;
    }
    for at in 1..40u32 {
        passed(&rt, alloc, at as usize)?;
    }
    two(&rt, alloc)?;
    refused(&rt, alloc)?;
    down(&rt, alloc)?;
    broken_off(&rt, alloc)?;
    lost(&rt, alloc)?;
    cut(&rt, alloc)
}
