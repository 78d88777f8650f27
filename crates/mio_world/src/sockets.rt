//! The sockets behind the places of links, and how ready each is. No contract speaks of what they carry.
ghost use Rattle.std.specs.Prelude.{◌≡◌, ◌<◌, length};
ghost use Rattle.std.specs.Net.Socket.{socket_ip};
ghost use Rattle.mio_world.specs.Addresses.{IsPeer};
ghost use Rattle.mio_world.specs.Fits.{FitsRead, FitsWrite};

use crate::address::{address_of, ip_of, socket_addr};
use crate::table::PLACES;
use ip_net::Ip;
use link_world::{LinkRead, LinkWrite, Listen};
use mio::net::{TcpListener, TcpStream};
use mio::{Events, Interest, Poll, Token};
use px_base::{Bytes, Memory};
use std::alloc::Global;
use std::collections::VecDeque;
use std::io;
use std::io::{ErrorKind, Read, Write};
use std::net::{Net, Shutdown, SocketAddr};
use std::time::Duration;

/// How long a closed link waits for the other side's end, in milliseconds.
const LINGER: u64 = 1_000;

/// So many reads of a link in one turn leave it ready: the next wait doesn't block.
const MANY: u64 = 63;

/// How the poll is told of a stream.
#[derive(Clone, Copy, PartialEq, Eq)]
enum Watch {
    Nothing,
    Reading,
    Both,
}

/// What is known of a stream without asking it.
#[derive(Clone, Copy)]
struct Ready {
    /// A read may give something.
    readable: bool,
    /// A write may take something.
    writable: bool,
    /// The other side has ended.
    hung: bool,
    /// This side dialled.
    dialled: bool,
    /// Something was written.
    written: bool,
    /// Small pieces go at once.
    nodelay: bool,
    /// It was closed, and waits for the other side's end.
    parked: bool,
    /// The poll is told of it at the next wait.
    queued: bool,
    watch: Watch,
}

const IDLE: Ready = Ready {
    readable: false,
    writable: false,
    hung: false,
    dialled: false,
    written: false,
    nodelay: false,
    parked: false,
    queued: false,
    watch: Watch::Nothing,
};

/// Of a stream that the poll isn't told of yet.
const NEW: Ready = Ready {
    writable: true,
    queued: true,
    ..IDLE
};

/// The socket behind a place.
#[derive(Drop)]
struct Line {
    ready: Ready,
    stream: Option<TcpStream>,
    /// Where it is to be dialled: at its first write, so that the first bytes come right behind the dial.
    to: Option<SocketAddr>,
}

impl Line {
    fn new(stream: Option<TcpStream>, ready: Ready) -> Line {
        Line {
            ready,
            stream,
            to: None,
        }
    }

    /// Dials, where that is still to be done.
    fn connect<R: Net>(&mut self, rt: &R) {
        let Some(to) = self.to else {
            return;
        };
        self.to = None;
        self.stream = TcpStream::connect(rt, to).ok();
        // One that failed is asked, and tells so.
        self.ready.readable = self.stream.is_none();
    }
}

/// A place whose link was closed, and until when it waits.
#[derive(Clone, Copy)]
struct Parked {
    at: usize,
    until: u64,
}

/// A listener, and whether a client may stand there.
#[derive(Drop)]
struct Door {
    listener: TcpListener,
    entry: Bytes,
    ready: bool,
}

/// A client that was accepted.
#[derive(Drop)]
pub(crate) struct Client {
    pub stream: TcpStream,
    pub entry: Bytes,
    pub peer: Ip,
}

#[derive(Drop)]
pub(crate) struct Sockets {
    poll: Poll,
    events: Events<Global>,
    doors: Vec<Door>,
    lines: Vec<Line>,
    /// The places without a stream, the one that is free for the longest first: so all use up
    /// their numbers alike.
    free: VecDeque<usize>,
    queue: Vec<usize>,
    parked: VecDeque<Parked>,
    /// A link has more to give than was read.
    eager: bool,
}

impl Sockets {
    /// No listener, and all places free.
    pub fn new<R: Net>(rt: &R, alloc: Global) -> io::Result<Sockets> {
        let poll = Poll::new(rt)?;
        let events = Events::with_capacity(alloc, 1024)?;
        let mut lines = Vec::with_capacity(alloc, PLACES)?;
        let mut free = VecDeque::with_capacity(alloc, PLACES)?;
        for at in 0..PLACES {
            lines.push(Line::new(None, IDLE))?;
            free.push_back(at)?;
        }
        Ok(Sockets {
            poll,
            events,
            doors: Vec::new(alloc),
            lines,
            free,
            queue: Vec::with_capacity(alloc, PLACES)?,
            parked: VecDeque::with_capacity(alloc, PLACES)?,
            eager: false,
        })
    }

    /// Binds a listener.
    pub fn listen<R: Net>(&mut self, rt: &R, alloc: Global, listen: &Listen) -> io::Result<()> {
        let entry = Bytes::from_slice(alloc, listen.entry.as_slice())?;
        let mut listener = TcpListener::bind(rt, socket_addr(listen.ip, listen.port))?;
        let token = Token(PLACES.saturating_add(self.doors.len()));
        self.poll
            .registry()
            .register(&mut listener, token, Interest::READABLE)?;
        self.doors.push(Door {
            listener,
            entry,
            ready: true,
        })?;
        Ok(())
    }

    /// The place that the next link gets.
    pub fn next_place(&self) -> Option<usize> {
        self.free.front().copied()
    }

    /// That place is no more free.
    pub fn take_place(&mut self) {
        self.free.pop_front();
    }

    /// The next client that stands at a listener.
    pub fn next_client(&mut self, alloc: Global) -> Result<Option<Client>, Memory> {
        for at in 0..self.doors.len() {
            if let Some(client) = accept(alloc, &mut self.doors[at])? {
                return Ok(Some(client));
            }
        }
        Ok(None)
    }

    /// Puts a client's stream behind a place.
    pub fn admit(&mut self, at: usize, stream: TcpStream) {
        let ready = Ready {
            readable: true,
            ..NEW
        };
        self.put(at, Line::new(Some(stream), ready));
    }

    /// Puts a stream behind a place that is dialled at its first write, or at the next wait. A name is looked up first,
    /// which may take a while.
    pub fn dial<R: Net>(&mut self, rt: &R, at: usize, host: &[u8], port: u16) {
        let to = address_of(rt, host, port);
        let ready = Ready {
            readable: to.is_none(),
            dialled: true,
            ..NEW
        };
        let line = Line {
            ready,
            stream: None,
            to,
        };
        self.put(at, line);
    }

    fn put(&mut self, at: usize, line: Line) {
        if at >= self.lines.len() {
            return;
        }
        self.lines[at] = line;
        let _ = self.queue.push(at);
    }

    /// Whether a read of the stream behind a place may give something.
    pub fn is_readable(&self, at: usize) -> bool {
        match self.lines.get(at) {
            Some(line) => line.ready.readable,
            None => true,
        }
    }

    /// Reads the stream behind a place. It stands apart from its caller, which is short where nothing is there.
    #[inline(never)]
    pub fn read(&mut self, at: usize, room: &mut [u8]) -> LinkRead
        requires { 0 < length room.old }
        ensures { FitsRead result (length room.new) }
    {
        if at >= self.lines.len() {
            return LinkRead::Failed;
        }
        read_line(&mut self.lines[at], room)
    }

    /// A link was read so often since the last wait, the last time with this answer.
    pub fn count_reads(&mut self, reads: u64, last: LinkRead) {
        if reads > MANY && last != LinkRead::NotYet {
            self.eager = true;
        }
    }

    /// Writes to the stream behind a place, unless it is known that it has no room. A stream without
    /// room, of whose room the poll isn't told yet, is put into the queue.
    pub fn write<R: Net>(&mut self, rt: &R, at: usize, piece: &[u8]) -> LinkWrite
        requires { 0 < length piece.now }
        ensures { FitsWrite result (length piece.now) }
    {
        if at >= self.lines.len() {
            return LinkWrite::Failed;
        }
        let line = &mut self.lines[at];
        line.connect(rt);
        let answer = write_line(line, piece);
        let ready = &mut line.ready;
        if !ready.writable && ready.watch != Watch::Both && !ready.queued {
            ready.queued = true;
            let _ = self.queue.push(at);
        }
        answer
    }

    /// Lets go of the stream behind a place. It is closed when the other side has ended, or after a second.
    pub fn let_go(&mut self, at: usize, now: u64) {
        if at >= self.lines.len() {
            return;
        }
        let until = now.saturating_add(LINGER);
        if stays(&mut self.lines[at]) && self.parked.push_back(Parked { at, until }).is_ok() {
            return;
        }
        self.release(at);
    }

    // Closes the stream behind a place, which is then free.
    fn release(&mut self, at: usize) {
        if at >= self.lines.len() {
            return;
        }
        self.lines[at] = Line::new(None, IDLE);
        let _ = self.free.push_back(at);
    }

    // Closes the streams that have waited long enough.
    fn expire(&mut self, now: u64) {
        for _ in 0..self.parked.len() {
            match self.parked.front() {
                Some(first) => {
                    if first.until > now {
                        return;
                    }
                }
                None => return,
            }
            if let Some(first) = self.parked.pop_front() {
                if first.at < self.lines.len() && self.lines[first.at].ready.parked {
                    self.release(first.at);
                }
            }
        }
    }

    // Tells the poll of the streams in the queue.
    fn watch_all<R: Net>(&mut self, rt: &R) {
        for _ in 0..self.queue.len() {
            if let Some(at) = self.queue.pop() {
                if at < self.lines.len() {
                    let line = &mut self.lines[at];
                    line.connect(rt);
                    watch_line(&self.poll, at, line);
                    // One that can't be dialled tells so at once: the wait doesn't block.
                    self.eager = self.eager || (line.ready.readable && line.stream.is_none());
                }
            }
        }
    }

    /// Waits until a socket is ready or the clock is at `until`, and answers whether that could be done.
    ///
    /// The ends that closed links wait for are nobody's to serve: where the clock has no part in it, it waits on while
    /// only these come.
    pub fn wait<R: Net>(&mut self, rt: &R, now: u64, until: u64) -> bool {
        self.expire(now);
        self.watch_all(rt);
        let timeout = self.timeout(now, until);
        let once = self.eager || until != u64::MAX;
        self.eager = false;
        for _ in 0..self.parked.len() {
            match self.poll_once(timeout) {
                Some(served) if served || once => return true,
                Some(_) => {}
                None => return false,
            }
        }
        self.poll_once(timeout).is_some()
    }

    // Waits once. Answers whether a turn may find something to do or the time is over; None where it couldn't wait.
    fn poll_once(&mut self, timeout: Option<Duration>) -> Option<bool> {
        self.poll.poll(&mut self.events, timeout).ok()?;
        Some(self.take_events())
    }

    // How long to wait.
    fn timeout(&self, now: u64, until: u64) -> Option<Duration> {
        if self.eager {
            return Some(Duration::ZERO);
        }
        let left = until.saturating_sub(now);
        if !self.parked.is_empty() {
            return Some(Duration::from_millis(left.min(LINGER)));
        }
        if until == u64::MAX {
            return None;
        }
        Some(Duration::from_millis(left))
    }

    // Notes which sockets are ready, and closes the streams of closed links that have ended. Answers whether others were
    // ready, or none at all.
    fn take_events(&mut self) -> bool {
        let mut events = 0_usize;
        let mut ends = 0_usize;
        for event in &self.events {
            events = events.saturating_add(1);
            let at = event.token().0;
            if at >= self.lines.len() {
                let door = at - self.lines.len();
                if door < self.doors.len() {
                    self.doors[door].ready = true;
                }
                continue;
            }
            let line = &mut self.lines[at];
            let ended = event.is_read_closed() || event.is_error();
            if line.ready.parked {
                ends = ends.saturating_add(1);
                if ended {
                    *line = Line::new(None, IDLE);
                    let _ = self.free.push_back(at);
                }
                continue;
            }
            line.ready.readable = line.ready.readable || event.is_readable() || ended;
            line.ready.writable = line.ready.writable || event.is_writable() || event.is_error();
            line.ready.hung = line.ready.hung || ended;
        }
        events == 0 || ends < events
    }
}

// The client behind a stream that was accepted from this address, at the listener of this entry point.
fn client_of(stream: TcpStream, from: SocketAddr, entry: Bytes) -> Client
    ensures entry { result.entry ≡ entry }
    ensures peer { IsPeer (socket_ip from) result.peer }
{
    Client {
        stream,
        entry,
        peer: ip_of(from),
    }
}

// A client that stands at this listener.
fn accept(alloc: Global, door: &mut Door) -> Result<Option<Client>, Memory> {
    if !door.ready {
        return Ok(None);
    }
    let entry = Bytes::from_slice(alloc, door.entry.as_slice())?;
    match door.listener.accept() {
        Ok((stream, from)) => Ok(Some(client_of(stream, from, entry))),
        Err(e) => {
            if e.kind() == ErrorKind::WouldBlock {
                door.ready = false;
            }
            Ok(None)
        }
    }
}

fn read_line(line: &mut Line, room: &mut [u8]) -> LinkRead
    requires { 0 < length room.old }
    ensures { FitsRead result (length room.new) }
{
    let size = room.len();
    let Some(stream) = &mut line.stream else {
        return LinkRead::Failed;
    };
    match stream.read(room) {
        Ok(count) => {
            if count == 0 {
                line.ready.hung = true;
                return LinkRead::End;
            }
            // A short read empties the stream; after the other side's end no event tells so again.
            line.ready.readable = line.ready.hung || count >= size;
            LinkRead::Got(count)
        }
        Err(e) => {
            if e.kind() == ErrorKind::WouldBlock {
                line.ready.readable = false;
                return LinkRead::NotYet;
            }
            LinkRead::Failed
        }
    }
}

fn write_line(line: &mut Line, piece: &[u8]) -> LinkWrite
    requires { 0 < length piece.now }
    ensures { FitsWrite result (length piece.now) }
{
    if !line.ready.writable {
        return LinkWrite::NotYet;
    }
    let Some(stream) = &mut line.stream else {
        return LinkWrite::Failed;
    };
    // The first piece goes at once in any case.
    if line.ready.written && !line.ready.nodelay {
        let _ = stream.set_nodelay(true);
        line.ready.nodelay = true;
    }
    match stream.write(piece) {
        Ok(count) => {
            if count == 0 {
                line.ready.writable = false;
                return LinkWrite::NotYet;
            }
            line.ready.written = true;
            line.ready.writable = count >= piece.len();
            LinkWrite::Took(count)
        }
        Err(e) => {
            if e.kind() == ErrorKind::WouldBlock {
                line.ready.writable = false;
                return LinkWrite::NotYet;
            }
            LinkWrite::Failed
        }
    }
}

// Whether the stream of a closed link has to wait for the other side's end. A client is told that
// nothing more comes.
fn stays(line: &mut Line) -> bool {
    if line.ready.hung {
        return false;
    }
    let Some(stream) = &line.stream else {
        return false;
    };
    if !line.ready.dialled && stream.shutdown(Shutdown::Write).is_err() {
        return false;
    }
    line.ready.parked = true;
    true
}

// Tells the poll of a stream: of its room too, where it had none.
fn watch_line(poll: &Poll, at: usize, line: &mut Line) {
    line.ready.queued = false;
    let Some(stream) = &mut line.stream else {
        return;
    };
    let both = !line.ready.writable;
    let interest = if both {
        Interest::READABLE | Interest::WRITABLE
    } else {
        Interest::READABLE
    };
    let told = if line.ready.watch == Watch::Nothing {
        poll.registry().register(stream, Token(at), interest)
    } else {
        poll.registry().reregister(stream, Token(at), interest)
    };
    if told.is_err() {
        // Nobody would tell that it is ready, so it is asked.
        line.ready.readable = true;
        line.ready.writable = true;
        return;
    }
    line.ready.watch = if both { Watch::Both } else { Watch::Reading };
}
