//! The world of real sockets: what its calls answer follows the meanings of `World`, and what the
//! sockets carry is the system's.
ghost use Rattle.std.specs.Prelude.{◌≡◌, ◌≤◌, ◌<◌, length, true, false, IfOk, OnOk, OnErr};
ghost use Rattle.link_world.specs.Lately.{OnlyAt, WaitLately, ArrivalLately, DialLately, ReadLately, WriteLately};
ghost use Rattle.link_world.specs.Seen.{WaitDid, NowDid, ArrivalDid, DialDid, ReadDid, WriteDid, CloseDid, NoteDid, StopDid};
ghost use Rattle.mio_world.specs.Notes.{TakeDid, first_notes, is_due as is_stop_due};
ghost use Rattle.mio_world.specs.Slots.{meaning, new_seen, new_lately};
ghost use Rattle.mio_world.specs.Worlds.{seen_in, lately_in};

use crate::access::Access;
use crate::notes::Notes;
use crate::sockets::Sockets;
use crate::table::{Table, place};
use link_world::{Arrival, LinkRead, LinkWrite, Listen, Note, WaitFailed, World};
use px_base::{Memory, Sink};
use std::alloc::{AllocError, Global};
use std::io;
use std::net::Net;
use std::sync::Wait;
use std::time::{Clock, Instant};

/// Why a world can't begin.
#[derive(Clone, Copy, Debug, PartialEq, Eq)]
pub enum BindFault {
    /// The listener at this place of the list can't be bound, or the system gives no poll.
    Bind { listen: u32 },
    Memory,
}

/// A world over the system's sockets. It keeps the runtime, and tells no log.
#[derive(Drop)]
pub struct MioWorld<R: Net + Clock + Drop, K: Sink + Drop> {
    rt: R,
    alloc: Global,
    sockets: Sockets,
    table: Table,
    start: Instant,
    clock: u64,
    waits_failed: u64,
    stops: u64,
    clocked: bool,
    no_more: bool,
    notes: Notes<K>,
}

impl<R: Net + Clock + Drop, K: Sink + Drop> MioWorld<R, K> {
    /// Binds the listeners. Nothing has happened in the world then. Notes go to `access`, and a stop is asked for with the note of
    /// the request with the number `requests`, from 1.
    pub fn bind(
        rt: R,
        alloc: Global,
        listens: &[Listen],
        access: Access<K>,
        requests: Option<u64>,
    ) -> Result<MioWorld<R, K>, BindFault>
        ensures seen { IfOk result (λ w. seen_in w ≡ new_seen) }
        ensures lately { IfOk result (λ w. lately_in w ≡ new_lately) }
        ensures notes { IfOk result (λ w. w.notes ≡ first_notes access requests) }
    {
        let table = match Table::new(alloc) {
            Ok(table) => table,
            Err(_) => return Err(BindFault::Memory),
        };
        let mut sockets = match Sockets::new(&rt, alloc) {
            Ok(sockets) => sockets,
            Err(e) => return Err(fault_of(e, 0)),
        };
        for (at, listen) in listens.iter().enumerate() {
            if let Err(e) = sockets.listen(&rt, alloc, listen) {
                return Err(fault_of(e, at));
            }
        }
        let start = match Instant::now(&rt) {
            Ok(start) => start,
            Err(e) => return Err(fault_of(e, 0)),
        };
        let notes = Notes::new(access, requests);
        Ok(MioWorld {
            rt,
            alloc,
            sockets,
            table,
            start,
            clock: 0,
            waits_failed: 0,
            stops: 0,
            clocked: false,
            no_more: false,
            notes,
        })
    }

    /// Whether a note was refused.
    pub fn has_refused(&self) -> bool
        ensures { result ≡ self.now.notes.refused }
    {
        self.notes.has_refused()
    }

    /// Whether the link was given and isn't closed.
    pub fn is_open(&self, link: u32) -> bool
        ensures { result ≡ (meaning self.now.table link).is_open }
    {
        self.table.is_open(link)
    }
}

fn fault_of(e: io::Error, at: usize) -> BindFault {
    if e.kind() == io::ErrorKind::OutOfMemory {
        return BindFault::Memory;
    }
    BindFault::Bind {
        listen: u32::try_from(at).unwrap_or(u32::MAX),
    }
}

// The milliseconds since the start, or what was answered last where the clock doesn't tell.
fn read_clock<R: Clock>(rt: &R, start: Instant, last: u64) -> u64
    ensures { last ≤ result }
{
    match start.elapsed(rt) {
        Ok(passed) => u64::try_from(passed.as_millis()).unwrap_or(last).max(last),
        Err(_) => last,
    }
}

impl<R: Net + Clock + Drop, K: Sink + Drop> World for MioWorld<R, K> {
    ghost use Rattle.mio_world.specs.Worlds.{seen_in, lately_in};

    ghost seen = { λ w. seen_in w };

    ghost lately = { λ w. lately_in w };

    fn wait<W: Wait>(&mut self, _rt: &W, until: u64) -> Result<(), WaitFailed>
        ensures seen { WaitDid (seen_in self.old) until result (seen_in self.new) }
        ensures lately { WaitLately (seen_in self.old).is_open (lately_in self.old) result (lately_in self.new) }

        // After a note was refused each wait fails.
        ensures taken { OnOk result (self.old.notes.refused ≡ false) }
        ensures notes { self.new.notes ≡ self.old.notes }
    {
        if self.notes.has_refused() || self.table.waits() == u64::MAX {
            self.waits_failed = self.waits_failed.saturating_add(1);
            return Err(WaitFailed);
        }
        if !self.sockets.wait(&self.rt, self.clock, until) {
            self.waits_failed = self.waits_failed.saturating_add(1);
            return Err(WaitFailed);
        }
        self.table.begin();
        self.clocked = false;
        self.no_more = false;
        Ok(())
    }

    fn now(&mut self) -> u64
        ensures seen { NowDid (seen_in self.old) result (seen_in self.new) }
        ensures lately { lately_in self.new ≡ record (lately_in self.old) { clocked = true } }
        ensures notes { self.new.notes ≡ self.old.notes }
    {
        let now = read_clock(&self.rt, self.start, self.clock);
        self.clocked = true;
        self.clock = now;
        now
    }

    fn arrival(&mut self) -> Result<Option<Arrival>, Memory>
        ensures seen { ArrivalDid (seen_in self.old) result (seen_in self.new) }
        ensures lately { ArrivalLately (lately_in self.old) result (lately_in self.new) }
        ensures notes { self.new.notes ≡ self.old.notes }
    {
        self.no_more = false;
        let Some(at) = self.sockets.next_place() else {
            self.no_more = true;
            return Ok(None);
        };
        let Some(client) = self.sockets.next_client(self.alloc)? else {
            self.no_more = true;
            return Ok(None);
        };
        self.sockets.take_place();
        let Some(link) = self.table.give(at) else {
            return Err(AllocError);
        };
        self.sockets.admit(at, client.stream);
        Ok(Some(Arrival {
            link,
            entry: client.entry,
            peer: client.peer,
        }))
    }

    fn dial(&mut self, host: &[u8], port: u16) -> Result<u32, Memory>
        ensures seen { DialDid (seen_in self.old) host.now port result (seen_in self.new) }
        ensures lately { DialLately (lately_in self.old) result (lately_in self.new) }
        ensures notes { self.new.notes ≡ self.old.notes }
    {
        let Some(at) = self.sockets.next_place() else {
            return Err(AllocError);
        };
        self.sockets.take_place();
        let Some(link) = self.table.give(at) else {
            return Err(AllocError);
        };
        self.sockets.dial(&self.rt, at, host, port);
        Ok(link)
    }

    fn read(&mut self, link: u32, room: &mut [u8]) -> LinkRead
        requires given { (seen_in self.old).is_open link ≡ true }
        requires room { 0 < length room.old }
        ensures seen { ReadDid (seen_in self.old) link result room.new (seen_in self.new) }
        ensures lately { ReadLately (lately_in self.old) link result (lately_in self.new) }
        ensures notes { self.new.notes ≡ self.old.notes }
    {
        let at = place(link);
        if !self.sockets.is_readable(at) {
            self.table.did_read(link, LinkRead::NotYet);
            return LinkRead::NotYet;
        }
        let answer = self.sockets.read(at, room);
        let reads = self.table.did_read(link, answer);
        self.sockets.count_reads(reads, answer);
        answer
    }

    fn write(&mut self, link: u32, piece: &[u8]) -> LinkWrite
        requires given { (seen_in self.old).is_open link ≡ true }
        requires piece { 0 < length piece.now }
        ensures seen { WriteDid (seen_in self.old) link piece.now result (seen_in self.new) }
        ensures lately { WriteLately (lately_in self.old) link result (lately_in self.new) }
        ensures notes { self.new.notes ≡ self.old.notes }
    {
        let answer = self.sockets.write(&self.rt, place(link), piece);
        self.table.did_write(link, answer);
        answer
    }

    fn close(&mut self, link: u32)
        ensures seen { CloseDid (seen_in self.old) link (seen_in self.new) }
        ensures lately { OnlyAt link (lately_in self.old) (lately_in self.new) }
        ensures notes { self.new.notes ≡ self.old.notes }
    {
        if self.table.is_open(link) {
            self.table.close(link);
            self.sockets.let_go(place(link), self.clock);
        }
    }

    fn note(&mut self, note: Note) -> Result<(), Memory>
        ensures seen { NoteDid (seen_in self.old) note result (seen_in self.new) }
        ensures lately { lately_in self.new ≡ lately_in self.old }

        // It is written and counted; or it is refused, as each one after it, and the next wait fails.
        ensures taken { OnOk result (TakeDid K.held K.faults self.old.notes note self.new.notes) }
        ensures same { OnErr result (self.new.notes ≡ self.old.notes) }
    {
        self.notes.take(self.alloc, &note)
    }

    fn stop_asked(&mut self) -> bool
        ensures seen { StopDid (seen_in self.old) result (seen_in self.new) }
        ensures lately { lately_in self.new ≡ lately_in self.old }

        // Exactly once so many requests were noted, unless a note was refused.
        ensures due { result ≡ is_stop_due self.old.notes }
        ensures notes { self.new.notes ≡ self.old.notes }
    {
        if !self.notes.is_due() {
            return false;
        }
        self.stops = self.stops.saturating_add(1);
        true
    }
}
