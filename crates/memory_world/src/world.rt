//! The world in memory: what its calls do.
ghost use Rattle.std.specs.Prelude.{◌≡◌, ◌<◌, length, true, false, IfOk};
ghost use Rattle.px_base.specs.Bytes.{one_more};
ghost use Rattle.px_base.specs.Memory.{is_listed};
ghost use Rattle.memory_world.specs.Books.{AreRecords};
ghost use Rattle.memory_world.specs.Logs.{is_open};
ghost use Rattle.memory_world.specs.Scripts.{Begins};

use crate::book::Book;
use crate::mark::Mark;
use crate::record::Record;
use crate::script::{Fetched, Given, Script};
use link_world::{Arrival, LinkRead, LinkWrite, Note, WaitFailed, World};
use px_base::{Bytes, Memory};
use std::alloc::{AllocError, Global};
use std::sync::Wait;

/// Which calls fail: those whose numbers are listed. The first has the number 1.
#[derive(Drop)]
pub(crate) struct Failing {
    listed: Vec<u64>,
    calls: u64,
}

impl Failing {
    /// Whether the next call fails.
    fn next(&mut self) -> bool
        ensures calls { self.new.calls ≡ one_more self.old.calls }
        ensures fails { result ≡ is_listed self.old.listed.items (one_more self.old.calls) }
        ensures same { self.new.listed ≡ self.old.listed }
    {
        self.calls = self.calls.saturating_add(1);
        self.listed.as_slice().contains(&self.calls)
    }
}

/// A world whose outside is a script. It tells its log.
#[derive(Drop)]
pub struct MemoryWorld {
    alloc: Global,
    script: Script,
    failing: Failing,
    book: Book,
    next_dial: u64,
    clock: u64,
    waits: u64,
    waits_failed: u64,
    stops: u64,
    clocked: bool,
    no_more: bool,
}

impl MemoryWorld {
    /// No two arrivals have one link, and no clock is below an earlier one. Dials take the numbers
    /// after the greatest link that arrives. Each wait lets come the steps up to and with the next
    /// clock, or all that are left, and fails where none is left. The clock answers 0 until one came.
    /// Of the calls of `dial`, `read`, `write` and `wait`, counted together from 1, those listed fail.
    pub fn new(alloc: Global, steps: Vec<Given>, failing: Vec<u64>) -> Result<MemoryWorld, Memory>
        ensures { IfOk result (Begins steps.items failing.items) }
    {
        let script = Script::new(alloc, steps)?;
        let next_dial = script.first_dial();
        Ok(MemoryWorld {
            alloc,
            script,
            failing: Failing {
                listed: failing,
                calls: 0,
            },
            book: Book::new(alloc),
            next_dial,
            clock: 0,
            waits: 0,
            waits_failed: 0,
            stops: 0,
            clocked: false,
            no_more: false,
        })
    }

    /// Whether the link was given and isn't closed.
    pub fn is_open(&self, link: u32) -> bool
        ensures { result ≡ is_open self.now link }
    {
        match self.book.find(link) {
            Some(at) => self.book.mark(at, link).is_open,
            None => false,
        }
    }

    /// What was done, in order. Where memory ran out, the record of a failed wait, of a call on a link that failed or of a
    /// question whether to stop may be left out.
    pub fn records(&self) -> &[Record]
        ensures kept { AreRecords self.now.book.marks self.now.book.log result.now }
        ensures all { self.now.book.lost ≡ false → result.now ≡ self.now.book.log }
    {
        self.book.records()
    }

    /// Whether a record was left out.
    pub fn has_lost_records(&self) -> bool
        ensures { result ≡ self.now.book.lost }
    {
        self.book.has_lost()
    }
}

impl World for MemoryWorld {
    ghost use Rattle.memory_world.specs.Told.{seen_of};
    ghost use Rattle.memory_world.specs.Marks.{lately_of};

    ghost seen = { λ w. seen_of w.clock w.waits w.waits_failed w.stops w.book.marks w.book.log };

    ghost lately = { λ w. lately_of w.clocked w.no_more w.book.marks };

    fn wait<R: Wait>(&mut self, _rt: &R, until: u64) -> Result<(), WaitFailed> {
        if self.failing.next() || self.script.is_over() {
            self.waits_failed = self.waits_failed.saturating_add(1);
            self.book.tell(Record::WaitFailed { until });
            return Err(WaitFailed);
        }
        let Ok(()) = self.book.begin(until) else {
            self.waits_failed = self.waits_failed.saturating_add(1);
            self.book.tell(Record::WaitFailed { until });
            return Err(WaitFailed);
        };
        self.waits = self.waits.saturating_add(1);
        self.clocked = false;
        self.no_more = false;
        self.script.release();
        Ok(())
    }

    fn now(&mut self) -> u64 {
        self.clocked = true;
        let next = self.script.clock();
        if next <= self.clock {
            return self.clock;
        }
        let Ok(()) = self.book.push(Record::Clock { now: next }) else {
            return self.clock;
        };
        self.clock = next;
        next
    }

    fn arrival(&mut self) -> Result<Option<Arrival>, Memory> {
        self.no_more = false;
        let Some(arrival) = self.script.arrival() else {
            self.no_more = true;
            return Ok(None);
        };
        let link = arrival.link;
        let peer = arrival.peer;
        if !self.book.is_new(link) {
            self.no_more = true;
            return Ok(None);
        }
        let entry = Bytes::from_slice(self.alloc, arrival.entry.as_slice())?;
        let told = Bytes::from_slice(self.alloc, entry.as_slice())?;
        let came = Record::Came {
            link,
            stamp: self.clock,
            entry: told,
            peer,
        };
        self.book.come(Mark::new(link, false), came)?;
        self.script.take_arrival();
        Ok(Some(Arrival { link, entry, peer }))
    }

    fn dial(&mut self, host: &[u8], port: u16) -> Result<u32, Memory> {
        let is_dead = self.failing.next();
        let Ok(link) = u32::try_from(self.next_dial) else {
            return Err(AllocError);
        };
        if !self.book.is_new(link) {
            return Err(AllocError);
        }
        let host = Bytes::from_slice(self.alloc, host)?;
        let dialled = Record::Dialled {
            link,
            stamp: self.clock,
            host,
            port,
        };
        self.book.come(Mark::new(link, is_dead), dialled)?;
        self.next_dial = self.next_dial.saturating_add(1);
        Ok(link)
    }

    fn read(&mut self, link: u32, room: &mut [u8]) -> LinkRead {
        let Some(at) = self.book.find(link) else {
            unreachable!()
        };
        let mark = self.book.mark(at, link);
        let stamp = self.clock;
        if self.failing.next() || mark.is_dead {
            self.book.fail(at, mark.read(false), stamp);
            return LinkRead::Failed;
        }
        match self.script.fetch(link, room) {
            Fetched::NotYet => {
                self.book.put(at, mark.read(true));
                LinkRead::NotYet
            }
            Fetched::End => {
                let end = Record::GaveEnd { link, stamp };
                let Ok(()) = self.book.did_read(at, mark, stamp, end) else {
                    return LinkRead::Failed;
                };
                LinkRead::End
            }
            Fetched::Got(n) => {
                let Ok(bytes) = Bytes::from_slice(self.alloc, &room[..n]) else {
                    self.book.fail(at, mark.read(false), stamp);
                    return LinkRead::Failed;
                };
                let gave = Record::Gave { link, stamp, bytes };
                let Ok(()) = self.book.did_read(at, mark, stamp, gave) else {
                    return LinkRead::Failed;
                };
                self.script.advance(link, n);
                LinkRead::Got(n)
            }
        }
    }

    fn write(&mut self, link: u32, piece: &[u8]) -> LinkWrite {
        let Some(at) = self.book.find(link) else {
            unreachable!()
        };
        let mark = self.book.mark(at, link);
        let stamp = self.clock;
        if self.failing.next() || mark.is_dead {
            self.book.fail(at, mark.written(false), stamp);
            return LinkWrite::Failed;
        }
        let Ok(bytes) = Bytes::from_slice(self.alloc, piece) else {
            self.book.fail(at, mark.written(false), stamp);
            return LinkWrite::Failed;
        };
        let took = Record::Took { link, stamp, bytes };
        let Ok(()) = self.book.did_write(at, mark, stamp, took) else {
            return LinkWrite::Failed;
        };
        LinkWrite::Took(piece.len())
    }

    fn close(&mut self, link: u32) {
        let Some(at) = self.book.find(link) else {
            return;
        };
        let mark = self.book.mark(at, link);
        if !mark.is_open {
            return;
        }
        let stamp = self.clock;
        self.book.close(at, mark, Record::Closed { link, stamp });
    }

    fn note(&mut self, note: Note) -> Result<(), Memory> {
        let stamp = self.clock;
        let Ok(()) = self.book.push(Record::Noted { note, stamp }) else {
            self.waits_failed = self.waits_failed.saturating_add(1);
            return Err(AllocError);
        };
        Ok(())
    }

    fn stop_asked(&mut self) -> bool {
        if !self.script.has_stop() {
            self.book.tell(Record::Asked { answer: false });
            return false;
        }
        self.book.tell(Record::Asked { answer: true });
        self.stops = self.stops.saturating_add(1);
        true
    }
}
