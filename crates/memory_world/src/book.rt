//! What was done in a world in memory, and its links.
ghost use Rattle.std.specs.Prelude.{◌≡◌, ◌+◌, ◌<◌, ◌≤◌, [], ◌∷◌, ◌++◌, ℕ, map, length, true, false, IfSome, IfNone, OnOk, OnErr, IsTrue};
ghost use Rattle.link_world.specs.Log.{IsFresh};
ghost use Rattle.memory_world.specs.Records.{event_of};
ghost use Rattle.memory_world.specs.Marks.{has, mark_of, IsFirst, Put, Added, open_count, after_read, after_write, after_fault, after_close, after_wait};
ghost use Rattle.memory_world.specs.Books.{is_spare, AreRecords};

use crate::mark::{Mark, begin_all, find, mark_at, put_mark};
use crate::record::{Record, is_fresh};
use http_server::Log;
use px_base::Memory;
use std::alloc::{AllocError, Global};
use std::marker::Model;

/// The records and the links. It always has the room in which the close of each open link is kept.
#[derive(Drop)]
pub(crate) struct Book {
    records: Vec<Record>,
    marks: Vec<Mark>,
    /// All that was done, as contracts see it: it takes no memory. The numbers in it say nothing.
    told: Log<Record, u8>,
    has_lost: bool,
}

impl Model for Book {
    ghost use Rattle.std.specs.Prelude.{◌≡◌, ◌+◌, ◌≤◌, false, vec_len, vec_capacity};
    ghost use Rattle.memory_world.specs.Marks.{open_count};
    ghost use Rattle.memory_world.specs.Books.{BookView, AreRecords, log_in};

    ghost Value = { BookView };

    ghost view = { λ b. record { log = log_in b.told.items; marks = b.marks.items; lost = b.has_lost } };

    ghost invariant = { λ b. (vec_len b.records + open_count b.marks.items ≤ vec_capacity b.records)
        × (AreRecords b.marks.items (log_in b.told.items) b.records.items
        × (b.has_lost ≡ false → b.records.items ≡ log_in b.told.items)) };
}

impl Book {
    pub fn new(alloc: Global) -> Book
        ensures { result ≡ record { log = []; marks = []; lost = false } }
    {
        let records = Vec::new(alloc);
        let marks = Vec::new(alloc);
        let told = Log::new();
        Book {
            records,
            marks,
            told,
            has_lost: false,
        }
    }

    /// The records of what was done. Where memory ran out, spare ones may be left out.
    pub fn records(&self) -> &[Record]
        ensures kept { AreRecords self.now.marks self.now.log result.now }
        ensures all { self.now.lost ≡ false → result.now ≡ self.now.log }
    {
        self.records.as_slice()
    }

    /// Whether a record was left out.
    pub fn has_lost(&self) -> bool
        ensures { result ≡ self.now.lost }
    {
        self.has_lost
    }

    /// The place of a link.
    pub fn find(&self, link: u32) -> Option<usize>
        ensures first { IfSome result (IsFirst self.now.marks link) }
        ensures none { IfNone result (has self.now.marks link ≡ false) }
    {
        find(self.marks.as_slice(), link)
    }

    /// Whether the link never came and nothing was done with it.
    pub fn is_new(&self, link: u32) -> bool
        ensures absent { IsTrue result → has self.now.marks link ≡ false }
        ensures fresh { IsTrue result → IsFresh link (map event_of self.now.log) }
    {
        let None = self.find(link) else {
            return false;
        };
        is_fresh(link, self.records())
    }

    /// What is meant of the link that is first at this place.
    pub fn mark(&self, at: usize, link: u32) -> Mark
        requires { IsFirst self.now.marks link at }
        ensures mark { result ≡ mark_of self.now.marks link }
        ensures link { result.link ≡ link }
    {
        mark_at(self.marks.as_slice(), at, link)
    }

    /// The link at this place is so now. It stays open, or closed.
    pub fn put(&mut self, at: usize, mark: Mark)
        requires first { IsFirst self.old.marks mark.link at }
        requires open { mark.is_open ≡ (mark_of self.old.marks mark.link).is_open }
        ensures log { self.new.log ≡ self.old.log }
        ensures marks { Put self.old.marks mark.link mark self.new.marks }
    {
        put_mark(&mut self.marks, at, mark);
    }

    /// This was done.
    pub fn push(&mut self, entry: Record) -> Result<(), Memory>
        ensures ok { OnOk result (self.new ≡ record self.old { log = self.old.log ++ entry ∷ [] }) }
        ensures err { OnErr result (self.new ≡ self.old) }
    {
        self.records.reserve(self.marks.len() + 1)?;
        self.told = self.told.and(&entry, &0);
        self.records.push_reserved(entry);
        Ok(())
    }

    /// This was done, and its record may be left out.
    pub fn tell(&mut self, entry: Record)
        requires { is_spare self.old.marks entry ≡ true }
        ensures log { self.new.log ≡ self.old.log ++ entry ∷ [] }
        ensures marks { self.new.marks ≡ self.old.marks }
    {
        let Ok(()) = self.records.reserve(self.marks.len() + 1) else {
            self.told = self.told.and(&entry, &0);
            self.has_lost = true;
            return;
        };
        self.told = self.told.and(&entry, &0);
        self.records.push_reserved(entry);
    }

    /// A link comes that didn't come before.
    pub fn come(&mut self, mark: Mark, entry: Record) -> Result<(), Memory>
        requires { has self.old.marks mark.link ≡ false }
        ensures log { OnOk result (self.new.log ≡ self.old.log ++ entry ∷ []) }
        ensures marks { OnOk result (Added self.old.marks mark.link mark self.new.marks) }
        ensures err { OnErr result (self.new ≡ self.old) }
    {
        self.records.reserve(self.marks.len() + 2)?;
        self.marks.push(mark)?;
        self.told = self.told.and(&entry, &0);
        self.records.push_reserved(entry);
        Ok(())
    }

    /// The open link at this place is closed.
    pub fn close(&mut self, at: usize, mark: Mark, entry: Record)
        requires first { IsFirst self.old.marks mark.link at }
        requires mark { mark ≡ mark_of self.old.marks mark.link }
        requires open { mark.is_open ≡ true }
        ensures log { self.new.log ≡ self.old.log ++ entry ∷ [] }
        ensures marks { Put self.old.marks mark.link (after_close mark) self.new.marks }
    {
        put_mark(&mut self.marks, at, mark.closed());
        self.told = self.told.and(&entry, &0);
        self.records.push_reserved(entry);
    }

    /// A call on the link at this place failed, at this stamp.
    pub fn fail(&mut self, at: usize, mark: Mark, stamp: u64)
        requires first { IsFirst self.old.marks mark.link at }
        requires open { mark.is_open ≡ (mark_of self.old.marks mark.link).is_open }
        ensures log { self.new.log ≡ self.old.log ++ Record.Failed mark.link stamp ∷ [] }
        ensures marks { Put self.old.marks mark.link (after_fault mark) self.new.marks }
    {
        let link = mark.link;
        self.tell(Record::Failed { link, stamp });
        self.put(at, mark.failed());
    }

    /// A link was read, as the entry says, or failed at this stamp because there was no memory for the entry.
    pub fn did_read(
        &mut self,
        at: usize,
        mark: Mark,
        stamp: u64,
        entry: Record,
    ) -> Result<(), Memory>
        requires first { IsFirst self.old.marks mark.link at }
        requires mark { mark ≡ mark_of self.old.marks mark.link }
        ensures ok { OnOk result ((self.new.log ≡ self.old.log ++ entry ∷ [])
            × Put self.old.marks mark.link (after_read mark false) self.new.marks) }
        ensures err { OnErr result ((self.new.log ≡ self.old.log ++ Record.Failed mark.link stamp ∷ [])
            × Put self.old.marks mark.link (after_fault (after_read mark false)) self.new.marks) }
    {
        let mark = mark.read(false);
        let Ok(()) = self.push(entry) else {
            self.fail(at, mark, stamp);
            return Err(AllocError);
        };
        self.put(at, mark);
        Ok(())
    }

    /// A link was written, as the entry says, or failed at this stamp because there was no memory for the entry.
    pub fn did_write(
        &mut self,
        at: usize,
        mark: Mark,
        stamp: u64,
        entry: Record,
    ) -> Result<(), Memory>
        requires first { IsFirst self.old.marks mark.link at }
        requires mark { mark ≡ mark_of self.old.marks mark.link }
        ensures ok { OnOk result ((self.new.log ≡ self.old.log ++ entry ∷ [])
            × Put self.old.marks mark.link (after_write mark false) self.new.marks) }
        ensures err { OnErr result ((self.new.log ≡ self.old.log ++ Record.Failed mark.link stamp ∷ [])
            × Put self.old.marks mark.link (after_fault (after_write mark false)) self.new.marks) }
    {
        let mark = mark.written(false);
        let Ok(()) = self.push(entry) else {
            self.fail(at, mark, stamp);
            return Err(AllocError);
        };
        self.put(at, mark);
        Ok(())
    }

    /// A wait until this moment begins what is meant of each link anew.
    pub fn begin(&mut self, until: u64) -> Result<(), Memory>
        ensures log { OnOk result (self.new.log ≡ self.old.log ++ Record.Waited until ∷ []) }
        ensures marks { OnOk result (self.new.marks ≡ map after_wait self.old.marks) }
        ensures err { OnErr result (self.new ≡ self.old) }
    {
        let waited = Record::Waited { until };
        self.records.reserve(self.marks.len() + 1)?;
        begin_all(&mut self.marks);
        self.told = self.told.and(&waited, &0);
        self.records.push_reserved(waited);
        Ok(())
    }
}
