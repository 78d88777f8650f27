//! The places of links. A link's number says its place, so that asking an idle link reads one place.
ghost use Rattle.std.specs.Prelude.{◌≡◌, ◌+◌, ◌<◌, ◌%◌, ◌^◌, ◌-◌, ℕ, true, false, cond, length, IfOk, IfSome, IfNone, ◌≤◌};
ghost use Rattle.mio_world.specs.Slots.{TableView, Meaning, meaning, Put, new_meaning, never_come, shut_meaning};
ghost use Rattle.mio_world.specs.Tables.{IsOpenAt, IsOpenMeaning, Given, AreWithin, AreFresh, IsNew, table_of, read_meaning, write_meaning, began};

use crate::slot::{Asked, Slot};
use link_world::{LinkRead, LinkWrite};
use px_base::Memory;
use std::alloc::Global;
use std::marker::Model;

/// How many places there are.
pub(crate) const PLACES: usize = 16_384;

/// The place of a link.
pub(crate) fn place(link: u32) -> usize
    ensures { result ≡ link % 16384 }
{
    link as usize % PLACES
}

/// The places, and the count of waits.
#[derive(Drop)]
pub(crate) struct Table {
    slots: Vec<Slot>,
    waits: u64,
}

impl Model for Table {
    ghost use Rattle.mio_world.specs.Slots.{TableView};
    ghost use Rattle.mio_world.specs.Tables.{AreWithin};

    ghost Value = { TableView };

    ghost view = { λ t. record { slots = t.slots.items; waits = t.waits } };

    ghost invariant = { λ t. AreWithin t.waits t.slots.items };
}

const UNTOUCHED: Asked = Asked {
    wait: 0,
    reads: 0,
    read_quiet: false,
    write_quiet: false,
    read_was_quiet: false,
    write_was_quiet: false,
};

impl Table {
    /// No link was given yet.
    pub fn new(alloc: Global) -> Result<Table, Memory>
        ensures { IfOk result IsNew }
    {
        let slots = fresh_slots(alloc)?;
        Ok(Table { slots, waits: 0 })
    }

    /// The waits that were made.
    pub fn waits(&self) -> u64
        ensures { result ≡ self.now.waits }
    {
        self.waits
    }

    /// Whether a link was given and isn't closed.
    pub fn is_open(&self, link: u32) -> bool
        ensures { result ≡ (meaning self.now link).is_open }
    {
        match self.slots.get(place(link)) {
            Some(slot) => slot.is_open && slot.given && slot.link == link,
            None => false,
        }
    }

    /// A new link at this place; none where it has an open one, or no more numbers.
    pub fn give(&mut self, at: usize) -> Option<u32>
        ensures given { IfSome result (λ link. (meaning self.old link ≡ never_come self.old.waits)
            × Put self.old link (new_meaning self.old.waits) self.new) }
        ensures none { IfNone result (self.new ≡ self.old) }
    {
        let waits = self.waits;
        give_at(&mut self.slots, at, waits)
    }

    /// An open link was read, with this answer. Answers how often it was read since the last wait.
    pub fn did_read(&mut self, link: u32, answer: LinkRead) -> u64
        requires { (meaning self.old link).is_open ≡ true }
        ensures means { IsOpenMeaning (meaning self.old link) }
        ensures put { Put self.old link (read_meaning (meaning self.old link) answer) self.new }
        ensures reads { result ≡ (meaning self.new link).asked.reads }
    {
        let waits = self.waits;
        read_at(&mut self.slots, waits, link, answer)
    }

    /// An open link was written, with this answer.
    pub fn did_write(&mut self, link: u32, answer: LinkWrite)
        requires { (meaning self.old link).is_open ≡ true }
        ensures means { IsOpenMeaning (meaning self.old link) }
        ensures put { Put self.old link (write_meaning (meaning self.old link) answer) self.new }
    {
        let waits = self.waits;
        write_at(&mut self.slots, waits, link, answer);
    }

    /// Closes an open link.
    pub fn close(&mut self, link: u32)
        requires { (meaning self.old link).is_open ≡ true }
        ensures means { IsOpenMeaning (meaning self.old link) }
        ensures put { Put self.old link (shut_meaning self.old.waits) self.new }
    {
        let waits = self.waits;
        close_at(&mut self.slots, waits, link);
    }

    /// A wait begins what is meant of each link anew.
    pub fn begin(&mut self)
        requires { self.old.waits < 2 ^ 64 - 1 }
        ensures waits { self.new.waits ≡ self.old.waits + 1 }
        ensures began { (l : ℕ) → meaning self.new l ≡ began (self.old.waits + 1) (meaning self.old l) }
    {
        self.waits += 1;
    }
}

// Places of which no link was given yet.
fn fresh_slots(alloc: Global) -> Result<Vec<Slot>, Memory>
    ensures fresh { IfOk result (λ slots. AreFresh slots.items) }
    ensures within { IfOk result (λ slots. AreWithin 0 slots.items) }
{
    let mut slots = Vec::with_capacity(alloc, PLACES)?;
    for at in 0..PLACES {
        slots.push(Slot {
            asked: UNTOUCHED,
            faults: 0,
            link: at as u32,
            given: false,
            is_open: false,
        })?;
    }
    Ok(slots)
}

// A new link at a place, where it has no open one and numbers are left.
fn give_at(slots: &mut Vec<Slot>, at: usize, waits: u64) -> Option<u32>
    ensures given { IfSome result (λ link. Given waits slots.old.items link slots.new.items) }
    ensures none { IfNone result (slots.new.items ≡ slots.old.items) }
    ensures within { AreWithin waits slots.old.items → AreWithin waits slots.new.items }
{
    if at >= slots.len() {
        return None;
    }
    let slot = slots[at];
    if slot.is_open || place(slot.link) != at {
        return None;
    }
    let Some(link) = next_number(slot.link, slot.given) else {
        return None;
    };
    slots[at] = Slot {
        asked: Asked {
            wait: waits,
            ..UNTOUCHED
        },
        faults: 0,
        link,
        given: true,
        is_open: true,
    };
    Some(link)
}

// The number after the last one of a place.
fn next_number(link: u32, given: bool) -> Option<u32>
    ensures { IfSome result (λ next. next ≡ cond given (link + 16384) link) }
{
    if given {
        link.checked_add(16_384)
    } else {
        Some(link)
    }
}

fn read_at(slots: &mut Vec<Slot>, waits: u64, link: u32, answer: LinkRead) -> u64
    requires { (meaning (table_of waits slots.old.items) link).is_open ≡ true }
    ensures means { IsOpenMeaning (meaning (table_of waits slots.old.items) link) }
    ensures put { Put (table_of waits slots.old.items) link (read_meaning (meaning (table_of waits slots.old.items) link) answer) (table_of waits slots.new.items) }
    ensures within { AreWithin waits slots.old.items → AreWithin waits slots.new.items }
    ensures reads { result ≡ (meaning (table_of waits slots.new.items) link).asked.reads }
{
    let slot = &mut slots[place(link)];
    slot.did_read(waits, answer);
    slot.asked.reads
}

fn write_at(slots: &mut Vec<Slot>, waits: u64, link: u32, answer: LinkWrite)
    requires { (meaning (table_of waits slots.old.items) link).is_open ≡ true }
    ensures means { IsOpenMeaning (meaning (table_of waits slots.old.items) link) }
    ensures put { Put (table_of waits slots.old.items) link (write_meaning (meaning (table_of waits slots.old.items) link) answer) (table_of waits slots.new.items) }
    ensures within { AreWithin waits slots.old.items → AreWithin waits slots.new.items }
{
    let slot = &mut slots[place(link)];
    slot.did_write(waits, answer);
}

fn close_at(slots: &mut Vec<Slot>, waits: u64, link: u32)
    requires { (meaning (table_of waits slots.old.items) link).is_open ≡ true }
    ensures means { IsOpenMeaning (meaning (table_of waits slots.old.items) link) }
    ensures put { Put (table_of waits slots.old.items) link (shut_meaning waits) (table_of waits slots.new.items) }
    ensures within { AreWithin waits slots.old.items → AreWithin waits slots.new.items }
{
    let slot = &mut slots[place(link)];
    // Callers rely on it that the count is one of 64 bits.
    let _faults = slot.faults;
    slot.is_open = false;
}
