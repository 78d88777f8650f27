//! What comes to a world in memory, in order.
ghost use Rattle.std.specs.Prelude.{◌≡◌, ◌≤◌, length, IfOk};
ghost use Rattle.memory_world.specs.Fetches.{IsWithin};
ghost use Rattle.memory_world.specs.Scripts.{IsScriptOf, item_of as as_item};

use link_world::Arrival;
use px_base::{Bytes, Memory};
use std::alloc::Global;

/// What comes.
#[derive(Debug, Drop)]
pub enum Given {
    Arrive(Arrival),
    Bytes { link: u32, bytes: Bytes },
    End { link: u32 },
    Clock { now: u64 },
    Stop,
}

/// What a link has to give.
#[derive(Clone, Copy)]
pub(crate) enum Fetched {
    /// So many bytes were copied to the room.
    Got(usize),
    NotYet,
    End,
}

#[derive(Drop)]
enum Item {
    Arrive(Arrival),
    /// The bytes from `at` are left.
    Bytes { link: u32, bytes: Bytes, at: usize },
    End { link: u32 },
    Clock { now: u64 },
    Stop,
    /// It was taken.
    Spent,
}

/// The items, the first `released` of which have come.
#[derive(Drop)]
pub(crate) struct Script {
    items: Vec<Item>,
    released: usize,
    clock: u64,
}

impl Script {
    pub fn new(alloc: Global, steps: Vec<Given>) -> Result<Script, Memory>
        ensures { IfOk result (IsScriptOf steps.items) }
    {
        let items = steps.into_iter().map(item_of).collect(alloc)?;
        Ok(Script {
            items,
            released: 0,
            clock: 0,
        })
    }

    /// The number after the greatest link that arrives, or 0.
    pub fn first_dial(&self) -> u64 {
        let mut next = 0u64;
        for item in self.items.as_slice() {
            if let Item::Arrive(arrival) = item {
                next = next.max(arrival.link as u64 + 1);
            }
        }
        next
    }

    /// The last clock that came, or 0.
    pub fn clock(&self) -> u64 {
        self.clock
    }

    /// Nothing is left to come.
    pub fn is_over(&self) -> bool {
        self.released >= self.items.len()
    }

    /// The items up to and with the next clock come, or all.
    pub fn release(&mut self) {
        for at in self.released..self.items.len() {
            self.released = at.saturating_add(1);
            if let Some(Item::Clock { now }) = self.items.get(at) {
                self.clock = *now;
                return;
            }
        }
    }

    fn came(&self) -> &[Item] {
        let end = self.released.min(self.items.len());
        &self.items[..end]
    }

    /// The first client that stands there.
    pub fn arrival(&self) -> Option<&Arrival> {
        for item in self.came() {
            if let Item::Arrive(arrival) = item {
                return Some(arrival);
            }
        }
        None
    }

    /// The first client that stands there is taken.
    pub fn take_arrival(&mut self) {
        for at in 0..self.items.len() {
            if let Some(Item::Arrive(_)) = self.items.get(at) {
                self.items[at] = Item::Spent;
                return;
            }
        }
    }

    /// Whether a stop came.
    pub fn has_stop(&self) -> bool {
        for item in self.came() {
            if let Item::Stop = item {
                return true;
            }
        }
        false
    }

    /// Copies the next bytes of a link to the room.
    pub fn fetch(&self, link: u32, room: &mut [u8]) -> Fetched
        ensures { IsWithin result (length room.new) }
    {
        for item in self.came() {
            match item {
                Item::Bytes { link: l, bytes, at } => {
                    if *l == link {
                        let count = fill(room, bytes.as_slice(), *at);
                        if count > 0 {
                            return Fetched::Got(count);
                        }
                    }
                }
                Item::End { link: l } => {
                    if *l == link {
                        return Fetched::End;
                    }
                }
                _ => {}
            }
        }
        Fetched::NotYet
    }

    /// So many of the next bytes of a link are taken.
    pub fn advance(&mut self, link: u32, count: usize) {
        for at in 0..self.items.len() {
            if advance_item(&mut self.items[at], link, count) {
                return;
            }
        }
    }
}

fn item_of(given: Given) -> Item
    ensures { result ≡ as_item given }
{
    match given {
        Given::Arrive(arrival) => Item::Arrive(arrival),
        Given::Bytes { link, bytes } => Item::Bytes { link, bytes, at: 0 },
        Given::End { link } => Item::End { link },
        Given::Clock { now } => Item::Clock { now },
        Given::Stop => Item::Stop,
    }
}

// Whether these are bytes of the link that are left; so many of them are taken.
fn advance_item(item: &mut Item, link: u32, count: usize) -> bool {
    match item {
        Item::Bytes { link: l, bytes, at } => {
            if *l != link || *at >= bytes.len() {
                return false;
            }
            *at = at.saturating_add(count);
            true
        }
        _ => false,
    }
}

// Copies as many of the bytes from `at` as fit, and says how many.
fn fill(room: &mut [u8], bytes: &[u8], at: usize) -> usize
    ensures { result ≤ length room.new }
{
    let at = at.min(bytes.len());
    let rest = &bytes[at..];
    let count = rest.len().min(room.len());
    room[..count].copy_from_slice(&rest[..count]);
    count
}
