// What was looked at and drawn under each number that is attended.
ghost use Rattle.std.specs.Prelude.{◌≡◌, ◌≢◌, ◌<◌, ◌≤◌, ℕ, Some, None, OnOk, OnErr, not, ◌==◌, ◌+◌, ◌++◌, ◌∷◌, [], filter, vec_len, vec_capacity, if◌then◌else◌};
ghost use Rattle.wrr_deadlines.specs.Choice.{Draws};
ghost use Rattle.desk.specs.Desks.{IsHeld, held, with_look, DrawDid, RoomLeft, one_server};
ghost use Rattle.desk.specs.Told.{last_count, is_count, AreCounted};

use crate::server::OneServer;
use crate::told::{NodeCount, Told};
use http_server::Log;
use link_world::{Look, NodePick};
use px_base::Memory;
use std::alloc::Global;
use wrr_deadlines::Drawn;

/// The numbers that are attended, and how many pops were taken at each node under each of them: that is all that a draw
/// needs.
#[derive(Drop)]
pub(crate) struct Seats {
    pub(crate) numbers: Vec<u64>,
    pub(crate) counts: Vec<NodeCount>,
    /// The looks and picks of all numbers in their order, as contracts see them: it takes no memory.
    pub(crate) told: Log<u64, Told>,
    ghost counted: { AreCounted counts.items told.items },
}

impl Seats {
    ghost use Rattle.desk.specs.Kept.{seats_of, room_of};

    pub(crate) fn new(alloc: Global) -> Seats
        ensures { (number : ℕ) → seats_of result number ≡ None }
    {
        Seats {
            numbers: Vec::new(alloc),
            counts: Vec::new(alloc),
            told: Log::new(),
        }
    }

    /// Seats the number, if it isn't, and makes the room for one pick.
    pub(crate) fn attend(&mut self, number: u64) -> Result<(), Memory>
        ensures seat { OnOk result (seats_of self.new number ≡ Some (held (seats_of self.old number))) }
        ensures others { OnOk result ((n : ℕ) → n ≢ number → seats_of self.new n ≡ seats_of self.old n) }
        ensures refused { OnErr result (seats_of self.new ≡ seats_of self.old) }
        ensures made { OnOk result ((0 < (room_of self.new).looks) × (0 < (room_of self.new).picks)) }
        ensures room { RoomLeft (room_of self.old) 0 0 (room_of self.new) }
    {
        self.numbers.reserve(1)?;
        self.counts.reserve(1)?;
        if !self.numbers.as_slice().contains(&number) {
            self.begin(number);
            self.numbers.push_reserved(number);
        }
        Ok(())
    }

    // Nothing of an earlier seat of this number may show.
    fn begin(&mut self, number: u64)
        ensures numbers { self.new.numbers ≡ self.old.numbers }
        ensures told { self.new.told.items ≡ self.old.told.items ++ (number, Told.Began) ∷ [] }
        ensures len { vec_len self.new.counts ≤ vec_len self.old.counts }
        ensures capacity { vec_capacity self.new.counts ≡ vec_capacity self.old.counts }
    {
        self.told = self.told.and(&number, &Told::Began);
        forget_counts(&mut self.counts, number);
    }

    /// Keeps a look.
    pub(crate) fn look(&mut self, number: u64, look: Look)
        requires held { IsHeld (seats_of self.old number) }
        ensures seat { seats_of self.new number ≡ Some (with_look (held (seats_of self.old number)) look) }
        ensures others { (n : ℕ) → n ≢ number → seats_of self.new n ≡ seats_of self.old n }
        ensures room { RoomLeft (room_of self.old) 1 0 (room_of self.new) }
    {
        self.told = self.told.and(&number, &Told::Looked(look));
    }

    /// Draws at a node, by the pops that were taken there, and keeps the pick.
    pub(crate) fn draw(&mut self, server: &OneServer, number: u64, node: u32, mask: u64) -> Drawn
        requires held { IsHeld (seats_of self.old number) }
        requires room { 0 < (room_of self.old).picks }
        ensures drawn { DrawDid (held (seats_of self.old number)) node mask result (held (seats_of self.new number)) }
        ensures held { IsHeld (seats_of self.new number) }
        ensures others { (n : ℕ) → n ≢ number → seats_of self.new n ≡ seats_of self.old n }
        ensures room { RoomLeft (room_of self.old) 0 1 (room_of self.new) }

        // By the very count that the seat had at the node.
        ensures exact { Draws one_server mask ((held (seats_of self.old number)).count node) result }
    {
        let count = count_at(self.counts.as_slice(), number, node);
        let drawn = server.draw(count, mask);
        if let Drawn::Pick(pick) = drawn {
            self.told = self.told.and(&number, &Told::Drew(NodePick { node, pick }));
            put_count(
                &mut self.counts,
                NodeCount {
                    number,
                    node,
                    pops: pick.to,
                },
            );
        }
        drawn
    }

    /// Gives the seat up.
    pub(crate) fn retire(&mut self, number: u64)
        ensures gone { seats_of self.new number ≡ None }
        ensures others { (n : ℕ) → n ≢ number → seats_of self.new n ≡ seats_of self.old n }
        ensures room { RoomLeft (room_of self.old) 0 0 (room_of self.new) }
    {
        self.begin(number);
        forget_number(&mut self.numbers, number);
    }
}

fn forget_number(numbers: &mut Vec<u64>, number: u64)
    ensures { numbers.new.items ≡ filter (λ n. not (n == number)) numbers.old.items }
{
    numbers.retain(|held| *held != number);
}

fn forget_counts(counts: &mut Vec<NodeCount>, number: u64)
    ensures items { counts.new.items ≡ filter (λ c. not (c.number == number)) counts.old.items }
    ensures len { vec_len counts.new ≤ vec_len counts.old }
    ensures capacity { vec_capacity counts.new ≡ vec_capacity counts.old }
{
    counts.retain(|held| held.number != number);
}

// Keeps a count, in place of the one before of its number and node. It stands last, where the next draw there looks first.
fn put_count(counts: &mut Vec<NodeCount>, next: NodeCount)
    requires { vec_len counts.old < vec_capacity counts.old }
    ensures counts { (number node : ℕ) → last_count number node 0 counts.new.items
        ≡ (if is_count next number node then next.pops else last_count number node 0 counts.old.items) }
    ensures len { vec_len counts.new ≤ vec_len counts.old + 1 }
    ensures capacity { vec_capacity counts.new ≡ vec_capacity counts.old }
{
    forget_count(counts, next.number, next.node);
    counts.push_reserved(next);
}

fn forget_count(counts: &mut Vec<NodeCount>, number: u64, node: u32)
    ensures items { counts.new.items ≡ filter (λ c. not (is_count c number node)) counts.old.items }
    ensures len { vec_len counts.new ≤ vec_len counts.old }
    ensures capacity { vec_capacity counts.new ≡ vec_capacity counts.old }
{
    counts.retain(|held| !(held.number == number && held.node == node));
}

// How many pops were taken at a node under a number. It looks from the back, where the last draw's node stands.
fn count_at(counts: &[NodeCount], number: u64, node: u32) -> u64
    ensures { result ≡ last_count number node 0 counts.now }
{
    let mut rest = counts;
    'counts: while let Some((last, before)) = rest.split_last() {
        if is_at(last, number, node) {
            return last.pops;
        }
        rest = before;
    }
    0
}

fn is_at(count: &NodeCount, number: u64, node: u32) -> bool
    ensures { result ≡ is_count count.now number node }
{
    count.number == number && count.node == node
}
