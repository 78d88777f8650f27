//! The machine of one client connection: how replies leave it, and the next request comes.
ghost use Rattle.std.specs.Prelude.{◌≡◌, ◌≢◌, ◌≤◌, ◌<◌, ◌++◌, ◌∷◌, [], List, ℕ, length, take, drop, OnOk, IsTrue, vec_len, vec_capacity};
ghost use Rattle.link_world.specs.Log.{took};
ghost use Rattle.conversation.specs.Steps.{Step, happened};
ghost use Rattle.conn_machine.specs.Prompt.{IsPrompt};
ghost use Rattle.conn_machine.specs.Reached.{Reached, IsOpen, IsGoing, Waits, KeepsServer, WaitsOver, pending_of};

use crate::conn::Conn;
use crate::notes::request_note;
use crate::parts::{Asked, Phase, Stage};
use crate::pins::end_after;
use link_world::{EndCause, Note};
use px_base::Memory;
use std::alloc::Global;
use std::mem::replace;

impl Conn {
    /// What of the replies the client hasn't taken.
    pub fn pending(&self) -> &[u8]
        ensures { result.now ≡ pending_of self.now }
    {
        if self.sent >= self.out.len() {
            return &[];
        }
        &self.out[self.sent..]
    }

    /// The client took the first bytes that are pending.
    pub fn took(&mut self, alloc: Global, n: usize) -> Result<(), Memory>
        requires open { IsOpen self.old }
        requires some { n ≤ length (pending_of self.old) }
        requires room { vec_len self.old.notes < vec_capacity self.old.notes }
        ensures client { self.new.client ≡ self.old.client }
        ensures number { self.new.current.number ≡ self.old.current.number }
        ensures going { OnOk result (IsGoing self.new.phase) }
        ensures prompt { IsPrompt self.old → OnOk result (IsPrompt self.new) }
        ensures server { KeepsServer self.old self.new }
        ensures reached { (steps : List Step) → Reached steps self.old
            → Reached (steps ++ happened self.old.client.link (took (take n (pending_of self.old))) ∷ []) self.new }
    {
        self.advance(n);
        self.settle(alloc)
    }

    fn advance(&mut self, n: usize)
        requires open { IsOpen self.old }
        requires some { n ≤ length (pending_of self.old) }
        ensures client { self.new.client ≡ self.old.client }
        ensures current { self.new.current ≡ self.old.current }
        ensures open { IsOpen self.new }
        ensures notes { self.new.notes ≡ self.old.notes }
        ensures stage { self.new.stage ≡ self.old.stage }
        ensures prompt { IsPrompt self.old → self.new.stage ≢ Stage.Reply → IsPrompt self.new }
        ensures reached { (steps : List Step) → Reached steps self.old
            → Reached (steps ++ happened self.old.client.link (took (take n (pending_of self.old))) ∷ []) self.new }
    {
        self.sent += n;
    }

    // Where a reply was taken whole, the request leaves, and the next one is looked for.
    pub(crate) fn settle(&mut self, alloc: Global) -> Result<(), Memory>
        requires open { IsOpen self.old }
        requires room { vec_len self.old.notes < vec_capacity self.old.notes }
        ensures client { self.new.client ≡ self.old.client }
        ensures number { self.new.current.number ≡ self.old.current.number }
        ensures going { OnOk result (IsGoing self.new.phase) }
        ensures prompt { (self.old.stage ≢ Stage.Reply → IsPrompt self.old) → OnOk result (IsPrompt self.new) }
        ensures server { KeepsServer self.old self.new }
        ensures reached { (steps : List Step) → Reached steps self.old → Reached steps self.new }
    {
        if !matches!(self.stage, Stage::Reply) {
            return Ok(());
        }
        if self.sent < self.out.len() {
            return Ok(());
        }
        self.finish(alloc);
        if !matches!(self.phase, Phase::Open) {
            return Ok(());
        }
        self.find_head(alloc)
    }

    // The reply was taken whole: the request gets its note and leaves. The connection may end.
    fn finish(&mut self, alloc: Global)
        requires waits { Waits Stage.Reply self.old }
        requires sent { pending_of self.old ≡ [] }
        requires room { vec_len self.old.notes < vec_capacity self.old.notes }
        ensures client { self.new.client ≡ self.old.client }
        ensures number { self.new.current.number ≡ self.old.current.number }
        ensures going { IsGoing self.new.phase }
        ensures waits { WaitsOver Stage.Head self.new }
        ensures reached { (steps : List Step) → Reached steps self.old → Reached steps self.new }
    {
        let end = end_after(&self.current);
        let looks = replace(&mut self.looks, Vec::new(alloc));
        let picks = replace(&mut self.picks, Vec::new(alloc));
        let backs = replace(&mut self.backs, Vec::new(alloc));
        let note = request_note(alloc, self.client.link, &self.current, looks, picks, backs);
        push_in_room(&mut self.notes, note);
        drop_front(&mut self.input, self.current.size);
        self.out.clear();
        self.sent = 0;
        self.current.asked = Asked::Nothing;
        self.current.size = 0;
        self.current.issue = None;
        self.current.aim = None;
        self.current.back = None;
        self.current.pinned = false;
        self.stage = Stage::Head;
        match end {
            Some(cause) => self.phase = Phase::Over(cause),
            None => {
                self.current.index += 1;
                if self.over {
                    self.phase = Phase::Over(EndCause::Client);
                }
            }
        }
    }
}

fn drop_front(input: &mut Vec<u8>, n: usize)
    ensures { input.new.items ≡ drop n input.old.items }
{
    if n >= input.len() {
        input.clear();
    } else {
        input.drain(..n);
    }
}

fn push_in_room(notes: &mut Vec<Note>, note: Note)
    requires { vec_len notes.old < vec_capacity notes.old }
    ensures { notes.new.items ≡ notes.old.items ++ note ∷ [] }
{
    let Ok(()) = notes.push(note) else {
        unreachable!()
    };
}
