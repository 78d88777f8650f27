//! The machine of one client connection: what comes from its link.
ghost use Rattle.std.specs.Prelude.{◌≡◌, ◌≤◌, ◌<◌, ◌++◌, ◌∷◌, [], List, ℕ, length, take, IfOk, OnOk, OnErr, IsTrue, ◌↔◌, vec_len, vec_capacity};
ghost use Rattle.link_world.specs.Log.{came, gave, gave_end};
ghost use Rattle.conversation.specs.Steps.{Step, happened, failed, stopped};
ghost use Rattle.conn_machine.specs.Events.{IsEnabled};
ghost use Rattle.conn_machine.specs.declared.event.EventShape.{EventShape};
ghost use Rattle.conn_machine.specs.Prompt.{IsPrompt};
ghost use Rattle.conn_machine.specs.Reached.{Reached, IsOpen, Waits, KeepsServer, HasRoom, IsEnding, IsGoing, IsDrained, trail_of, pending_of};

use crate::heads::{Found, read_head};
use crate::parts::{Asked, Client, Current, Phase, Stage};
use ip_net::Ip;
use link_world::{Cause, EndCause, Look, NodePick, Note};
use px_base::{Bytes, Memory};
use std::alloc::Global;

/// A client connection, which is told in pieces what happens on its link.
#[derive(Drop)]
pub struct Conn {
    pub client: Client,
    pub input: Vec<u8>,
    pub current: Current,
    pub looks: Vec<Look>,
    pub picks: Vec<NodePick>,
    pub backs: Vec<u32>,
    pub out: Vec<u8>,
    pub sent: usize,
    pub notes: Vec<Note>,
    pub phase: Phase,
    pub stage: Stage,
    pub over: bool,
}

impl Conn {
    /// A client came on this link at this entry point, from this address.
    pub fn new(alloc: Global, link: u32, entry: &[u8], peer: Ip) -> Result<Conn, Memory>
        ensures link { IfOk result (λ c. c.client.link ≡ link) }
        ensures waits { IfOk result (Waits Stage.Head) }
        ensures number { IfOk result (λ c. c.current.number ≡ 0) }
        ensures prompt { IfOk result IsPrompt }
        ensures drained { IfOk result IsDrained }
        ensures reached { IfOk result (Reached (happened link (came entry.now peer) ∷ [])) }
    {
        let entry = Bytes::from_slice(alloc, entry)?;
        Ok(Conn {
            client: Client { link, entry, peer },
            input: Vec::new(alloc),
            current: Current {
                asked: Asked::Nothing,
                size: 0,
                issue: None,
                pinned: false,
                index: 1,
                number: 0,
                router: None,
                status: 0,
                link: 0,
                cause: Cause::Undecided,
                aim: None,
                back: None,
            },
            looks: Vec::new(alloc),
            picks: Vec::new(alloc),
            backs: Vec::new(alloc),
            out: Vec::new(alloc),
            sent: 0,
            notes: Vec::new(alloc),
            phase: Phase::Open,
            stage: Stage::Head,
            over: false,
        })
    }

    /// Makes the room for a note and for what it says: a look, a pick and a link.
    pub fn reserve(&mut self) -> Result<(), Memory>
        ensures client { self.new.client ≡ self.old.client }
        ensures current { self.new.current ≡ self.old.current }
        ensures phase { self.new.phase ≡ self.old.phase }
        ensures stage { self.new.stage ≡ self.old.stage }
        ensures input { self.new.input.items ≡ self.old.input.items }
        ensures rest { self.new ≡ record self.old { notes = self.new.notes; looks = self.new.looks; picks = self.new.picks; backs = self.new.backs } }
        ensures notes { self.new.notes.items ≡ self.old.notes.items }
        ensures enabled { (shape : EventShape) → IsEnabled shape self.old → IsEnabled shape self.new }
        ensures room { OnOk result (HasRoom self.new) }
        ensures prompt { IsPrompt self.old → IsPrompt self.new }
        ensures over { self.new.over ≡ self.old.over }
        ensures pending { pending_of self.new ≡ pending_of self.old }
        ensures reached { (steps : List Step) → Reached steps self.old → Reached steps self.new }
    {
        make_room(&mut self.notes)?;
        make_room(&mut self.looks)?;
        make_room(&mut self.picks)?;
        make_room(&mut self.backs)
    }

    /// Gives back the room that holds nothing, where no byte of a request waits and no note.
    pub fn rest(&mut self)
        ensures client { self.new.client ≡ self.old.client }
        ensures current { self.new.current ≡ self.old.current }
        ensures phase { self.new.phase ≡ self.old.phase }
        ensures stage { self.new.stage ≡ self.old.stage }
        ensures input { self.new.input.items ≡ self.old.input.items }
        ensures notes { self.new.notes.items ≡ self.old.notes.items }
        ensures prompt { IsPrompt self.old → IsPrompt self.new }
        ensures over { self.new.over ≡ self.old.over }
        ensures pending { pending_of self.new ≡ pending_of self.old }
        ensures reached { (steps : List Step) → Reached steps self.old → Reached steps self.new }
    {
        if !self.has_spare_room() {
            return;
        }
        self.input.shrink_to_fit();
        self.out.shrink_to_fit();
        self.notes.shrink_to_fit();
    }

    // Some room holds nothing, while no request and no note waits. Looks, picks and links leave with the note of their
    // request, and have no room then.
    fn has_spare_room(&self) -> bool {
        let some = self.input.capacity() > 0
            || self.out.capacity() > 0
            || self.notes.capacity() > 0;
        some && self.input.is_empty() && self.notes.is_empty()
    }

    /// Bytes of the client.
    pub fn bytes(&mut self, alloc: Global, piece: &[u8]) -> Result<(), Memory>
        requires { IsOpen self.old }
        ensures client { self.new.client ≡ self.old.client }
        ensures number { self.new.current.number ≡ self.old.current.number }
        ensures going { OnOk result (IsGoing self.new.phase) }
        ensures prompt { IsPrompt self.old → OnOk result (IsPrompt self.new) }
        ensures server { KeepsServer self.old self.new }
        ensures reached { (steps : List Step) → Reached steps self.old
            → Reached (steps ++ happened self.old.client.link (gave piece.now) ∷ []) self.new }
    {
        self.feed(piece)?;
        if !matches!(self.stage, Stage::Head) {
            return Ok(());
        }
        self.find_head(alloc)
    }

    // Keeps bytes of the client. Where there is no memory for them the machine is broken.
    fn feed(&mut self, piece: &[u8]) -> Result<(), Memory>
        requires { IsOpen self.old }
        ensures client { self.new.client ≡ self.old.client }
        ensures current { self.new.current ≡ self.old.current }
        ensures pending { pending_of self.new ≡ pending_of self.old }
        ensures open { OnOk result (IsOpen self.new) }
        ensures broken { OnErr result (self.new.phase ≡ Phase.Broken) }
        ensures stage { self.new.stage ≡ self.old.stage }
        ensures reached { (steps : List Step) → Reached steps self.old
            → Reached (steps ++ happened self.old.client.link (gave piece.now) ∷ []) self.new }
    {
        self.phase = Phase::Broken;
        self.input.extend_from_slice(piece)?;
        self.phase = Phase::Open;
        Ok(())
    }

    /// The client's end.
    pub fn end(&mut self, alloc: Global) -> Result<(), Memory>
        requires { IsOpen self.old }
        ensures client { self.new.client ≡ self.old.client }
        ensures number { self.new.current.number ≡ self.old.current.number }
        ensures going { OnOk result (IsGoing self.new.phase) }
        ensures prompt { IsPrompt self.old → OnOk result (IsPrompt self.new) }
        ensures server { KeepsServer self.old self.new }
        ensures reached { IsPrompt self.old → (steps : List Step) → Reached steps self.old
            → Reached (steps ++ happened self.old.client.link gave_end ∷ []) self.new }
    {
        self.close();
        if !matches!(self.stage, Stage::Head) {
            return Ok(());
        }
        self.find_head(alloc)
    }

    fn close(&mut self)
        requires { IsOpen self.old }
        ensures client { self.new.client ≡ self.old.client }
        ensures current { self.new.current ≡ self.old.current }
        ensures pending { pending_of self.new ≡ pending_of self.old }
        ensures open { IsOpen self.new }
        ensures stage { self.new.stage ≡ self.old.stage }
        ensures reached { IsPrompt self.old → (steps : List Step) → Reached steps self.old
            → Reached (steps ++ happened self.old.client.link gave_end ∷ []) self.new }
    {
        self.over = true;
    }

    // Looks for the next request. Where the client has ended before it is whole, the connection ends.
    pub(crate) fn find_head(&mut self, alloc: Global) -> Result<(), Memory>
        requires { Waits Stage.Head self.old }
        ensures client { self.new.client ≡ self.old.client }
        ensures going { OnOk result (IsGoing self.new.phase) }
        ensures number { self.new.current.number ≡ self.old.current.number }
        ensures prompt { OnOk result (IsPrompt self.new) }
        ensures server { ¬ (Waits Stage.Exchange self.new) }
        ensures reached { (steps : List Step) → Reached steps self.old → Reached steps self.new }
    {
        self.phase = Phase::Broken;
        let found = read_head(alloc, front(self.input.as_slice()), self.client.peer)?;
        self.phase = Phase::Open;
        match found {
            Found::Part => {
                if self.over {
                    self.phase = Phase::Over(EndCause::Client);
                }
            }
            Found::Head(asked, size) => {
                self.current.asked = asked;
                self.current.size = size;
                self.stage = Stage::Pin;
            }
        }
        Ok(())
    }

    /// The client's link failed.
    pub fn fail(&mut self)
        requires { IsOpen self.old }
        ensures client { self.new.client ≡ self.old.client }
        ensures number { self.new.current.number ≡ self.old.current.number }
        ensures over { self.new.phase ≡ Phase.Over EndCause.ClientFailed }
        ensures reached { (steps : List Step) → Reached steps self.old
            → Reached (steps ++ failed self.old.client.link ∷ []) self.new }
    {
        self.phase = Phase::Over(EndCause::ClientFailed);
    }

    /// A stop was asked for.
    pub fn stop(&mut self)
        requires { IsOpen self.old }
        ensures client { self.new.client ≡ self.old.client }
        ensures number { self.new.current.number ≡ self.old.current.number }
        ensures over { self.new.phase ≡ Phase.Over EndCause.Stopped }
        ensures reached { (steps : List Step) → Reached steps self.old → Reached (steps ++ stopped ∷ []) self.new }
    {
        self.phase = Phase::Over(EndCause::Stopped);
    }

    /// A call for this connection found no memory. This takes none.
    pub fn give_up(&mut self)
        ensures client { self.new.client ≡ self.old.client }
        ensures number { self.new.current.number ≡ self.old.current.number }
        ensures over { IsEnding self.new.phase }
        ensures reached { (steps : List Step) → Reached steps self.old → Reached steps self.new }
    {
        match self.phase {
            Phase::Open => self.phase = Phase::Over(EndCause::Memory),
            Phase::Broken => self.phase = Phase::Over(EndCause::Memory),
            Phase::Over(_) => {}
            Phase::Told(_) => {}
        }
    }

    /// Events may come.
    pub fn is_open(&self) -> bool
        ensures { IsTrue result ↔ IsOpen self.now }
    {
        matches!(self.phase, Phase::Open)
    }
}

// As many of the bytes as a head may have.
fn front(input: &[u8]) -> &[u8]
    ensures front { result.now ≡ take 16384 input.now }
    ensures short { length result.now ≤ 16384 }
{
    if input.len() <= 16384 {
        input
    } else {
        &input[..16384]
    }
}

// Room for one more.
fn make_room<T>(held: &mut Vec<T>) -> Result<(), Memory>
    ensures items { held.new.items ≡ held.old.items }
    ensures room { OnOk result (vec_len held.new < vec_capacity held.new) }
{
    if held.len() < held.capacity() {
        return Ok(());
    }
    held.reserve(1)?;
    Ok(())
}
