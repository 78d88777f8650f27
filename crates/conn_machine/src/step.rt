//! The machine of one client connection: one call for every event.
ghost use Rattle.std.specs.Prelude.{◌≡◌, ◌≤◌, ◌<◌, ◌-◌, ◌++◌, ◌∷◌, [], List, OnOk, IsTrue, ◌↔◌, length, vec_len, vec_capacity, false};
ghost use Rattle.conversation.specs.Steps.{Step};
ghost use Rattle.conn_machine.specs.Events.{IsEnabled, IsBackEnabled, IsAsked, IsFresh, buffer_limit, shape_of, back_shape_of, back_step_of, number_after, ServerAfter, state_of, stage_state, step_of};
ghost use Rattle.conn_machine.specs.Prompt.{IsPrompt};
ghost use Rattle.conn_machine.specs.Reached.{Reached, KeepsServer, IsGoing, IsOpen, Waits, HasRoom, WantsNode, back_pending_of, pending_of};

use crate::conn::Conn;
use crate::event::{BackEvent, BackShape, ConnEvent, EventShape, StateName};
use crate::parts::{Phase, Stage};
use px_base::Memory;
use std::alloc::Global;

/// The most bytes that the client's buffer holds, from the head of the current request on.
pub const BUFFER_LIMIT: usize = 32768;

impl Conn {
    /// One event, which may come now. Where it answers `Memory` the event is recorded all the same, and the connection
    /// has to be given up.
    pub fn step(&mut self, alloc: Global, event: ConnEvent<'_>) -> Result<(), Memory>
        requires enabled { IsEnabled (shape_of event) self.old }
        requires asked { IsAsked event self.old }
        requires room { HasRoom self.old }
        ensures client { self.new.client ≡ self.old.client }
        ensures number { self.new.current.number ≡ number_after event.entry self.old.current.number }
        ensures going { OnOk result (IsGoing self.new.phase) }
        ensures prompt { IsPrompt self.old → OnOk result (IsPrompt self.new) }
        ensures server { ServerAfter event.entry self.old self.new }
        ensures reached { IsPrompt self.old → (steps : List Step) → IsFresh event.entry steps → Reached steps self.old
            → Reached (steps ++ step_of self.old event.entry ∷ []) self.new }
    {
        match event {
            ConnEvent::Bytes(piece) => self.bytes(alloc, piece),
            ConnEvent::End => self.end(alloc),
            ConnEvent::Failed => {
                self.fail();
                Ok(())
            }
            ConnEvent::Pinned(issue) => self.pin(alloc, issue),
            ConnEvent::Looked(look) => self.looked(alloc, look),
            ConnEvent::Drew(pick) => {
                self.drew(pick);
                Ok(())
            }
            ConnEvent::Spent { node } => self.spent(alloc, node),
            ConnEvent::Dialled { link } => self.dialled(alloc, link),
            ConnEvent::Back { link: _, event } => self.back_step(alloc, event),
            ConnEvent::Took(n) => self.took(alloc, n),
            ConnEvent::Stop => {
                self.stop();
                Ok(())
            }
        }
    }

    // Something happened on the link to the server.
    fn back_step(&mut self, alloc: Global, event: BackEvent<'_>) -> Result<(), Memory>
        requires waits { Waits Stage.Exchange self.old }
        requires room { vec_len self.old.notes < vec_capacity self.old.notes }
        requires enabled { IsBackEnabled (back_shape_of event) (back_pending_of self.old) }
        ensures client { self.new.client ≡ self.old.client }
        ensures number { self.new.current.number ≡ self.old.current.number }
        ensures going { OnOk result (IsGoing self.new.phase) }
        ensures prompt { IsPrompt self.old → OnOk result (IsPrompt self.new) }
        ensures server { KeepsServer self.old self.new }
        ensures reached { IsPrompt self.old → (steps : List Step) → Reached steps self.old
            → Reached (steps ++ back_step_of self.old.current.link (back_pending_of self.old) event.entry ∷ []) self.new }
    {
        match event {
            BackEvent::Bytes(piece) => self.back_bytes(alloc, piece),
            BackEvent::End => self.back_end(alloc),
            BackEvent::Failed => self.back_failed(alloc),
            BackEvent::Took(n) => {
                self.back_took(n);
                Ok(())
            }
        }
    }

    /// Whether an event of this shape may come.
    pub fn enabled(&self, shape: EventShape) -> bool
        ensures { IsTrue result ↔ IsEnabled shape self.now }
    {
        match shape {
            EventShape::Bytes(n) => self.may_give() && 0 < n && n <= self.room_left(),
            EventShape::End => self.may_give(),
            EventShape::Failed => self.is_open(),
            EventShape::Pinned => self.waits(Stage::Pin),
            EventShape::Looked => self.waits(Stage::Look),
            EventShape::Drew => self.waits(Stage::Walk),
            EventShape::Dialled => self.waits(Stage::Dial),
            EventShape::Back { link, shape } => {
                self.waits(Stage::Exchange) && link == self.current.link && self.back_enabled(shape)
            }
            EventShape::Took(n) => self.is_open() && 0 < n && n <= self.pending().len(),
            EventShape::Stop => self.is_open(),
        }
    }

    fn back_enabled(&self, shape: BackShape) -> bool
        ensures { IsTrue result ↔ IsBackEnabled shape (back_pending_of self.now) }
    {
        match shape {
            BackShape::Bytes(n) => 0 < n,
            BackShape::End => true,
            BackShape::Failed => true,
            BackShape::Took(n) => 0 < n && n <= self.back_pending().len(),
        }
    }

    // The client's link is in use and hasn't ended.
    fn may_give(&self) -> bool
        ensures { IsTrue result ↔ (IsOpen self.now × (self.now.over ≡ false)) }
    {
        self.is_open() && !self.over
    }

    // How many more bytes the client's buffer may hold.
    fn room_left(&self) -> usize
        ensures { result ≡ buffer_limit - vec_len self.now.input }
    {
        BUFFER_LIMIT.saturating_sub(self.input.len())
    }

    fn waits(&self, at: Stage) -> bool
        ensures { IsTrue result ↔ Waits at self.now }
    {
        self.is_open() && self.stage == at
    }

    /// Whether the event carries what was asked for: a configuration whose number is no lower than the last, a look or a
    /// pick of the node that is wanted. All else may be carried whenever it may come.
    pub fn asked(&self, event: &ConnEvent<'_>) -> bool
        ensures { IsTrue result ↔ IsAsked event.now self.now }
    {
        match event {
            ConnEvent::Pinned(issue) => self.current.number <= issue.number(),
            ConnEvent::Looked(look) => self.wants_node(look.node),
            ConnEvent::Drew(pick) => self.wants_node(pick.node) && pick.pick.child == 0,
            ConnEvent::Spent { node } => self.wants_node(*node),
            _ => true,
        }
    }

    fn wants_node(&self, node: u32) -> bool
        ensures { IsTrue result ↔ WantsNode self.now node }
    {
        match &self.current.aim {
            Some(aim) => node == aim.get().node,
            None => true,
        }
    }

    /// The name of its state.
    pub fn state(&self) -> StateName
        ensures { result ≡ state_of self.now }
    {
        match self.phase {
            Phase::Open => self.stage_name(),
            _ => StateName::Ended,
        }
    }

    fn stage_name(&self) -> StateName
        ensures { result ≡ stage_state self.now.stage self.now.input.items }
    {
        match self.stage {
            Stage::Head => {
                if self.input.is_empty() {
                    StateName::Idle
                } else {
                    StateName::Head
                }
            }
            Stage::Pin => StateName::Pin,
            Stage::Route => StateName::Pin,
            Stage::Look => StateName::Look,
            Stage::Down => StateName::Look,
            Stage::Walk => StateName::Walk,
            Stage::Spent => StateName::Walk,
            Stage::Dial => StateName::Dial,
            Stage::Dialled => StateName::Dial,
            Stage::Exchange => StateName::Exchange,
            Stage::Reply => StateName::Reply,
        }
    }
}
