//! The machine of one client connection: what its server gives, and how the exchange ends.
ghost use Rattle.std.specs.Prelude.{◌≡◌, ◌≤◌, ◌<◌, ◌++◌, ◌∷◌, [], List, ℕ, OnOk, OnErr, length, drop, vec_len, vec_capacity};
ghost use Rattle.link_world.specs.Log.{gave, gave_end};
ghost use Rattle.http_wire.specs.declared.message.Request.{Request as HttpRequest};
ghost use Rattle.conversation.specs.Steps.{Step, happened, failed};
ghost use Rattle.conn_machine.specs.Prompt.{IsPrompt};
ghost use Rattle.conn_machine.specs.Reached.{Reached, IsGoing, Waits, KeepsServer};
ghost use Rattle.conn_machine.specs.Relays.{IsOutcome, IsVersion, heard_status, heard_cause, lost_cause};

use crate::boxed::BoxedBack;
use crate::conn::Conn;
use crate::own::own_text;
use crate::parts::{Asked, Phase, Stage};
use crate::pins::end_after;
use crate::relay::relay;
use back_machine::{BackCause, BackState, replies_are_unique};
use link_world::{Cause, EndCause};
use px_base::Memory;
use std::alloc::{AllocError, Global};

/// How far an exchange is.
#[derive(Clone, Copy)]
pub enum Outcome {
    /// The reply isn't whole.
    Going,
    /// The reply is whole.
    Whole,
    /// The reply was begun and will not be whole.
    Cut,
    /// There will be no reply.
    Lost(BackCause),
}

impl Conn {
    /// The link to the server gave bytes. Where it shows that there will be no reply the request is answered; where a
    /// reply that was begun can't be finished the connection ends.
    pub fn back_bytes(&mut self, alloc: Global, piece: &[u8]) -> Result<(), Memory>
        requires waits { Waits Stage.Exchange self.old }
        requires room { vec_len self.old.notes < vec_capacity self.old.notes }
        ensures client { self.new.client ≡ self.old.client }
        ensures number { self.new.current.number ≡ self.old.current.number }
        ensures going { OnOk result (IsGoing self.new.phase) }
        ensures prompt { OnOk result (IsPrompt self.new) }
        ensures server { KeepsServer self.old self.new }
        ensures reached { (steps : List Step) → Reached steps self.old
            → Reached (steps ++ happened self.old.current.link (gave piece.now) ∷ []) self.new }
    {
        self.hear(alloc, piece)?;
        self.conclude(alloc)
    }

    /// The link to the server gave its end.
    pub fn back_end(&mut self, alloc: Global) -> Result<(), Memory>
        requires waits { Waits Stage.Exchange self.old }
        requires room { vec_len self.old.notes < vec_capacity self.old.notes }
        ensures client { self.new.client ≡ self.old.client }
        ensures number { self.new.current.number ≡ self.old.current.number }
        ensures going { OnOk result (IsGoing self.new.phase) }
        ensures prompt { OnOk result (IsPrompt self.new) }
        ensures server { KeepsServer self.old self.new }
        ensures reached { (steps : List Step) → Reached steps self.old
            → Reached (steps ++ happened self.old.current.link gave_end ∷ []) self.new }
    {
        self.note_end();
        self.conclude(alloc)
    }

    /// The link to the server failed.
    pub fn back_failed(&mut self, alloc: Global) -> Result<(), Memory>
        requires waits { Waits Stage.Exchange self.old }
        requires room { vec_len self.old.notes < vec_capacity self.old.notes }
        ensures client { self.new.client ≡ self.old.client }
        ensures number { self.new.current.number ≡ self.old.current.number }
        ensures going { OnOk result (IsGoing self.new.phase) }
        ensures prompt { OnOk result (IsPrompt self.new) }
        ensures server { KeepsServer self.old self.new }
        ensures reached { IsPrompt self.old → (steps : List Step) → Reached steps self.old
            → Reached (steps ++ failed self.old.current.link ∷ []) self.new }
    {
        self.note_fault();
        self.conclude(alloc)
    }

    // What the piece adds to the reply is spelled for the client.
    fn hear(&mut self, alloc: Global, piece: &[u8]) -> Result<(), Memory>
        requires { Waits Stage.Exchange self.old }
        ensures client { self.new.client ≡ self.old.client }
        ensures number { self.new.current.number ≡ self.old.current.number }
        ensures waits { OnOk result (Waits Stage.Exchange self.new) }
        ensures link { self.new.current.link ≡ self.old.current.link }
        ensures notes { self.new.notes ≡ self.old.notes }
        ensures broken { OnErr result (self.new.phase ≡ Phase.Broken) }
        ensures reached { (steps : List Step) → Reached steps self.old
            → Reached (steps ++ happened self.old.current.link (gave piece.now) ∷ []) self.new }
    {
        replies_are_unique();
        let close = end_after(&self.current).is_some();
        let version = version_of(&self.current.asked);
        self.phase = Phase::Broken;
        self.sent = compact(&mut self.out, self.sent);
        match &mut self.current.back {
            Some(back) => {
                relay(alloc, back, piece, version, close, &mut self.out)?;
                self.current.status = status_by(back, self.current.status);
                self.current.cause = cause_by(back, self.current.cause);
            }
            None => return Err(AllocError),
        }
        self.phase = Phase::Open;
        Ok(())
    }

    fn note_end(&mut self)
        requires { Waits Stage.Exchange self.old }
        ensures client { self.new.client ≡ self.old.client }
        ensures number { self.new.current.number ≡ self.old.current.number }
        ensures waits { Waits Stage.Exchange self.new }
        ensures link { self.new.current.link ≡ self.old.current.link }
        ensures notes { self.new.notes ≡ self.old.notes }
        ensures reached { (steps : List Step) → Reached steps self.old
            → Reached (steps ++ happened self.old.current.link gave_end ∷ []) self.new }
    {
        if let Some(back) = &mut self.current.back {
            back.end();
        }
    }

    fn note_fault(&mut self)
        requires { Waits Stage.Exchange self.old }
        ensures client { self.new.client ≡ self.old.client }
        ensures number { self.new.current.number ≡ self.old.current.number }
        ensures waits { Waits Stage.Exchange self.new }
        ensures link { self.new.current.link ≡ self.old.current.link }
        ensures notes { self.new.notes ≡ self.old.notes }
        ensures reached { IsPrompt self.old → (steps : List Step) → Reached steps self.old
            → Reached (steps ++ failed self.old.current.link ∷ []) self.new }
    {
        if let Some(back) = &mut self.current.back {
            back.failed();
        }
    }

    // Where the exchange is over, its reply is whole, or cut, or made here.
    fn conclude(&mut self, alloc: Global) -> Result<(), Memory>
        requires waits { Waits Stage.Exchange self.old }
        requires room { vec_len self.old.notes < vec_capacity self.old.notes }
        ensures client { self.new.client ≡ self.old.client }
        ensures number { self.new.current.number ≡ self.old.current.number }
        ensures going { OnOk result (IsGoing self.new.phase) }
        ensures prompt { OnOk result (IsPrompt self.new) }
        ensures server { KeepsServer self.old self.new }
        ensures reached { (steps : List Step) → Reached steps self.old → Reached steps self.new }
    {
        match outcome_of(&self.current.back) {
            Outcome::Going => Ok(()),
            Outcome::Whole => {
                self.stage = Stage::Reply;
                self.settle(alloc)
            }
            Outcome::Cut => {
                self.phase = Phase::Over(EndCause::Cut {
                    link: self.current.link,
                });
                Ok(())
            }
            Outcome::Lost(cause) => self.answer_lost(alloc, cause),
        }
    }

    // The server gave no reply.
    fn answer_lost(&mut self, alloc: Global, cause: BackCause) -> Result<(), Memory>
        requires waits { Waits Stage.Exchange self.old }
        requires lost { IsOutcome (Outcome.Lost cause) self.old.current.back }
        ensures client { self.new.client ≡ self.old.client }
        ensures number { self.new.current.number ≡ self.old.current.number }
        ensures going { OnOk result (IsGoing self.new.phase) }
        ensures prompt { OnOk result (IsPrompt self.new) }
        ensures server { ¬ (Waits Stage.Exchange self.new) }
        ensures reached { (steps : List Step) → Reached steps self.old → Reached steps self.new }
    {
        let close = end_after(&self.current).is_some();
        let link = self.current.link;
        self.phase = Phase::Broken;
        self.out.clear();
        self.sent = 0;
        own_text(alloc, 502, close, &mut self.out)?;
        self.current.status = 502;
        self.current.cause = cause_of(cause, link);
        self.stage = Stage::Reply;
        self.phase = Phase::Open;
        Ok(())
    }
}

fn cause_of(cause: BackCause, link: u32) -> Cause
    ensures { result ≡ lost_cause cause link }
{
    match cause {
        BackCause::Failed => Cause::BackFailed { link },
        BackCause::Bad => Cause::BackBad { link },
        BackCause::Ended => Cause::BackBad { link },
    }
}

fn outcome_of(back: &Option<BoxedBack>) -> Outcome
    ensures { IsOutcome result back.now }
{
    match back {
        None => Outcome::Going,
        Some(back) => match back.get().state() {
            BackState::Waiting => Outcome::Going,
            BackState::HeadRead => Outcome::Going,
            BackState::Done => Outcome::Whole,
            BackState::Broken(cause) => match back.get().reply() {
                Some(_) => Outcome::Cut,
                None => Outcome::Lost(cause),
            },
        },
    }
}

// The status, once there is a reply.
fn status_by(back: &BoxedBack, status: u16) -> u16
    ensures { result ≡ heard_status back.now.reply status }
{
    match back.get().reply() {
        Some(reply) => reply.status,
        None => status,
    }
}

// The cause, once there is a reply.
fn cause_by(back: &BoxedBack, cause: Cause) -> Cause
    ensures { result ≡ heard_cause back.now.reply cause }
{
    match back.get().reply() {
        Some(_) => Cause::Passed,
        None => cause,
    }
}

fn version_of(asked: &Asked) -> u8
    ensures { IsVersion asked.now result }
{
    match asked {
        Asked::Request(request) => request.get().version,
        Asked::Refused(_) => 1,
        Asked::Nothing => 1,
    }
}

// Drops what was taken, where all was: what is left begins here.
fn compact(out: &mut Vec<u8>, sent: usize) -> usize
    ensures within { result ≤ length out.new.items }
    ensures same { drop result out.new.items ≡ drop sent out.old.items }
{
    if sent >= out.as_slice().len() {
        out.clear();
        return 0;
    }
    sent
}
