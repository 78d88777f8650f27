// What happens on a link.
ghost use Rattle.std.specs.Prelude.{◌≡◌, ◌<◌, ◌==◌, ℕ, Err, OnOk, MatchOption, MatchResult, IsTrue, ◌↔◌, length, slice_get};
ghost use Rattle.conn_machine.specs.declared.conn.Conn.{Conn as ConnOf};
ghost use Rattle.conn_machine.specs.Events.{back_shape_of, back_kind_of, kind_of};
ghost use Rattle.system_core.specs.Views.{IsConnOf};
ghost use Rattle.system_core.specs.Answers.{LinkAnswers, MayHappen, MayBeDone, shape_on};
ghost use Rattle.system_core.specs.Takes.{told_on, pending_on, taken_now, IsTakable};
ghost use Rattle.system_core.specs.Shows.{Ran, RanOn};
ghost use Rattle.system_core.specs.declared.event.Event.TheVariants.{Bytes as GaveBytes};

use crate::event::{Kind, Refused};
use crate::system::System;
use conn_machine::{BackEvent, BackShape, Conn, ConnEvent, EventKind, EventShape};
use px_base::{Bytes, Memory};
use std::alloc::Global;

impl System {
    /// A link gave bytes.
    pub(crate) fn gave(&mut self, alloc: Global, link: u32, bytes: Bytes) -> Result<(), Refused>
        ensures answers { LinkAnswers self.old link (MayHappen link (BackShape.Bytes (length bytes))) (Kind.Conn EventKind.Bytes) result self.new }
        ensures ran { OnOk result (Ran (GaveBytes link bytes) self.old self.new) }
    {
        self.happen(alloc, link, BackEvent::Bytes(bytes.as_slice()))
    }

    /// Something happened on a link.
    pub(crate) fn happen(
        &mut self,
        alloc: Global,
        link: u32,
        event: BackEvent<'_>,
    ) -> Result<(), Refused>
        ensures answers { LinkAnswers self.old link (MayHappen link (back_shape_of event.entry)) (Kind.Conn (back_kind_of (back_shape_of event.entry))) result self.new }
        ensures ran { OnOk result (RanOn link event.entry self.old self.new) }
    {
        let place = self.link_waits(link, event.shape())?;
        self.tell(alloc, place, link, event)?;
        Ok(())
    }

    /// How many bytes are pending for a link.
    pub fn pending(&self, link: u32) -> usize
        ensures { (i : ℕ) (c : ConnOf) → IsConnOf self.now link i c → result ≡ length (pending_on (link == c.client.link) c) }
    {
        match self.place_of(link) {
            Some(place) => {
                let conn = &self.clients.conns[place];
                pending_on(conn, link == conn.client.link).len()
            }
            None => 0,
        }
    }

    // The place of the connection of a link on which this may happen.
    fn link_waits(&self, link: u32, shape: BackShape) -> Result<usize, Refused>
        ensures { MatchResult result
            (λ i. (c : ConnOf) × IsConnOf self.now link i c × MayHappen link shape c)
            (λ e. LinkAnswers self.now link (MayHappen link shape) (Kind.Conn (back_kind_of shape)) (Err e) self.now) }
    {
        let Some(place) = self.place_of(link) else {
            return Err(Refused::NoSuchLink { link });
        };
        let conn = &self.clients.conns[place];
        if !may_happen(conn, link, shape) {
            return Err(Refused::NotEnabled {
                kind: Kind::Conn(shape.kind()),
                state: conn.state(),
            });
        }
        Ok(place)
    }

    /// The place of the connection whose client's link it is, and which waits for this.
    pub(crate) fn client_waits(&self, link: u32, shape: EventShape) -> Result<usize, Refused>
        ensures { MatchResult result
            (λ i. (c : ConnOf) × IsConnOf self.now link i c × MayBeDone link shape c)
            (λ e. LinkAnswers self.now link (MayBeDone link shape) (Kind.Conn (kind_of shape)) (Err e) self.now) }
    {
        let Some(place) = self.place_of(link) else {
            return Err(Refused::NoSuchLink { link });
        };
        let conn = &self.clients.conns[place];
        if !may_be_done(conn, link, shape) {
            return Err(Refused::NotEnabled {
                kind: Kind::Conn(shape.kind()),
                state: conn.state(),
            });
        }
        Ok(place)
    }

    // The place of the connection of a link.
    fn place_of(&self, link: u32) -> Option<usize>
        ensures { MatchOption result
            ((i : ℕ) (c : ConnOf) → ¬ (IsConnOf self.now link i c))
            (λ i. (c : ConnOf) × IsConnOf self.now link i c) }
    {
        let at = link as usize;
        if at >= self.links.len() {
            return None;
        }
        let place = self.links[at].owner;
        if place >= self.clients.conns.len() {
            return None;
        }
        Some(place)
    }

    // The connection of the link is told what may happen on it.
    fn tell(
        &mut self,
        alloc: Global,
        place: usize,
        link: u32,
        event: BackEvent<'_>,
    ) -> Result<(), Memory>
        requires { (c : ConnOf) × IsConnOf self.old link place c × MayHappen link (back_shape_of event) c }
        ensures { OnOk result (RanOn link event.entry self.old self.new) }
    {
        let clients = &mut self.clients;
        let conn = &clients.conns[place];
        let own = link == conn.client.link;
        let taken = taken_now(conn, own, event);
        self.links[link as usize].sent.extend_from_slice(taken)?;
        clients.drive(alloc, place, told_on(own, link, event), &mut self.notes)?;
        Ok(())
    }
}

fn may_happen(conn: &Conn, link: u32, shape: BackShape) -> bool
    ensures { IsTrue result ↔ MayHappen link shape conn.now }
{
    conn.enabled(shape_on(link == conn.client.link, link, shape))
}

fn may_be_done(conn: &Conn, link: u32, shape: EventShape) -> bool
    ensures { IsTrue result ↔ MayBeDone link shape conn.now }
{
    link == conn.client.link && conn.enabled(shape)
}

fn shape_on(own: bool, link: u32, shape: BackShape) -> EventShape
    ensures { result ≡ shape_on own link shape }
{
    if !own {
        return EventShape::Back { link, shape };
    }
    match shape {
        BackShape::Bytes(n) => EventShape::Bytes(n),
        BackShape::End => EventShape::End,
        BackShape::Failed => EventShape::Failed,
        BackShape::Took(n) => EventShape::Took(n),
    }
}

// What a connection is told: something of its client's link, or of another one.
fn told_on(own: bool, link: u32, event: BackEvent<'_>) -> ConnEvent<'_>
    ensures { result ≡ told_on own link event.entry }
{
    if !own {
        return ConnEvent::Back { link, event };
    }
    match event {
        BackEvent::Bytes(piece) => ConnEvent::Bytes(piece),
        BackEvent::End => ConnEvent::End,
        BackEvent::Failed => ConnEvent::Failed,
        BackEvent::Took(n) => ConnEvent::Took(n),
    }
}

// The bytes that a link takes by this.
fn taken_now<'a>(conn: &'a Conn, own: bool, event: BackEvent<'_>) -> &'a [u8]
    requires { IsTakable (pending_on own conn.now) event }
    ensures { result.now ≡ taken_now (pending_on own conn.now) event.entry }
{
    match event {
        BackEvent::Took(n) => &pending_on(conn, own)[..n],
        _ => &[],
    }
}

fn pending_on(conn: &Conn, own: bool) -> &[u8]
    ensures { result.now ≡ pending_on own conn.now }
{
    if own {
        conn.pending()
    } else {
        conn.back_pending()
    }
}
