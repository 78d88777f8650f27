// What a client's connection waits for: a configuration, a look, a pick, and a link to its server.
ghost use Rattle.std.specs.Prelude.{◌≡◌, OnOk, IfOk};
ghost use Rattle.system_core.specs.Answers.{LinkAnswers, MayBeDone, IsAt};
ghost use Rattle.system_core.specs.Happens.{PinsAt, LooksAt, DrawsAt, DialsAt};
ghost use Rattle.system_core.specs.Shows.{Ran, RanAt};
ghost use Rattle.system_core.specs.declared.event.Event.TheVariants as event;

use crate::draws::{Pop, popped_at};
use crate::event::{Kind, Refused};
use crate::links::{Authority, Link};
use crate::system::System;
use conn_machine::{Aim, ConnEvent, EventKind, EventShape};
use link_world::{Look, NodePick};
use px_base::{Bytes, Memory};
use std::alloc::{AllocError, Global};
use wrr_deadlines::Drawn;

impl System {
    pub(crate) fn pin(&mut self, alloc: Global, link: u32) -> Result<(), Refused>
        ensures answers { LinkAnswers self.old link (MayBeDone link EventShape.Pinned) (Kind.Conn EventKind.Pin) result self.new }
        ensures ran { OnOk result (Ran (event.Pin link) self.old self.new) }
    {
        let place = self.client_waits(link, EventShape::Pinned)?;
        self.pin_at(alloc, place)?;
        Ok(())
    }

    fn pin_at(&mut self, alloc: Global, place: usize) -> Result<(), Memory>
        requires { IsAt EventShape.Pinned place self.old }
        ensures { OnOk result (RanAt PinsAt place self.old self.new) }
    {
        self.clients.pin(alloc, place, &mut self.notes)?;
        Ok(())
    }

    pub(crate) fn look(&mut self, alloc: Global, link: u32) -> Result<(), Refused>
        ensures answers { LinkAnswers self.old link (MayBeDone link EventShape.Looked) (Kind.Conn EventKind.Look) result self.new }
        ensures ran { OnOk result (Ran (event.Look link) self.old self.new) }
    {
        let place = self.client_waits(link, EventShape::Looked)?;
        self.look_at(alloc, place)?;
        Ok(())
    }

    // Each server is up.
    fn look_at(&mut self, alloc: Global, place: usize) -> Result<(), Memory>
        requires { IsAt EventShape.Looked place self.old }
        ensures { OnOk result (RanAt LooksAt place self.old self.new) }
    {
        let Some(aim) = self.clients.conns[place].aim() else {
            return Err(AllocError);
        };
        let look = Look {
            node: aim.node,
            mask: 1,
        };
        self.clients
            .drive(alloc, place, ConnEvent::Looked(look), &mut self.notes)?;
        Ok(())
    }

    pub(crate) fn draw(&mut self, alloc: Global, link: u32) -> Result<(), Refused>
        ensures answers { LinkAnswers self.old link (MayBeDone link EventShape.Drew) (Kind.Conn EventKind.Draw) result self.new }
        ensures ran { OnOk result (Ran (event.Draw link) self.old self.new) }
    {
        let place = self.client_waits(link, EventShape::Drew)?;
        self.draw_at(alloc, place)?;
        Ok(())
    }

    // The next pop of its balancer that is up.
    fn draw_at(&mut self, alloc: Global, place: usize) -> Result<(), Memory>
        requires { IsAt EventShape.Drew place self.old }
        ensures { OnOk result (RanAt DrawsAt place self.old self.new) }
    {
        let conn = &self.clients.conns[place];
        let Some(aim) = conn.aim() else {
            return Err(AllocError);
        };
        let node = aim.node;
        let number = conn.current.number;
        let count = popped_at(self.pops.as_slice(), number, node);
        match self.server.draw(count) {
            Drawn::Pick(pick) => {
                let pick = NodePick { node, pick };
                self.pops.push(Pop { number, pick })?;
                self.clients
                    .drive(alloc, place, ConnEvent::Drew(pick), &mut self.notes)?;
                Ok(())
            }
            Drawn::NoneUp => unreachable!(),
            Drawn::Spent => {
                self.clients
                    .drive(alloc, place, ConnEvent::Spent { node }, &mut self.notes)?;
                Ok(())
            }
        }
    }

    pub(crate) fn dial(&mut self, alloc: Global, link: u32) -> Result<(), Refused>
        ensures answers { LinkAnswers self.old link (MayBeDone link EventShape.Dialled) (Kind.Conn EventKind.Dial) result self.new }
        ensures ran { OnOk result (Ran (event.Dial link) self.old self.new) }
    {
        let place = self.client_waits(link, EventShape::Dialled)?;
        self.dial_at(alloc, place)?;
        Ok(())
    }

    fn dial_at(&mut self, alloc: Global, owner: usize) -> Result<(), Memory>
        requires { IsAt EventShape.Dialled owner self.old }
        ensures { OnOk result (RanAt DialsAt owner self.old self.new) }
    {
        let Some(aim) = self.clients.conns[owner].aim() else {
            return Err(AllocError);
        };
        let to = authority_of(alloc, aim)?;
        let link = self.next_link()?;
        self.links.reserve(1)?;
        self.clients
            .drive(alloc, owner, ConnEvent::Dialled { link }, &mut self.notes)?;
        self.links.push_reserved(Link {
            owner,
            to: Some(to),
            sent: Vec::new(alloc),
        });
        Ok(())
    }
}

fn authority_of(alloc: Global, aim: &Aim) -> Result<Authority, Memory>
    ensures host { IfOk result (λ to. to.host ≡ aim.now.server.host) }
    ensures port { IfOk result (λ to. to.port ≡ aim.now.server.port) }
{
    let host = Bytes::from_slice(alloc, aim.server.host.as_slice())?;
    Ok(Authority {
        host,
        port: aim.server.port,
    })
}
