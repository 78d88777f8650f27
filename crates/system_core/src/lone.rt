// Events of no connection.
ghost use Rattle.std.specs.Prelude.{◌≡◌, ◌<◌, ◌+◌, None, IfOk, OnOk, false, length};
ghost use Rattle.system_core.specs.Issues.{plan_at};
ghost use Rattle.system_core.specs.Views.{plans_of, waiting_of};
ghost use Rattle.system_core.specs.Drives.{AreClosed};
ghost use Rattle.system_core.specs.Answers.{LoneAnswers, HasWaiting};
ghost use Rattle.system_core.specs.Shows.{Ran, RanCame, Stopping};
ghost use Rattle.system_core.specs.declared.event.Event.TheVariants as event;

use crate::event::{Kind, Refused};
use crate::links::Link;
use crate::system::System;
use conn_machine::{EventKind, StateName};
use generation::Generation;
use ip_net::Ip;
use px_base::{Bytes, Memory};
use std::alloc::{AllocError, Global};
use std::sync::Arc;

impl System {
    pub(crate) fn config(&mut self, issue: Arc<Generation, Global>) -> Result<(), Refused>
        requires { (plan_at issue).number ≡ length (plans_of self.old.clients.timeline) }
        ensures answers { LoneAnswers self.old (waiting_of self.old.clients.timeline ≡ None) Kind.Config result self.new }
        ensures ran { OnOk result (Ran (event.Config issue) self.old self.new) }
    {
        if self.clients.timeline.is_waiting() {
            return Err(idle(Kind::Config));
        }
        self.clients.wait_with(issue);
        Ok(())
    }

    pub(crate) fn publish(&mut self) -> Result<(), Refused>
        ensures answers { LoneAnswers self.old (HasWaiting self.old) Kind.Publish result self.new }
        ensures ran { OnOk result (Ran event.Publish self.old self.new) }
    {
        if !self.clients.timeline.is_waiting() {
            return Err(idle(Kind::Publish));
        }
        self.clients.publish()?;
        Ok(())
    }

    pub(crate) fn arrive(&mut self, alloc: Global, entry: Bytes, peer: Ip) -> Result<(), Refused>
        ensures answers { LoneAnswers self.old (self.old.stopped ≡ false) Kind.Arrive result self.new }
        ensures ran { OnOk result (Ran (event.Arrive entry peer) self.old self.new) }
    {
        if self.stopped {
            return Err(idle(Kind::Arrive));
        }
        self.admit(alloc, entry.as_slice(), peer)?;
        Ok(())
    }

    fn admit(&mut self, alloc: Global, entry: &[u8], peer: Ip) -> Result<(), Memory>
        ensures { OnOk result (RanCame entry.now peer self.old self.new) }
    {
        let link = self.next_link()?;
        let owner = self.clients.conns.len();
        self.links.reserve(1)?;
        self.clients.arrive(alloc, link, entry, peer)?;
        self.links.push_reserved(Link {
            owner,
            to: None,
            sent: Vec::new(alloc),
        });
        Ok(())
    }

    /// The number of the next link.
    pub(crate) fn next_link(&self) -> Result<u32, Memory>
        ensures { IfOk result (λ link. link ≡ length self.now.links.items) }
    {
        match u32::try_from(self.links.len()) {
            Ok(link) => Ok(link),
            Err(_) => Err(AllocError),
        }
    }

    pub(crate) fn stop(&mut self, alloc: Global) -> Result<(), Refused>
        ensures answers { LoneAnswers self.old (self.old.stopped ≡ false) (Kind.Conn EventKind.Stop) result self.new }
        ensures ran { OnOk result (Ran event.Stop self.old self.new) }
        ensures closed { OnOk result (AreClosed (length self.new.clients.conns.items) self.new.clients.conns.items) }
    {
        if self.stopped {
            return Err(idle(Kind::Conn(EventKind::Stop)));
        }
        self.stopped = true;
        self.stop_all(alloc)?;
        Ok(())
    }

    // Each connection that is open is told that a stop was asked for.
    fn stop_all(&mut self, alloc: Global) -> Result<(), Memory>
        ensures stopping { OnOk result (Stopping self.old self.new) }
        ensures closed { OnOk result (AreClosed (length self.new.clients.conns.items) self.new.clients.conns.items) }
    {
        let count = self.clients.conns.len();
        for place in 0..count {
            self.stop_at(alloc, place)?;
        }
        Ok(())
    }

    fn stop_at(&mut self, alloc: Global, place: usize) -> Result<(), Memory>
        requires { place < length self.old.clients.conns.items }
        ensures same { OnOk result (length self.new.clients.conns.items ≡ length self.old.clients.conns.items) }
        ensures stopping { OnOk result (Stopping self.old self.new) }
        ensures closed { OnOk result (AreClosed place self.old.clients.conns.items → AreClosed (place + 1) self.new.clients.conns.items) }
    {
        if !self.clients.conns[place].is_open() {
            return Ok(());
        }
        self.clients.halt(alloc, place, &mut self.notes)?;
        Ok(())
    }
}

// An event of no connection may not come.
fn idle(kind: Kind) -> Refused
    ensures { result ≡ Refused.NotEnabled kind StateName.Idle }
{
    Refused::NotEnabled {
        kind,
        state: StateName::Idle,
    }
}
