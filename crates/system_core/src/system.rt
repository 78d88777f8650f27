//! The system: every connection, told one event after another.
ghost use Rattle.std.specs.Prelude.{◌≡◌, ◌++◌, ◌∷◌, [], List, IfOk, OnOk, length};
ghost use Rattle.conversation.specs.Plans.{Plan};
ghost use Rattle.system_core.specs.Issues.{plan_at};
ghost use Rattle.system_core.specs.Views.{plans_of};
ghost use Rattle.system_core.specs.Drives.{AreClosed};
ghost use Rattle.system_core.specs.Answers.{Answers, IsNext};
ghost use Rattle.system_core.specs.Shows.{Lawful, Ran};
ghost use Rattle.system_core.specs.declared.event.Event.{Event as EventOf};

use crate::clients::Clients;
use crate::draws::Pop;
use crate::event::{Event, Refused};
use crate::links::Link;
use crate::server::OneServer;
use conn_machine::BackEvent;
use generation::Generation;
use link_world::Note;
use px_base::Memory;
use std::alloc::Global;
use std::sync::Arc;

/// All connections, the links that they have, and what was published for them.
#[derive(Drop)]
pub struct System {
    pub(crate) clients: Clients,
    pub(crate) links: Vec<Link>,
    pub(crate) pops: Vec<Pop>,
    pub(crate) notes: Vec<Note>,
    pub(crate) server: OneServer,
    pub(crate) stopped: bool,
}

impl System {
    /// A system without connections, under a first configuration with the number 0.
    pub fn new(alloc: Global, first: Arc<Generation, Global>) -> Result<System, Memory>
        requires { (plan_at first).number ≡ 0 }
        ensures { IfOk result (Lawful (plan_at first) []) }
    {
        let server = OneServer::new(alloc)?;
        Ok(System {
            clients: Clients::new(alloc, first),
            links: Vec::new(alloc),
            pops: Vec::new(alloc),
            notes: Vec::new(alloc),
            server,
            stopped: false,
        })
    }

    /// How many configurations were published. The next one has this number.
    pub fn published(&self) -> u64
        ensures { result ≡ length (plans_of self.now.clients.timeline) }
    {
        self.clients.timeline.count()
    }

    /// The links by number.
    pub fn links(&self) -> &[Link]
        ensures { result.now ≡ self.now.links.items }
    {
        self.links.as_slice()
    }

    /// The notes of all connections, in order.
    pub fn notes(&self) -> &[Note]
        ensures { result.now ≡ self.now.notes.items }
    {
        self.notes.as_slice()
    }

    /// One event. One that is refused but for want of memory changes nothing.
    pub fn event(&mut self, alloc: Global, event: Event) -> Result<(), Refused>
        requires next { IsNext event (length (plans_of self.old.clients.timeline)) }
        ensures answers { Answers self.old event result self.new }
        // Whatever events led here, with this one the records are lawful.
        ensures lawful { OnOk result ((first : Plan) (events : List EventOf) → Lawful first events self.old
            → Lawful first (events ++ event ∷ []) self.new) }
        // Once a stop was asked for, no connection goes on.
        ensures closed { event ≡ EventOf.Stop → OnOk result (AreClosed (length self.new.clients.conns.items) self.new.clients.conns.items) }
    {
        self.dispatch(alloc, event)
    }

    fn dispatch(&mut self, alloc: Global, event: Event) -> Result<(), Refused>
        requires next { IsNext event (length (plans_of self.old.clients.timeline)) }
        ensures answers { Answers self.old event result self.new }
        ensures ran { OnOk result (Ran event self.old self.new) }
        ensures closed { event ≡ EventOf.Stop → OnOk result (AreClosed (length self.new.clients.conns.items) self.new.clients.conns.items) }
    {
        match event {
            Event::Config { issue } => self.config(issue),
            Event::Publish => self.publish(),
            Event::Arrive { entry, peer } => self.arrive(alloc, entry, peer),
            Event::Bytes { link, bytes } => self.gave(alloc, link, bytes),
            Event::End { link } => self.happen(alloc, link, BackEvent::End),
            Event::Fail { link } => self.happen(alloc, link, BackEvent::Failed),
            Event::Pin { link } => self.pin(alloc, link),
            Event::Look { link } => self.look(alloc, link),
            Event::Draw { link } => self.draw(alloc, link),
            Event::Dial { link } => self.dial(alloc, link),
            Event::Took { link, count } => self.happen(alloc, link, BackEvent::Took(count)),
            Event::Stop => self.stop(alloc),
        }
    }
}
