//! The machine of one client connection: the exchange with a server.
ghost use Rattle.std.specs.Prelude.{◌≡◌, ◌≤◌, ◌<◌, ◌++◌, ◌∷◌, [], Some, List, ℕ, OnOk, IfOk, IfSome, length, take, false, vec_len, vec_capacity};
ghost use Rattle.back_machine.specs.Exchanges.{Exchanged};
ghost use Rattle.back_machine.specs.Forwarding.{forwarded};
ghost use Rattle.link_world.specs.Log.{dialled, gave, gave_end, took};
ghost use Rattle.http_wire.specs.declared.message.Request.{Request as HttpRequest};
ghost use Rattle.conversation.specs.Steps.{Step, happened, failed, IsNew};
ghost use Rattle.conn_machine.specs.Parts.{HasBegun};
ghost use Rattle.conn_machine.specs.Prompt.{IsPrompt};
ghost use Rattle.conn_machine.specs.Reached.{Reached, IsGoing, Waits, KeepsServer, back_pending_of};

use crate::boxed::BoxedBack;
use crate::conn::Conn;
use crate::parts::{Aim, Asked, Current, Phase, Stage};
use back_machine::Back;
use px_base::Memory;
use std::alloc::{AllocError, Global};

impl Conn {
    /// A link was dialled to the server where `aim` says. It is one that the connection hasn't had.
    pub fn dialled(&mut self, alloc: Global, link: u32) -> Result<(), Memory>
        requires waits { Waits Stage.Dial self.old }
        requires room { vec_len self.old.backs < vec_capacity self.old.backs }
        ensures client { self.new.client ≡ self.old.client }
        ensures number { self.new.current.number ≡ self.old.current.number }
        ensures going { OnOk result (IsGoing self.new.phase) }
        ensures prompt { OnOk result (IsPrompt self.new) }
        ensures server { Waits Stage.Exchange self.new → self.new.current.link ≡ link }
        ensures reached { (steps : List Step) (a : Aim) → self.old.current.aim ≡ Some a → IsNew link steps → Reached steps self.old
            → Reached (steps ++ happened link (dialled a.server.host a.server.port) ∷ []) self.new }
    {
        self.note_dial(link);
        self.start(alloc)
    }

    fn note_dial(&mut self, link: u32)
        requires waits { Waits Stage.Dial self.old }
        requires room { vec_len self.old.backs < vec_capacity self.old.backs }
        ensures client { self.new.client ≡ self.old.client }
        ensures number { self.new.current.number ≡ self.old.current.number }
        ensures waits { Waits Stage.Dialled self.new }
        ensures link { self.new.current.link ≡ link }
        ensures reached { (steps : List Step) (a : Aim) → self.old.current.aim ≡ Some a → IsNew link steps → Reached steps self.old
            → Reached (steps ++ happened link (dialled a.server.host a.server.port) ∷ []) self.new }
    {
        push_link(&mut self.backs, link);
        self.current.link = link;
        self.stage = Stage::Dialled;
    }

    // The exchange on the new link.
    fn start(&mut self, alloc: Global) -> Result<(), Memory>
        requires { Waits Stage.Dialled self.old }
        ensures client { self.new.client ≡ self.old.client }
        ensures number { self.new.current.number ≡ self.old.current.number }
        ensures going { OnOk result (IsGoing self.new.phase) }
        ensures prompt { OnOk result (IsPrompt self.new) }
        ensures link { self.new.current.link ≡ self.old.current.link }
        ensures reached { (steps : List Step) → Reached steps self.old → Reached steps self.new }
    {
        self.phase = Phase::Broken;
        let back = exchange_for(alloc, &self.current)?;
        self.current.back = Some(back);
        self.stage = Stage::Exchange;
        self.phase = Phase::Open;
        Ok(())
    }

    /// The link to the server took the first bytes that were pending for it.
    pub fn back_took(&mut self, n: usize)
        requires waits { Waits Stage.Exchange self.old }
        requires some { n ≤ length (back_pending_of self.old) }
        ensures client { self.new.client ≡ self.old.client }
        ensures number { self.new.current.number ≡ self.old.current.number }
        ensures waits { Waits Stage.Exchange self.new }
        ensures prompt { IsPrompt self.old → IsPrompt self.new }
        ensures server { KeepsServer self.old self.new }
        ensures reached { (steps : List Step) → Reached steps self.old
            → Reached (steps ++ happened self.old.current.link (took (take n (back_pending_of self.old))) ∷ []) self.new }
    {
        if let Some(back) = &mut self.current.back {
            back.took(n);
        }
    }

    /// What of the request the link to the server hasn't taken.
    pub fn back_pending(&self) -> &[u8]
        ensures { result.now ≡ back_pending_of self.now }
    {
        match &self.current.back {
            Some(back) => back.get().pending(),
            None => &[],
        }
    }
}

// The exchange of the current request with its server.
fn exchange_for(alloc: Global, current: &Current) -> Result<BoxedBack, Memory>
    ensures { IfOk result (HasBegun current.now.asked current.now.aim) }
{
    match &current.asked {
        Asked::Request(request) => match &current.aim {
            Some(aim) => {
                let aim = aim.get();
                let back = Back::new(alloc, request.get(), &aim.server, aim.pass_host)?;
                Ok(BoxedBack::new(alloc, back)?)
            }
            None => Err(AllocError),
        },
        Asked::Refused(_) => Err(AllocError),
        Asked::Nothing => Err(AllocError),
    }
}

fn push_link(backs: &mut Vec<u32>, link: u32)
    requires { vec_len backs.old < vec_capacity backs.old }
    ensures { backs.new.items ≡ backs.old.items ++ link ∷ [] }
{
    let Ok(()) = backs.push(link) else {
        unreachable!()
    };
}
