//! The machine of one client connection: how a request gets its server.
ghost use Rattle.std.specs.Prelude.{◌≡◌, ◌<◌, ◌++◌, ◌∷◌, [], List, ℕ, OnOk, IfSome, vec_len, vec_capacity};
ghost use Rattle.std.specs.Option.{option_copied};
ghost use Rattle.conversation.specs.Steps.{Step, looked, drew, spent};
ghost use Rattle.conn_machine.specs.Prompt.{IsPrompt};
ghost use Rattle.conn_machine.specs.Reached.{Reached, IsGoing, Waits, KeepsServer, WaitsIn, WantsNode};

use crate::boxed::BoxedAim;
use crate::conn::Conn;
use crate::own::own_text;
use crate::parts::{Aim, Phase, Stage};
use crate::pins::end_after;
use link_world::{Cause, Look, NodePick};
use px_base::Memory;
use std::alloc::Global;

impl Conn {
    /// Where the current request goes, once its router is known.
    pub fn aim(&self) -> Option<&Aim>
        ensures aim { option_copied result ≡ self.now.current.aim }
        ensures wants { IfSome result (λ a. WantsNode self.now a.now.node) }
    {
        self.current.aim.as_ref().map(BoxedAim::get)
    }

    /// Which servers of the balancer are up. Where none is, the request is answered.
    pub fn looked(&mut self, alloc: Global, look: Look) -> Result<(), Memory>
        requires waits { Waits Stage.Look self.old }
        requires node { WantsNode self.old look.node }
        requires room { vec_len self.old.looks < vec_capacity self.old.looks }
        ensures client { self.new.client ≡ self.old.client }
        ensures number { self.new.current.number ≡ self.old.current.number }
        ensures going { OnOk result (IsGoing self.new.phase) }
        ensures prompt { OnOk result (IsPrompt self.new) }
        ensures server { KeepsServer self.old self.new }
        ensures reached { (steps : List Step) → Reached steps self.old → Reached (steps ++ looked look ∷ []) self.new }
    {
        self.note_look(look);
        if let Stage::Down = self.stage {
            return self.answer_down(alloc);
        }
        Ok(())
    }

    fn note_look(&mut self, look: Look)
        requires waits { Waits Stage.Look self.old }
        requires node { WantsNode self.old look.node }
        requires room { vec_len self.old.looks < vec_capacity self.old.looks }
        ensures client { self.new.client ≡ self.old.client }
        ensures number { self.new.current.number ≡ self.old.current.number }
        ensures waits { WaitsIn Stage.Down Stage.Walk self.new }
        ensures reached { (steps : List Step) → Reached steps self.old → Reached (steps ++ looked look ∷ []) self.new }
    {
        push_look(&mut self.looks, look);
        if look.mask % 2 == 0 {
            self.stage = Stage::Down;
        } else {
            self.stage = Stage::Walk;
        }
    }

    // The server is down.
    fn answer_down(&mut self, alloc: Global) -> Result<(), Memory>
        requires { Waits Stage.Down self.old }
        ensures client { self.new.client ≡ self.old.client }
        ensures number { self.new.current.number ≡ self.old.current.number }
        ensures going { OnOk result (IsGoing self.new.phase) }
        ensures prompt { OnOk result (IsPrompt self.new) }
        ensures server { ¬ (Waits Stage.Exchange self.new) }
        ensures reached { (steps : List Step) → Reached steps self.old → Reached steps self.new }
    {
        let close = end_after(&self.current).is_some();
        self.phase = Phase::Broken;
        self.out.clear();
        self.sent = 0;
        own_text(alloc, 503, close, &mut self.out)?;
        self.current.status = 503;
        self.current.cause = Cause::NoChild;
        self.stage = Stage::Reply;
        self.phase = Phase::Open;
        Ok(())
    }

    /// The schedule of the node picked its server.
    pub fn drew(&mut self, pick: NodePick)
        requires waits { Waits Stage.Walk self.old }
        requires node { WantsNode self.old pick.node }
        requires child { pick.pick.child ≡ 0 }
        requires room { vec_len self.old.picks < vec_capacity self.old.picks }
        ensures client { self.new.client ≡ self.old.client }
        ensures number { self.new.current.number ≡ self.old.current.number }
        ensures waits { Waits Stage.Dial self.new }
        ensures reached { (steps : List Step) → Reached steps self.old → Reached (steps ++ drew pick ∷ []) self.new }
    {
        push_pick(&mut self.picks, pick);
        self.stage = Stage::Dial;
    }

    /// The schedule of the node has no pops left: the request is answered.
    pub fn spent(&mut self, alloc: Global, node: u32) -> Result<(), Memory>
        requires waits { Waits Stage.Walk self.old }
        requires node { WantsNode self.old node }
        ensures client { self.new.client ≡ self.old.client }
        ensures number { self.new.current.number ≡ self.old.current.number }
        ensures going { OnOk result (IsGoing self.new.phase) }
        ensures prompt { OnOk result (IsPrompt self.new) }
        ensures server { KeepsServer self.old self.new }
        ensures reached { (steps : List Step) → Reached steps self.old → Reached (steps ++ spent node ∷ []) self.new }
    {
        self.note_spent(node);
        self.answer_spent(alloc, node)
    }

    fn note_spent(&mut self, node: u32)
        requires waits { Waits Stage.Walk self.old }
        requires node { WantsNode self.old node }
        ensures client { self.new.client ≡ self.old.client }
        ensures current { self.new.current ≡ self.old.current }
        ensures waits { Waits Stage.Spent self.new }
        ensures reached { (steps : List Step) → Reached steps self.old → Reached (steps ++ spent node ∷ []) self.new }
    {
        let _node = node;
        self.stage = Stage::Spent;
    }

    fn answer_spent(&mut self, alloc: Global, node: u32) -> Result<(), Memory>
        requires waits { Waits Stage.Spent self.old }
        requires node { WantsNode self.old node }
        ensures client { self.new.client ≡ self.old.client }
        ensures number { self.new.current.number ≡ self.old.current.number }
        ensures going { OnOk result (IsGoing self.new.phase) }
        ensures prompt { OnOk result (IsPrompt self.new) }
        ensures server { ¬ (Waits Stage.Exchange self.new) }
        ensures reached { (steps : List Step) → Reached steps self.old → Reached steps self.new }
    {
        let close = end_after(&self.current).is_some();
        self.phase = Phase::Broken;
        self.out.clear();
        self.sent = 0;
        own_text(alloc, 503, close, &mut self.out)?;
        self.current.status = 503;
        self.current.cause = Cause::Spent { node };
        self.stage = Stage::Reply;
        self.phase = Phase::Open;
        Ok(())
    }
}

fn push_look(looks: &mut Vec<Look>, look: Look)
    requires { vec_len looks.old < vec_capacity looks.old }
    ensures { looks.new.items ≡ looks.old.items ++ look ∷ [] }
{
    let Ok(()) = looks.push(look) else {
        unreachable!()
    };
}

fn push_pick(picks: &mut Vec<NodePick>, pick: NodePick)
    requires { vec_len picks.old < vec_capacity picks.old }
    ensures { picks.new.items ≡ picks.old.items ++ pick ∷ [] }
{
    let Ok(()) = picks.push(pick) else {
        unreachable!()
    };
}
