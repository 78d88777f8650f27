// The connections, and the configurations that they are pinned to.
ghost use Rattle.std.specs.Prelude.{◌≡◌, ◌≤◌, ◌++◌, ◌∷◌, [], ℕ, Some, None, OnOk, IfSome, length, slice_get};
ghost use Rattle.conversation.specs.Steps.{pinned as pinned_to, stopped as told_stop};
ghost use Rattle.conversation.specs.Plans.{Plan};
ghost use Rattle.conn_machine.specs.declared.conn.Conn.{Conn as ConnOf};
ghost use Rattle.conn_machine.specs.Events.{IsEnabled, IsAsked, shape_of, step_of, number_after};
ghost use Rattle.conn_machine.specs.Parts.{issue_plan};
ghost use Rattle.conn_machine.specs.Reached.{IsOpen};
ghost use Rattle.system_core.specs.Issues.{plan_at, plans_in, IsLast};
ghost use Rattle.system_core.specs.Drives.{DrivenAt, CameAt, IsClosedAt};

use crate::drive::{drive, halt};
use crate::timeline::Timeline;
use conn_machine::{Conn, ConnEvent, EventShape};
use generation::Generation;
use ip_net::Ip;
use link_world::Note;
use px_base::Memory;
use std::alloc::Global;
use std::sync::Arc;

/// The connections in the order in which they came.
#[derive(Drop)]
pub(crate) struct Clients {
    pub(crate) timeline: Timeline,
    pub(crate) conns: Vec<Conn>,
    // None was pinned to a configuration above the newest.
    ghost pinned: { (i : ℕ) (c : ConnOf) → slice_get conns.items i ≡ Some c → c.current.number ≤ length timeline.earlier.items },
}

impl Clients {
    pub(crate) fn new(alloc: Global, first: Arc<Generation, Global>) -> Clients
        requires { (plan_at first).number ≡ 0 }
        ensures plans { plans_in result.timeline.earlier.items result.timeline.newest ≡ plan_at first ∷ [] }
        ensures waiting { issue_plan result.timeline.waiting ≡ None }
        ensures conns { result.conns.items ≡ [] }
    {
        Clients {
            timeline: Timeline::new(alloc, first),
            conns: Vec::new(alloc),
        }
    }

    /// Lets the next configuration wait.
    pub(crate) fn wait_with(&mut self, issue: Arc<Generation, Global>)
        requires { (plan_at issue).number ≡ length (plans_in self.old.timeline.earlier.items self.old.timeline.newest) }
        ensures plans { plans_in self.new.timeline.earlier.items self.new.timeline.newest ≡ plans_in self.old.timeline.earlier.items self.old.timeline.newest }
        ensures waiting { issue_plan self.new.timeline.waiting ≡ Some (plan_at issue) }
        ensures conns { self.new.conns ≡ self.old.conns }
    {
        self.timeline.wait_with(issue);
    }

    /// Publishes the configuration that waits, where one does.
    pub(crate) fn publish(&mut self) -> Result<(), Memory>
        ensures plans { OnOk result (IfSome (issue_plan self.old.timeline.waiting) (λ p. plans_in self.new.timeline.earlier.items self.new.timeline.newest ≡ plans_in self.old.timeline.earlier.items self.old.timeline.newest ++ p ∷ [])) }
        ensures waiting { OnOk result (issue_plan self.new.timeline.waiting ≡ None) }
        ensures conns { self.new.conns ≡ self.old.conns }
    {
        self.timeline.publish()
    }

    /// A client comes.
    pub(crate) fn arrive(
        &mut self,
        alloc: Global,
        link: u32,
        entry: &[u8],
        peer: Ip,
    ) -> Result<(), Memory>
        ensures timeline { self.new.timeline ≡ self.old.timeline }
        ensures came { OnOk result (CameAt link entry.now peer self.old.conns.items self.new.conns.items) }
    {
        self.conns.reserve(1)?;
        let conn = Conn::new(alloc, link, entry, peer)?;
        self.conns.push_reserved(conn);
        Ok(())
    }

    /// The connection at this place is told an event that may come.
    pub(crate) fn drive(
        &mut self,
        alloc: Global,
        place: usize,
        event: ConnEvent<'_>,
        notes: &mut Vec<Note>,
    ) -> Result<(), Memory>
        requires told { (c : ConnOf) × (slice_get self.old.conns.items place ≡ Some c) × IsEnabled (shape_of event) c × IsAsked event c }
        requires known { number_after event 0 ≤ length self.old.timeline.earlier.items }
        ensures timeline { self.new.timeline ≡ self.old.timeline }
        ensures driven { OnOk result ((c : ConnOf) → slice_get self.old.conns.items place ≡ Some c
            → DrivenAt place c (step_of c event.entry) self.old.conns.items self.new.conns.items notes.old.items notes.new.items) }
    {
        drive(alloc, &mut self.conns[place], event, notes)?;
        Ok(())
    }

    /// The connection at this place, which is open, is told that a stop was asked for.
    pub(crate) fn halt(
        &mut self,
        alloc: Global,
        place: usize,
        notes: &mut Vec<Note>,
    ) -> Result<(), Memory>
        requires { (c : ConnOf) × (slice_get self.old.conns.items place ≡ Some c) × IsOpen c }
        ensures timeline { self.new.timeline ≡ self.old.timeline }
        ensures driven { OnOk result ((c : ConnOf) → slice_get self.old.conns.items place ≡ Some c
            → DrivenAt place c told_stop self.old.conns.items self.new.conns.items notes.old.items notes.new.items) }
        ensures closed { OnOk result (IsClosedAt place self.new.conns.items) }
    {
        halt(alloc, &mut self.conns[place], notes)?;
        Ok(())
    }

    /// The connection at this place is pinned to the newest configuration.
    pub(crate) fn pin(
        &mut self,
        alloc: Global,
        place: usize,
        notes: &mut Vec<Note>,
    ) -> Result<(), Memory>
        requires { (c : ConnOf) × (slice_get self.old.conns.items place ≡ Some c) × IsEnabled EventShape.Pinned c }
        ensures timeline { self.new.timeline ≡ self.old.timeline }
        ensures driven { OnOk result ((p : Plan) × IsLast (plans_in self.old.timeline.earlier.items self.old.timeline.newest) p
            × ((c : ConnOf) → slice_get self.old.conns.items place ≡ Some c
            → DrivenAt place c (pinned_to p) self.old.conns.items self.new.conns.items notes.old.items notes.new.items)) }
    {
        let issue = self.timeline.last()?;
        self.drive(alloc, place, ConnEvent::Pinned(issue), notes)?;
        Ok(())
    }
}
