// The configurations, each with the next number.
ghost use Rattle.std.specs.Prelude.{◌≡◌, ◌≤◌, ◌+◌, ◌++◌, ◌∷◌, [], None, Some, OnOk, IfOk, IfNone, IfSome, length, IsTrue, ◌↔◌};
ghost use Rattle.std.specs.Option.{ForSome};
ghost use Rattle.std.specs.Arc.{arc_value};
ghost use Rattle.conn_machine.specs.Parts.{issue_plan};
ghost use Rattle.system_core.specs.Issues.{plan_at, plans_in};

use generation::Generation;
use px_base::Memory;
use std::alloc::Global;
use std::mem;
use std::sync::Arc;

/// The configurations that were published, and one that waits.
#[derive(Drop)]
pub(crate) struct Timeline {
    pub(crate) earlier: Vec<Arc<Generation, Global>>,
    pub(crate) newest: Arc<Generation, Global>,
    pub(crate) waiting: Option<Arc<Generation, Global>>,
    ghost numbered: { (plan_at newest).number ≡ length earlier.items },
    ghost next: { ForSome waiting (λ issue. (plan_at issue).number ≡ length earlier.items + 1) },
}

impl Timeline {
    pub(crate) fn new(alloc: Global, first: Arc<Generation, Global>) -> Timeline
        requires { (plan_at first).number ≡ 0 }
        ensures plans { plans_in result.earlier.items result.newest ≡ plan_at first ∷ [] }
        ensures waiting { issue_plan result.waiting ≡ None }
        ensures earlier { result.earlier.items ≡ [] }
    {
        Timeline {
            earlier: Vec::new(alloc),
            newest: first,
            waiting: None,
        }
    }

    /// How many were published.
    pub(crate) fn count(&self) -> u64
        ensures count { result ≡ length self.now.earlier.items + 1 }
        ensures plans { result ≡ length (plans_in self.now.earlier.items self.now.newest) }
    {
        self.earlier.len() as u64 + 1
    }

    /// Whether one waits.
    pub(crate) fn is_waiting(&self) -> bool
        ensures { IsTrue result ↔ (issue_plan self.now.waiting ≡ None → ⊥) }
    {
        self.waiting.is_some()
    }

    /// Lets the next configuration wait.
    pub(crate) fn wait_with(&mut self, issue: Arc<Generation, Global>)
        requires { (plan_at issue).number ≡ length (plans_in self.old.earlier.items self.old.newest) }
        ensures plans { plans_in self.new.earlier.items self.new.newest ≡ plans_in self.old.earlier.items self.old.newest }
        ensures waiting { issue_plan self.new.waiting ≡ Some (plan_at issue) }
        ensures earlier { self.new.earlier ≡ self.old.earlier }
    {
        self.waiting = Some(issue);
    }

    /// Publishes the one that waits, where one does.
    pub(crate) fn publish(&mut self) -> Result<(), Memory>
        ensures plans { OnOk result (IfSome (issue_plan self.old.waiting) (λ p. plans_in self.new.earlier.items self.new.newest ≡ plans_in self.old.earlier.items self.old.newest ++ p ∷ [])) }
        ensures waiting { OnOk result (issue_plan self.new.waiting ≡ None) }
        ensures more { length self.old.earlier.items ≤ length self.new.earlier.items }
    {
        self.earlier.reserve(1)?;
        if let Some(issue) = self.waiting.take() {
            let before = mem::replace(&mut self.newest, issue);
            self.earlier.push_reserved(before);
        }
        Ok(())
    }

    /// The newest, with one more owner.
    pub(crate) fn last(&self) -> Result<Arc<Generation, Global>, Memory>
        ensures { IfOk result (λ issue. arc_value issue ≡ arc_value self.now.newest) }
    {
        self.newest.clone()
    }
}
