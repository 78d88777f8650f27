// The published generations, each with the next number.
ghost use Rattle.std.specs.Prelude.{◌≡◌, ◌+◌, ◌++◌, ◌∷◌, [], OnOk, OnErr, IfOk};
ghost use Rattle.std.specs.Arc.{arc_value};
ghost use Rattle.desk.specs.Desks.{IsNumbered};
ghost use Rattle.desk.specs.Issues.{issue_plan, published_plan, published_in, generations_of, pins_of};

use generation::Generation;
use http_server::Log;
use px_base::Memory;
use std::alloc::{AllocError, Global};
use std::sync::Arc;

/// A published generation, and how often it was pinned.
#[derive(Drop)]
pub(crate) struct Published {
    pub(crate) issue: Arc<Generation, Global>,
    pub(crate) pins: u64,
}

/// The generations in the order of their numbers. Only the newest can be pinned, so it alone is held; the requests that an
/// earlier one was pinned for hold that.
#[derive(Drop)]
pub(crate) struct Timeline {
    /// The earlier ones, as contracts see them: it takes no memory. The numbers beside them say nothing.
    pub(crate) earlier: Log<Published, u8>,
    pub(crate) newest: Published,
    ghost numbered: { IsNumbered (generations_of (published_in earlier.items) newest) },
}

impl Timeline {
    pub(crate) fn new(first: Arc<Generation, Global>) -> Timeline
        ensures all { generations_of (published_in result.earlier.items) result.newest ≡ issue_plan first ∷ [] }
        ensures pins { pins_of (published_in result.earlier.items) result.newest ≡ [] }
        ensures newest { result.newest.issue ≡ first }
    {
        Timeline {
            earlier: Log::new(),
            newest: Published {
                issue: first,
                pins: 0,
            },
        }
    }

    /// Adds the next generation, and lets go of the one before it.
    pub(crate) fn publish(&mut self, issue: Arc<Generation, Global>)
        requires next { (issue_plan issue).number ≡ (published_plan self.old.newest).number + 1 }
        ensures all { generations_of (published_in self.new.earlier.items) self.new.newest
            ≡ generations_of (published_in self.old.earlier.items) self.old.newest ++ issue_plan issue ∷ [] }
        ensures pins { pins_of (published_in self.new.earlier.items) self.new.newest
            ≡ pins_of (published_in self.old.earlier.items) self.old.newest }
        ensures newest { self.new.newest.issue ≡ issue }
    {
        let next = Published { issue, pins: 0 };
        self.earlier = self.earlier.and(&self.newest, &0);
        self.newest = next;
    }

    /// The newest, with one more owner. It is refused where the number of its pins is at its greatest.
    pub(crate) fn pin(&mut self) -> Result<Arc<Generation, Global>, Memory>
        ensures issue { IfOk result (λ issue. arc_value issue ≡ arc_value self.new.newest.issue) }
        ensures generations { generations_of (published_in self.new.earlier.items) self.new.newest
            ≡ generations_of (published_in self.old.earlier.items) self.old.newest }
        ensures ok { OnOk result (pins_of (published_in self.new.earlier.items) self.new.newest
            ≡ pins_of (published_in self.old.earlier.items) self.old.newest ++ published_plan self.new.newest ∷ []) }
        ensures err { OnErr result (pins_of (published_in self.new.earlier.items) self.new.newest
            ≡ pins_of (published_in self.old.earlier.items) self.old.newest) }
        ensures newest { published_plan self.new.newest ≡ published_plan self.old.newest }
    {
        let pins = self.newest.pins.checked_add(1).ok_or(AllocError)?;
        let issue = self.newest.issue.clone()?;
        self.newest.pins = pins;
        Ok(issue)
    }
}
