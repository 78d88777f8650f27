//! The machine of one client connection: what it notes.
ghost use Rattle.std.specs.Prelude.{◌≡◌, ◌≢◌, ◌<◌, ◌++◌, ◌∷◌, [], List, ℕ, IfSome, IfNone, IsTrue, ◌↔◌};
ghost use Rattle.std.specs.List.{AllByRecursion, Contains};
ghost use Rattle.link_world.specs.Log.{noted};
ghost use Rattle.link_world.specs.declared.note.EndCause.{EndCause as Cause};
ghost use Rattle.conversation.specs.Plans.{Plan};
ghost use Rattle.conversation.specs.Steps.{Step, happened, failures, stops, pins};
ghost use Rattle.conversation.specs.Served.{Served};
ghost use Rattle.conn_machine.specs.Parts.{no_trail, note_by};
ghost use Rattle.conn_machine.specs.Prompt.{IsPrompt};
ghost use Rattle.conn_machine.specs.Reached.{Reached, IsOpen, IsEnding, IsDrained, IsFinished, IsUnended, EndsBy, notes_left};

use crate::conn::Conn;
use crate::parts::{Current, Phase};
use link_world::{Look, NodePick, Note, NoteBody, RequestNote};
use px_base::List as ListOf;
use std::alloc::Global;
use std::mem::replace;

impl Conn {
    /// The next note, where there is one.
    pub fn take_note(&mut self, alloc: Global) -> Option<Note>
        ensures client { self.new.client ≡ self.old.client }
        ensures number { self.new.current.number ≡ self.old.current.number }
        ensures prompt { IsPrompt self.old → IsPrompt self.new }
        ensures fewer { IfSome result (λ _. notes_left self.new < notes_left self.old) }
        ensures open { IsOpen self.old → self.new ≡ record self.old { notes = self.new.notes } }
        ensures opens { IsOpen self.new → IsOpen self.old }
        ensures ending { IsEnding self.old.phase → IsEnding self.new.phase }
        ensures cause { (cause : Cause) → EndsBy cause self.old.phase → EndsBy cause self.new.phase }
        ensures drained { IfNone result (IsDrained self.new) }
        ensures none { IfNone result (self.new ≡ self.old) }
        ensures of_link { IfSome result (λ note. (steps : List Step) → Reached steps self.old
            → note.link ≡ self.old.client.link) }
        ensures unended { IfSome result (λ _. IsUnended self.old) }
        ensures reached { IfSome result (λ note. (steps : List Step) → Reached steps self.old
            → Reached (steps ++ happened self.old.client.link (noted note) ∷ []) self.new) }
    {
        if !self.notes.is_empty() {
            return Some(self.notes.remove(0));
        }
        let link = self.client.link;
        match self.phase {
            Phase::Over(cause) => {
                if self.current.pinned {
                    self.current.pinned = false;
                    return Some(self.take_open(alloc));
                }
                self.phase = Phase::Told(cause);
                Some(Note {
                    link,
                    body: NoteBody::End(cause),
                })
            }
            _ => None,
        }
    }

    // The note of the current request.
    fn take_open(&mut self, alloc: Global) -> Note
        ensures note { result ≡ note_by self.old.client.link self.old.current self.old.looks.items self.old.picks.items self.old.backs.items }
        ensures client { self.new.client ≡ self.old.client }
        ensures input { self.new.input ≡ self.old.input }
        ensures over { self.new.over ≡ self.old.over }
        ensures current { self.new.current ≡ self.old.current }
        ensures out { self.new.out ≡ self.old.out }
        ensures sent { self.new.sent ≡ self.old.sent }
        ensures notes { self.new.notes ≡ self.old.notes }
        ensures stage { self.new.stage ≡ self.old.stage }
        ensures phase { self.new.phase ≡ self.old.phase }
    {
        let looks = replace(&mut self.looks, Vec::new(alloc));
        let picks = replace(&mut self.picks, Vec::new(alloc));
        let backs = replace(&mut self.backs, Vec::new(alloc));
        request_note(alloc, self.client.link, &self.current, looks, picks, backs)
    }

    /// All is done and noted.
    pub fn is_finished(&self) -> bool
        ensures finished { IsTrue result ↔ IsFinished self.now }
        ensures served { IsTrue result → (steps : List Step) (plans : List Plan) → Reached steps self.now
            → AllByRecursion (Contains plans) (pins steps)
            → Served plans self.now.client.link self.now.client.entry self.now.client.peer steps
            (failures self.now.client.link steps ≢ []) (stops steps ≢ []) }
        ensures unended { (IsTrue result → ⊥) → IsUnended self.now }
    {
        self.notes.is_empty() && matches!(self.phase, Phase::Told(_))
    }
}

/// The note of the current request, with what was looked up, drawn and dialled for it.
pub(crate) fn request_note(
    alloc: Global,
    link: u32,
    current: &Current,
    looks: Vec<Look>,
    picks: Vec<NodePick>,
    backs: Vec<u32>,
) -> Note
    ensures { result ≡ note_by link current.now looks.items picks.items backs.items }
{
    Note {
        link,
        body: NoteBody::Request(RequestNote {
            index: current.index,
            generation: current.number,
            router: current.router,
            status: current.status,
            cause: current.cause,
            looks: ListOf::from_vec(looks),
            picks: ListOf::from_vec(picks),
            turns: ListOf::new(alloc),
            backs: ListOf::from_vec(backs),
        }),
    }
}
