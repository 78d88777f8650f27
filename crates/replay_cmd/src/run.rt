//! A system that is told a script, line by line.
ghost use Rattle.std.specs.Prelude.{◌≡◌, ◌≢◌, ◌≤◌, ◌<◌, [], ℕ, length, IfOk, MatchResult};
ghost use Rattle.std.specs.Arc.{arc_value};
ghost use Rattle.system_core.specs.Answers.{IsNext};
ghost use Rattle.system_core.specs.Views.{plans_of};
ghost use Rattle.replay_cmd.specs.Replays.{Means, Accepts, Refuses, FailsMeaning, FailsLine, Configured, HasConfigured, FailsBlock, FailsConfig, Step, FailsStep, IsStart, IsCountOf, event_on};
ghost use Rattle.system_core.specs.declared.event.Event.{Event as EventOf};

use crate::config::read_generation;
use crate::cut::{cut_line, is_blank, take_block};
use crate::why::{Failure, Why, failure_of};
use generation::Generation;
use ip_net::Ip;
use px_base::{Bytes, Memory};
use replay_script::{Line, LinkKind, read_line, unescape};
use rule_eval::PatternShop;
use std::alloc::{AllocError, Global};
use std::sync::Arc;
use system_core::{Event, System};

/// A system, and whether it has had its configuration.
#[derive(Drop)]
pub(crate) struct Run {
    pub(crate) system: System,
    pub(crate) configured: bool,
}

impl Run {
    /// A system without connections, under a configuration without routers.
    pub(crate) fn new(alloc: Global) -> Result<Run, Memory>
        ensures { IfOk result IsStart }
    {
        let first = shared(alloc, Generation::empty(alloc, 0)?)?;
        let system = System::new(alloc, first)?;
        Ok(Run {
            system,
            configured: false,
        })
    }

    /// Tells the system the line at the front of the text, and answers what follows it.
    pub(crate) fn tell<'a, S: PatternShop>(
        &mut self,
        alloc: Global,
        text: &'a [u8],
        shop: &mut S,
    ) -> Result<&'a [u8], Failure>
        requires { text.now ≢ [] }
        ensures step { MatchResult result
            (λ more. Step (S.refusals shop.old) (S.refusals shop.new) self.old text.now self.new more.now) (FailsStep self.old text.now) }
        ensures shorter { IfOk result (λ more. length more.now < length text.now) }
        ensures later { S.refusals shop.old ≤ S.refusals shop.new }
    {
        let (line, rest) = cut_line(text);
        if is_blank(line) {
            return Ok(rest);
        }
        match read_line(line) {
            Some(Line::ConfigFile) => self.configure(alloc, rest, shop),
            Some(read) => {
                self.say(alloc, read)?;
                Ok(rest)
            }
            None => Err(Failure::Refused(Why::Grammar)),
        }
    }

    // Tells it the configuration in the lines that follow.
    fn configure<'a, S: PatternShop>(
        &mut self,
        alloc: Global,
        text: &'a [u8],
        shop: &mut S,
    ) -> Result<&'a [u8], Failure>
        ensures told { MatchResult result
            (λ more. HasConfigured (S.refusals shop.old) (S.refusals shop.new) self.old text.now self.new more.now) (FailsConfig self.old text.now) }
        ensures shorter { IfOk result (λ more. length more.now ≤ length text.now) }
        ensures later { S.refusals shop.old ≤ S.refusals shop.new }
    {
        if self.configured {
            return Err(Failure::Refused(Why::Later));
        }
        let (block, rest) = take_block(alloc, text)?;
        self.configured = true;
        self.wait_for(alloc, block.as_slice(), shop)?;
        Ok(rest)
    }

    // Lets the configuration in a block wait.
    fn wait_for<S: PatternShop>(
        &mut self,
        alloc: Global,
        block: &[u8],
        shop: &mut S,
    ) -> Result<(), Failure>
        ensures configured { self.new.configured ≡ self.old.configured }
        ensures told { MatchResult result
            (λ done. Configured (S.refusals shop.old) (S.refusals shop.new) block.now self.old.system self.new.system) (FailsBlock self.old.system block.now) }
        ensures later { S.refusals shop.old ≤ S.refusals shop.new }
    {
        match read_generation(alloc, self.system.published(), block, shop)? {
            Some(generation) => {
                let issue = shared(alloc, generation)?;
                self.hear(alloc, Event::Config { issue })
            }
            None => Ok(()),
        }
    }

    // Tells it the event of a line.
    fn say(&mut self, alloc: Global, line: Line<'_>) -> Result<(), Failure>
        ensures configured { self.new.configured ≡ self.old.configured }
        ensures said { MatchResult result
            (λ done. (e : EventOf) × Means self.old.system line.entry e × Accepts e self.old.system self.new.system)
            (FailsLine self.old.system line.entry) }
    {
        let event = self.event_of(alloc, line)?;
        self.hear(alloc, event)
    }

    fn hear(&mut self, alloc: Global, event: Event) -> Result<(), Failure>
        requires next { IsNext event (length (plans_of self.old.system.clients.timeline)) }
        ensures configured { self.new.configured ≡ self.old.configured }
        ensures heard { MatchResult result (λ done. Accepts event self.old.system self.new.system) (Refuses event self.old.system) }
    {
        match self.system.event(alloc, event) {
            Ok(()) => Ok(()),
            Err(refused) => Err(failure_of(refused)),
        }
    }

    // The event of a line.
    fn event_of(&self, alloc: Global, line: Line<'_>) -> Result<Event, Failure>
        ensures means { MatchResult result (Means self.now.system line.entry) (FailsMeaning line.entry) }
        ensures next { IfOk result (λ e. (n : ℕ) → IsNext e n) }
    {
        match line {
            Line::Publish => Ok(Event::Publish),
            Line::Arrive { entry, peer } => match peer {
                Ip::V4(_) => Ok(Event::Arrive {
                    entry: Bytes::from_slice(alloc, entry)?,
                    peer,
                }),
                Ip::V6(_) => Err(Failure::Refused(Why::Later)),
            },
            Line::Bytes { link, text } => match unescape(alloc, text)? {
                Some(bytes) => Ok(Event::Bytes {
                    link,
                    bytes: Bytes::from_vec(bytes),
                }),
                None => Err(Failure::Refused(Why::Grammar)),
            },
            Line::OnLink { kind, link } => Ok(event_on(kind, link)),
            Line::Took { link, count } => Ok(Event::Took {
                link,
                count: self.count_of(link, count),
            }),
            Line::Stop => Ok(Event::Stop),
            Line::ConfigFile => Err(Failure::Refused(Why::Later)),
            Line::ConfigConsul { root: _ } => Err(Failure::Refused(Why::Later)),
            Line::Mark {
                node: _,
                server: _,
                up: _,
            } => Err(Failure::Refused(Why::Later)),
            Line::Tick { now: _ } => Err(Failure::Refused(Why::Later)),
        }
    }

    // How many bytes a link takes: so many, or all that are pending for it.
    fn count_of(&self, link: u32, count: Option<u64>) -> usize
        ensures { IsCountOf self.now.system link count result }
    {
        match count {
            Some(count) => count as usize,
            None => self.system.pending(link),
        }
    }
}

// What happens on a link, or is done for it.
fn event_on(kind: LinkKind, link: u32) -> Event
    ensures is { result ≡ event_on kind link }
    ensures next { (n : ℕ) → IsNext result n }
{
    match kind {
        LinkKind::End => Event::End { link },
        LinkKind::Fail => Event::Fail { link },
        LinkKind::Pin => Event::Pin { link },
        LinkKind::Look => Event::Look { link },
        LinkKind::Draw => Event::Draw { link },
        LinkKind::Dial => Event::Dial { link },
    }
}

fn shared(alloc: Global, generation: Generation) -> Result<Arc<Generation, Global>, Memory>
    ensures { IfOk result (λ issue. arc_value issue ≡ generation) }
{
    match Arc::new(alloc, generation) {
        Ok(issue) => Ok(issue),
        Err(_) => Err(AllocError),
    }
}
