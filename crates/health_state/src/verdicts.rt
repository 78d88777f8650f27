//! The verdicts of a balancer's servers, and when each is probed again.

ghost use Rattle.std.specs.Prelude.{◌≡◌, ℕ, ◌<◌, ◌≤◌, ◌↔◌, Bool, true, IsTrue, IfOk, IfSome, MatchOption, List, [], ◌∷◌, ◌++◌, fold, length, slice_get, Some};
ghost use Rattle.std.specs.Int.{bit_at};
ghost use Rattle.health_state.specs.Marks.{Mark, mask_of, last_verdict};
ghost use Rattle.health_state.specs.Health.{Health, fresh, began, judged, up_mask, IsDue, IsLeastDue, IsServerDue, Follows, Step, after, verdicts};

use crate::Memory;
use std::alloc::Global;
use std::marker::Model;

/// What is known of one server.
#[derive(Clone, Copy)]
struct Server {
    /// Its last verdict is good, or it has none.
    up: bool,
    /// Its probe is under way.
    begun: bool,
    /// When it is to be probed, in milliseconds.
    due: u64,
}

impl Server {
    fn is_due(&self, now: u64) -> bool
        ensures { IsTrue result ↔ IsServerDue now self.now }
    {
        !self.begun && self.due <= now
    }
}

/// The verdicts of at most 64 servers, and when each is to be probed next. Times are in milliseconds.
#[derive(Drop)]
pub struct Verdicts {
    interval: u64,
    servers: Vec<Server>,
}

impl Model for Verdicts {
    ghost use Rattle.std.specs.Prelude.{◌≤◌, length};
    ghost use Rattle.health_state.specs.Health.{Health};

    ghost Value = { Health };

    ghost view = { λ v. record { interval = v.interval; servers = v.servers.items } };

    ghost invariant = { λ v. length v.servers.items ≤ 64 };
}

impl Verdicts {
    /// So many servers, all up and all due at `start`. Each is probed again `interval` after its verdict.
    pub fn new(alloc: Global, servers: u32, interval: u64, start: u64) -> Result<Verdicts, Memory>
        requires { servers ≤ 64 }
        ensures fresh { IfOk result (λ v. v ≡ fresh servers interval start) }
        ensures count { IfOk result (λ v. length v.servers ≡ servers) }
        ensures verdicts { IfOk result (Follows []) }
    {
        let server = Server {
            up: true,
            begun: false,
            due: start,
        };
        let servers = vec![in alloc; server; servers as usize]?;
        Ok(Verdicts { interval, servers })
    }

    /// The least server that is due and whose probe has not begun.
    pub fn due(&self, now: u64) -> Option<u32>
        ensures least { MatchOption result ((server : ℕ) → ¬ IsDue self.now now server) (IsLeastDue self.now now) }
        ensures within { IfSome result (λ server. server < length self.now.servers) }
    {
        for (i, server) in self.servers.iter().enumerate() {
            if server.is_due(now) {
                return Some(i as u32);
            }
        }
        None
    }

    /// The probe of a server begins.
    pub fn begin(&mut self, server: u32)
        requires { server < length self.old.servers }
        ensures began { self.new ≡ began self.old server }
        ensures count { length self.new.servers ≡ length self.old.servers }
        ensures verdicts { (marks : List Mark) → Follows marks self.old → Follows marks self.new }
    {
        self.servers[server as usize].begun = true;
    }

    /// The probe of a server ends with a verdict. It is due again an interval later, or at the clock's
    /// end where that is sooner.
    pub fn take(&mut self, server: u32, good: bool, now: u64)
        requires { server < length self.old.servers }
        ensures judged { self.new ≡ judged self.old server good now }
        ensures count { length self.new.servers ≡ length self.old.servers }
        ensures verdicts { (marks : List Mark) → Follows marks self.old →
            Follows (marks ++ record { server = server; good = good } ∷ []) self.new }
    {
        self.servers[server as usize] = Server {
            up: good,
            begun: false,
            due: now.saturating_add(self.interval),
        };
    }

    /// The servers that are up, one bit a server, the first one lowest.
    pub fn mask(&self) -> u64
        ensures mask { result ≡ up_mask self.now }
        ensures verdicts { (marks : List Mark) → Follows marks self.now →
            result ≡ mask_of (length self.now.servers) marks }
    {
        let mut mask = 0;
        for i in (0..self.servers.len()).rev() {
            mask = 2 * mask + u64::from(self.servers[i].up);
        }
        mask
    }
}

/// The law of the mask: whatever probes begin and end, it is that of their verdicts, in order. Its bit of
/// a server says whether the last of these verdicts is good, and no bit is set past the servers.
pub fn mask_law()
    ensures run { (count interval start : ℕ) (steps : List Step) →
        up_mask (fold after (fresh count interval start) steps) ≡ mask_of count (verdicts steps) }
    ensures bits { (count server : ℕ) (marks : List Mark) → server < count →
        (bit_at (mask_of count marks) server ≡ 1) ↔ IsTrue (last_verdict marks server) }
    ensures others { (count server : ℕ) (marks : List Mark) → count ≤ server →
        bit_at (mask_of count marks) server ≡ 0 }
{}
