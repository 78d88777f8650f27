//! The machine of one client connection: how a request gets its configuration and its router.
ghost use Rattle.http_wire.specs.Own.{is_own_error};
ghost use Rattle.std.specs.Prelude.{IsTrue, ◌≡◌, ◌≤◌, ◌++◌, ◌∷◌, [], List, ℕ, None, Some, IfOk, OnOk, IfSome, is_some, take};
ghost use Rattle.std.specs.Arc.{arc_value};
ghost use Rattle.head_view.specs.Scans.{IsHeadWithin, AreHeadSpans};
ghost use Rattle.conversation.specs.Steps.{Step, pinned};
ghost use Rattle.conversation.specs.Asks.{query_bytes};
ghost use Rattle.generation.specs.Meaning.{plan_of, aim_of, IsEnabledAt};
ghost use Rattle.conn_machine.specs.Parts.{end_by, refused_status, FindsRow, IsRoute, IsAim, issue_plan};
ghost use Rattle.conn_machine.specs.Prompt.{IsPrompt};
ghost use Rattle.conn_machine.specs.Reached.{Reached, HasMemory, IsOpen, IsGoing, Waits, KeepsServer};

use crate::boxed::BoxedAim;
use crate::conn::Conn;
use crate::heads::USUAL_LINES;
use crate::own::own_text;
use crate::parts::{Aim, Asked, Current, Phase, Stage};
use generation::{Generation, Target};
use head_view::{EMPTY_HEADER_SPAN, HeadSpans, HeaderSpan, Scan, scan_request, view};
use http_wire::{Request, host_of_rules};
use ip_net::Ip;
use link_world::{Cause, EndCause, HeadName};
use px_base::{Bytes, Memory, Server};
use std::alloc::{AllocError, Global};
use std::sync::Arc;

/// What is made of a request before a server is looked for.
#[derive(Drop)]
pub enum Routed {
    Unknown,
    /// It is refused for this cause.
    Refused(Cause),
    /// No router wins it.
    Lost,
    /// The router in this row wins it, and leads there.
    Won(u32, BoxedAim),
}

impl Conn {
    /// The current request is answered by this configuration. Its pin is recorded whatever the answer.
    pub fn pin(&mut self, alloc: Global, issue: Arc<Generation, Global>) -> Result<(), Memory>
        requires waits { Waits Stage.Pin self.old }
        requires rises { self.old.current.number ≤ (plan_of (arc_value issue)).number }
        ensures client { self.new.client ≡ self.old.client }
        ensures going { OnOk result (IsGoing self.new.phase) }
        ensures prompt { OnOk result (IsPrompt self.new) }
        ensures number { self.new.current.number ≡ (plan_of (arc_value issue)).number }
        ensures server { KeepsServer self.old self.new }
        ensures reached { (steps : List Step) → Reached steps self.old
            → Reached (steps ++ pinned (plan_of (arc_value issue)) ∷ []) self.new }
    {
        self.begin(issue);
        self.route(alloc)
    }

    fn begin(&mut self, issue: Arc<Generation, Global>)
        requires waits { Waits Stage.Pin self.old }
        requires rises { self.old.current.number ≤ (plan_of (arc_value issue)).number }
        ensures client { self.new.client ≡ self.old.client }
        ensures waits { Waits Stage.Route self.new }
        ensures number { self.new.current.number ≡ (plan_of (arc_value issue)).number }
        ensures reached { (steps : List Step) → Reached steps self.old
            → Reached (steps ++ pinned (plan_of (arc_value issue)) ∷ []) self.new }
    {
        self.looks.clear();
        self.picks.clear();
        self.backs.clear();
        self.current.number = issue.number();
        self.current.issue = Some(issue);
        self.current.pinned = true;
        self.current.router = None;
        self.current.status = 0;
        self.current.cause = Cause::Undecided;
        self.stage = Stage::Route;
    }

    // Finds the router of the request, or answers it.
    fn route(&mut self, alloc: Global) -> Result<(), Memory>
        requires { Waits Stage.Route self.old }
        ensures client { self.new.client ≡ self.old.client }
        ensures going { OnOk result (IsGoing self.new.phase) }
        ensures prompt { OnOk result (IsPrompt self.new) }
        ensures number { self.new.current.number ≡ self.old.current.number }
        ensures server { ¬ (Waits Stage.Exchange self.new) }
        ensures reached { (steps : List Step) → Reached steps self.old → Reached steps self.new }
    {
        self.phase = Phase::Broken;
        let routed = find_route(
            alloc,
            &self.current,
            self.item(),
            self.client.entry.as_slice(),
            self.client.peer,
        )?;
        let close = end_after(&self.current).is_some();
        match routed {
            Routed::Unknown => return Err(AllocError),
            Routed::Refused(cause) => {
                let status = refused_status(cause);
                self.out.clear();
                self.sent = 0;
                own_text(alloc, status, close, &mut self.out)?;
                self.current.status = status;
                self.current.cause = cause;
                self.stage = Stage::Reply;
                self.phase = Phase::Open;
            }
            Routed::Lost => {
                self.out.clear();
                self.sent = 0;
                own_text(alloc, 404, close, &mut self.out)?;
                self.current.status = 404;
                self.current.cause = Cause::NoRouter;
                self.stage = Stage::Reply;
                self.phase = Phase::Open;
            }
            Routed::Won(row, aim) => {
                self.current.router = Some(row);
                self.current.aim = Some(aim);
                self.stage = Stage::Look;
                self.phase = Phase::Open;
            }
        }
        Ok(())
    }

    // The bytes of the current request.
    fn item(&self) -> &[u8]
        ensures { result.now ≡ take self.now.current.size self.now.input.items }
    {
        let input = self.input.as_slice();
        if self.current.size < input.len() {
            &input[..self.current.size]
        } else {
            input
        }
    }
}

// What is made of the request with these bytes by its configuration.
fn find_route(
    alloc: Global,
    current: &Current,
    item: &[u8],
    entry: &[u8],
    peer: Ip,
) -> Result<Routed, Memory>
    ensures { IfOk result (IsRoute entry.now peer item.now current.now.asked (issue_plan current.now.issue)) }
{
    match &current.asked {
        Asked::Nothing => Ok(Routed::Unknown),
        Asked::Refused(cause) => Ok(Routed::Refused(*cause)),
        Asked::Request(request) => match &current.issue {
            None => Ok(Routed::Unknown),
            Some(issue) => match find_row(alloc, issue, request.get(), item, entry, peer)? {
                Some(row) => match issue.target(row) {
                    Some(target) => Ok(Routed::Won(row, aim_at(alloc, target)?)),
                    // A winner is enabled.
                    None => unreachable!(),
                },
                None => Ok(Routed::Lost),
            },
        },
    }
}

// The row of the router that the configuration gives to the request with these bytes, by its head as it was received.
// Bytes that are no head don't come here.
fn find_row(
    alloc: Global,
    issue: &Generation,
    request: &Request,
    item: &[u8],
    entry: &[u8],
    peer: Ip,
) -> Result<Option<u32>, Memory>
    ensures row { IfOk result (FindsRow (plan_of issue.now) item.now entry.now peer request.now) }
    ensures enabled { IfOk result (λ won. IfSome won (IsEnabledAt (plan_of issue.now).rows)) }
{
    let mut room = [EMPTY_HEADER_SPAN; USUAL_LINES];
    match scan_request(item, &mut room) {
        Scan::Whole(spans) => row_of(alloc, issue, request, item, &room, &spans, entry, peer),
        _ => find_any_row(alloc, issue, request, item, entry, peer),
    }
}

// The row, with room for as many lines as a head may have.
fn find_any_row(
    alloc: Global,
    issue: &Generation,
    request: &Request,
    item: &[u8],
    entry: &[u8],
    peer: Ip,
) -> Result<Option<u32>, Memory>
    ensures row { IfOk result (FindsRow (plan_of issue.now) item.now entry.now peer request.now) }
    ensures enabled { IfOk result (λ won. IfSome won (IsEnabledAt (plan_of issue.now).rows)) }
{
    let mut room = [EMPTY_HEADER_SPAN; 100];
    match scan_request(item, &mut room) {
        Scan::Whole(spans) => row_of(alloc, issue, request, item, &room, &spans, entry, peer),
        _ => Err(AllocError),
    }
}

// The row, by the head that a scan found.
fn row_of(
    alloc: Global,
    issue: &Generation,
    request: &Request,
    item: &[u8],
    room: &[HeaderSpan],
    spans: &HeadSpans,
    entry: &[u8],
    peer: Ip,
) -> Result<Option<u32>, Memory>
    requires within { IsHeadWithin item.now room.now spans.now }
    requires head { AreHeadSpans 100 item.now room.now spans.now }
    ensures row { IfOk result (FindsRow (plan_of issue.now) item.now entry.now peer request.now) }
    ensures enabled { IfOk result (λ won. IfSome won (IsEnabledAt (plan_of issue.now).rows)) }
{
    let host = host_of_rules(request.host.as_slice());
    let path = request.path.as_slice();
    let view = view(item, room, spans, host, path, query_of(request));
    issue.winner(alloc, entry, &view, peer)
}

// The query's bytes, which a target without one hasn't got.
fn query_of(request: &Request) -> &[u8]
    ensures { result.now ≡ query_bytes request.now.query }
{
    match &request.query {
        Some(query) => query.as_slice(),
        None => &[],
    }
}

fn aim_at(alloc: Global, target: &Target) -> Result<BoxedAim, Memory>
    ensures { IfOk result (λ a. IsAim a (aim_of target.now)) }
{
    let host = Bytes::from_slice(alloc, target.host.as_slice())?;
    let server = Server {
        host,
        port: target.port,
        weight: 1,
    };
    let aim = Aim {
        node: target.node,
        server,
        pass_host: target.pass_host,
    };
    BoxedAim::new(alloc, aim)
}

/// Why the connection ends after the reply to the current request.
pub(crate) fn end_after(current: &Current) -> Option<EndCause>
    ensures end { result ≡ end_by current.now.index current.now.asked }
    ensures memory { IfSome result HasMemory }
{
    match &current.asked {
        Asked::Request(request) => {
            if !request.get().keep {
                Some(EndCause::Asked)
            } else if current.index >= 1000 {
                Some(EndCause::Count)
            } else {
                None
            }
        }
        Asked::Refused(_) => Some(EndCause::Refused),
        Asked::Nothing => Some(EndCause::Refused),
    }
}

// The status of a refusal.
fn refused_status(cause: Cause) -> u16
    ensures status { result ≡ refused_status cause }
    ensures known { IsTrue (is_own_error result) }
{
    match cause {
        Cause::Head(HeadName::BadCoding) => 501,
        Cause::HeadTooLarge => 431,
        _ => 400,
    }
}
