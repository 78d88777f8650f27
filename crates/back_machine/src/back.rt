//! One exchange.
ghost use Rattle.std.specs.Prelude.{◌≡◌, ℕ, ◌+◌, ◌-◌, ◌≤◌, min, Bool, true, false, List, [], ◌++◌, length, take, drop, IfOk};
ghost use Rattle.std.specs.Option.{option_copied};
ghost use Rattle.back_machine.specs.Forwarding.{forwarded, authority_of};
ghost use Rattle.back_machine.specs.Exchanges.{IsOpen, broken_by, with_left, Exchanged};

use crate::content::{Content, content_from};
use crate::reading::{Found, length_of, read_on};
use crate::state::{BackCause, BackState};
use http_wire::{Reply, Request, request_head};
use px_base::{Bytes, Memory, Server, print_decimal};
use std::alloc::Global;
use std::marker::Model;

/// One exchange with a backend.
#[derive(Drop)]
pub struct Back {
    method: Bytes,
    pending: Vec<u8>,
    head: Vec<u8>,
    reply: Option<Reply>,
    left: usize,
    state: BackState,
}

impl Model for Back {
    ghost use Rattle.back_machine.specs.Exchanges.{BackView};

    ghost Value = { BackView };

    ghost view = { λ b. record { method = b.method; pending = b.pending.items; head = b.head.items; reply = b.reply; left = b.left; state = b.state } };
}

impl Back {
    /// An exchange on a link that took and gave nothing yet: the head of this request is to be sent, with
    /// `Connection: close`. `Host` is the request's host text where `pass_host` is set, else the server's authority.
    pub fn new(
        alloc: Global,
        request: &Request,
        server: &Server,
        pass_host: bool,
    ) -> Result<Back, Memory>
        ensures waiting { IfOk result (λ b. b.state ≡ BackState.Waiting) }
        ensures pending { IfOk result (λ b. b.pending ≡ forwarded request.now server.now pass_host) }
        ensures reached { IfOk result
            (Exchanged (forwarded request.now server.now pass_host) request.now.method [] [] [] false false) }
    {
        let method = Bytes::from_slice(alloc, request.method.as_slice())?;
        let pending = forwarded(alloc, request, server, pass_host)?;
        Ok(Back {
            method,
            pending,
            head: Vec::new(alloc),
            reply: None,
            left: 0,
            state: BackState::Waiting,
        })
    }

    /// The part of the request that the link hasn't taken yet.
    pub fn pending(&self) -> &[u8]
        ensures { result.now ≡ self.now.pending }
    {
        self.pending.as_slice()
    }

    pub fn state(&self) -> BackState
        ensures { result ≡ self.now.state }
    {
        self.state
    }

    /// The head of the reply, once it is whole.
    pub fn reply(&self) -> Option<&Reply>
        ensures { option_copied result ≡ self.now.reply }
    {
        self.reply.as_ref()
    }

    /// The link took the first `n` bytes that were pending.
    pub fn took(&mut self, n: usize)
        requires { n ≤ length self.old.pending }
        ensures value { self.new ≡ record self.old { pending = drop n self.old.pending } }
        ensures reached { (message method took gave content : List ℕ) (ended failed : Bool) →
            Exchanged message method took gave content ended failed self.old →
            Exchanged message method (took ++ take n self.old.pending) gave content ended failed self.new }
    {
        if n >= self.pending.len() {
            self.pending.clear();
        } else {
            self.pending.drain(..n);
        }
    }

    /// The link gave a piece. The answer says which of its bytes are content of the reply, whose head is whole by then.
    ///
    /// A head that stands in one piece isn't copied, and content never is. What follows the content isn't looked at.
    /// Where memory runs out, the reply is lost.
    pub fn bytes(&mut self, alloc: Global, piece: &[u8]) -> Result<Content, Memory>
        requires { IsOpen self.old.state }
        ensures pending { self.new.pending ≡ self.old.pending }
        ensures within { IfOk result (λ content. content.from + content.len ≤ length piece.now) }
        ensures reached { (message method took gave content : List ℕ) →
            Exchanged message method took gave content false false self.old →
            IfOk result (λ fresh. Exchanged message method took (gave ++ piece.now)
            (content ++ take fresh.len (drop fresh.from piece.now)) false false self.new) }
    {
        if let BackState::HeadRead = self.state {
            return Ok(self.take_content(piece, 0));
        }
        let had = self.head.as_slice().len();
        match read_on(alloc, &mut self.head, piece, self.method.as_slice())? {
            Found::Head { reply, end } => {
                self.left = length_of(reply.framing);
                self.reply = Some(reply);
                Ok(self.take_content(piece, end.saturating_sub(had)))
            }
            Found::Part => Ok(Content { from: 0, len: 0 }),
            Found::Bad => {
                self.state = BackState::Broken(BackCause::Bad);
                Ok(Content { from: 0, len: 0 })
            }
        }
    }

    // Takes the content in a piece of which the first bytes are of the head.
    fn take_content(&mut self, piece: &[u8], from: usize) -> Content
        requires { from ≤ length piece.now }
        ensures from { result.from ≡ from }
        ensures len { result.len ≡ min self.old.left (length piece.now - from) }
        ensures value { self.new ≡
            with_left self.old (self.old.left - min self.old.left (length piece.now - from)) }
    {
        let content = content_from(from, piece, self.left);
        self.left -= content.len;
        self.state = if self.left == 0 {
            BackState::Done
        } else {
            BackState::HeadRead
        };
        content
    }

    /// The link gave its end.
    pub fn end(&mut self)
        ensures value { self.new ≡ record self.old { state = broken_by BackCause.Ended self.old.state } }
        ensures reached { (message method took gave content : List ℕ) (ended failed : Bool) →
            Exchanged message method took gave content ended failed self.old →
            Exchanged message method took gave content true failed self.new }
    {
        self.state = self.state.broken_by(BackCause::Ended);
    }

    /// The link failed.
    pub fn failed(&mut self)
        ensures value { self.new ≡ record self.old { state = broken_by BackCause.Failed self.old.state } }
        ensures reached { (message method took gave content : List ℕ) (ended failed : Bool) →
            Exchanged message method took gave content ended failed self.old →
            Exchanged message method took gave content ended true self.new }
    {
        self.state = self.state.broken_by(BackCause::Failed);
    }
}

// The head that goes to the server.
fn forwarded(
    alloc: Global,
    request: &Request,
    server: &Server,
    pass_host: bool,
) -> Result<Vec<u8>, Memory>
    ensures { IfOk result (λ text. text.items ≡ forwarded request.now server.now pass_host) }
{
    if pass_host {
        return request_head(alloc, request, &[], pass_host);
    }
    let authority = authority(alloc, server)?;
    request_head(alloc, request, &authority, pass_host)
}

// The server's authority: its host, and its port unless it is that of the scheme.
fn authority(alloc: Global, server: &Server) -> Result<Vec<u8>, Memory>
    ensures { IfOk result (λ text. text.items ≡ authority_of server.now) }
{
    let mut text = Vec::new(alloc);
    text.extend_from_slice(server.host.as_slice())?;
    if server.port != 80 {
        text.extend_from_slice(b":")?;
        print_decimal(server.port as u64, &mut text)?;
    }
    Ok(text)
}
