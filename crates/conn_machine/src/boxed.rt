//! A request, where it goes, and its exchange, each in a block of its own: a connection that waits for its next request
//! has no room for any of them.
ghost use Rattle.std.specs.Prelude.{◌≡◌, ◌≤◌, ◌+◌, ◌++◌, [], List, ℕ, Bool, true, false, IfOk, length, take, drop};
ghost use Rattle.back_machine.specs.Exchanges.{Exchanged, IsOpen, broken_by};

use crate::parts::Aim;
use back_machine::{Back, BackCause, Content};
use http_wire::Request;
use px_base::Memory;
use std::alloc::Global;
use std::marker::Model;

/// A request.
#[derive(Drop)]
pub struct BoxedRequest {
    request: Box<Request>,
}

impl Model for BoxedRequest {
    ghost use Rattle.http_wire.specs.declared.message.Request.{Request as HttpRequest};

    ghost Value = { HttpRequest };

    ghost view = { λ b. b.request.value };
}

impl BoxedRequest {
    pub fn new(alloc: Global, request: Request) -> Result<BoxedRequest, Memory>
        ensures { IfOk result (λ b. b ≡ request) }
    {
        let request = Box::new(alloc, request)?;
        Ok(BoxedRequest { request })
    }

    pub fn get(&self) -> &Request
        ensures { result.now ≡ self.now }
    {
        self.request.as_ref()
    }
}

/// Where a request goes.
#[derive(Drop)]
pub struct BoxedAim {
    aim: Box<Aim>,
}

impl Model for BoxedAim {
    ghost use Rattle.conn_machine.specs.declared.parts.Aim.{Aim as AimView};

    ghost Value = { AimView };

    ghost view = { λ b. b.aim.value };
}

impl BoxedAim {
    pub fn new(alloc: Global, aim: Aim) -> Result<BoxedAim, Memory>
        ensures { IfOk result (λ b. b ≡ aim) }
    {
        let aim = Box::new(alloc, aim)?;
        Ok(BoxedAim { aim })
    }

    pub fn get(&self) -> &Aim
        ensures { result.now ≡ self.now }
    {
        self.aim.as_ref()
    }
}

/// An exchange with a server.
#[derive(Drop)]
pub struct BoxedBack {
    back: Box<Back>,
}

impl Model for BoxedBack {
    ghost use Rattle.back_machine.specs.Exchanges.{BackView};

    ghost Value = { BackView };

    ghost view = { λ b. b.back.value };
}

impl BoxedBack {
    pub fn new(alloc: Global, back: Back) -> Result<BoxedBack, Memory>
        ensures { IfOk result (λ b. b ≡ back) }
    {
        let back = Box::new(alloc, back)?;
        Ok(BoxedBack { back })
    }

    pub fn get(&self) -> &Back
        ensures { result.now ≡ self.now }
    {
        self.back.as_ref()
    }

    /// The link took the first `n` bytes that were pending.
    pub fn took(&mut self, n: usize)
        requires { n ≤ length self.old.pending }
        ensures value { self.new ≡ record self.old { pending = drop n self.old.pending } }
        ensures reached { (message method took gave content : List ℕ) (ended failed : Bool) →
            Exchanged message method took gave content ended failed self.old →
            Exchanged message method (took ++ take n self.old.pending) gave content ended failed self.new }
    {
        self.back.took(n);
    }

    /// The link gave a piece.
    pub fn bytes(&mut self, alloc: Global, piece: &[u8]) -> Result<Content, Memory>
        requires { IsOpen self.old.state }
        ensures pending { self.new.pending ≡ self.old.pending }
        ensures within { IfOk result (λ content. content.from + content.len ≤ length piece.now) }
        ensures reached { (message method took gave content : List ℕ) →
            Exchanged message method took gave content false false self.old →
            IfOk result (λ fresh. Exchanged message method took (gave ++ piece.now)
            (content ++ take fresh.len (drop fresh.from piece.now)) false false self.new) }
    {
        self.back.bytes(alloc, piece)
    }

    /// The link gave its end.
    pub fn end(&mut self)
        ensures value { self.new ≡ record self.old { state = broken_by BackCause.Ended self.old.state } }
        ensures reached { (message method took gave content : List ℕ) (ended failed : Bool) →
            Exchanged message method took gave content ended failed self.old →
            Exchanged message method took gave content true failed self.new }
    {
        self.back.end();
    }

    /// The link failed.
    pub fn failed(&mut self)
        ensures value { self.new ≡ record self.old { state = broken_by BackCause.Failed self.old.state } }
        ensures reached { (message method took gave content : List ℕ) (ended failed : Bool) →
            Exchanged message method took gave content ended failed self.old →
            Exchanged message method took gave content ended true self.new }
    {
        self.back.failed();
    }
}
