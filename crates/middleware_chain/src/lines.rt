//! The lines of middlewares.
ghost use Rattle.std.specs.Prelude.{◌≡◌, ◌++◌, OnOk, OnErr};
ghost use Rattle.middleware_chain.specs.Lines.{fault_word as word_of_fault, lines_of, middleware_line, state_text};

use middleware_graph::{MiddlewareFault, State};
use px_base::{Bytes, Memory};
use std::alloc::Global;

/// Appends a line for each middleware: its name, and whether it can be used or the first reason against it. Where memory runs out the
/// text is as it was.
pub fn middleware_lines(
    alloc: Global,
    middlewares: &[(Bytes, State)],
    out: &mut Vec<u8>,
) -> Result<(), Memory>
    ensures ok { OnOk result (out.new.items ≡ out.old.items ++ lines_of middlewares.now) }
    ensures err { OnErr result (out.new.items ≡ out.old.items) }
{
    let mut text = Vec::new(alloc);
    push_lines(middlewares, &mut text)?;
    out.extend_from_slice(text.as_slice())
}

fn push_lines(middlewares: &[(Bytes, State)], out: &mut Vec<u8>) -> Result<(), Memory>
    ensures { OnOk result (out.new.items ≡ out.old.items ++ lines_of middlewares.now) }
{
    for middleware in middlewares {
        push_line(middleware, out)?;
    }
    Ok(())
}

#[tactic(auto, using(std::proofs::Common::append_assoc))]
fn push_line(middleware: &(Bytes, State), out: &mut Vec<u8>) -> Result<(), Memory>
    ensures { OnOk result (out.new.items ≡ out.old.items ++ middleware_line middleware.now) }
{
    out.extend_from_slice(b"middleware ")?;
    out.extend_from_slice(middleware.0.as_slice())?;
    push_state(middleware.1, out)
}

#[tactic(auto, using(std::proofs::Common::append_assoc))]
fn push_state(state: State, out: &mut Vec<u8>) -> Result<(), Memory>
    ensures { OnOk result (out.new.items ≡ out.old.items ++ state_text state) }
{
    match state {
        State::Enabled(_) => out.extend_from_slice(b" enabled\n"),
        State::Disabled(fault) => {
            out.extend_from_slice(b" disabled ")?;
            out.extend_from_slice(fault_word(fault))?;
            out.extend_from_slice(b"\n")
        }
    }
}

fn fault_word(fault: MiddlewareFault) -> &'static [u8]
    ensures { result.now ≡ word_of_fault fault }
{
    match fault {
        MiddlewareFault::Unsupported => b"Unsupported",
        MiddlewareFault::Value => b"Value",
        MiddlewareFault::TooManyPatterns => b"TooManyPatterns",
        MiddlewareFault::Syntax => b"Syntax",
        MiddlewareFault::TooBig => b"TooBig",
        MiddlewareFault::Missing => b"Missing",
        MiddlewareFault::Cycle => b"Cycle",
        MiddlewareFault::Child => b"Child",
        MiddlewareFault::TooDeep => b"TooDeep",
    }
}
