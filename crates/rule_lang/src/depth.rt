//! How deep the calls of a rule stand.
ghost use Rattle.std.specs.Prelude.{◌≡◌, ◌<◌, ◌+◌, ◌^◌, IfOk, OnOk};
ghost use Rattle.rule_lang.specs.Forms.{Form, IsRule, form_depth};
ghost use Rattle.rule_lang.specs.Depths.{depth_step, depth_opened, depth_closed};
ghost use Rattle.rule_lang.specs.Gauges.{depths_of};

use crate::{Token, TokenKind};
use px_base::Memory;
use std::alloc::Global;

// The depth at a token.
#[derive(Drop)]
pub(crate) struct Gauge {
    in_call: bool,
    here: usize,
    // The depth of the group around, and those of the groups outside, the innermost last.
    base: usize,
    bases: Vec<usize>,
    // The greatest depth of a call so far.
    deepest: usize,
}

// The depth of a rule.
pub(crate) fn deepest(alloc: Global, tokens: &[Token]) -> Result<usize, Memory>
    ensures { IfOk result (λ n. (f : Form) → IsRule tokens.now f → n ≡ form_depth f) }
{
    let mut gauge = Gauge {
        in_call: false,
        here: 0,
        base: 0,
        bases: Vec::new(alloc),
        deepest: 0,
    };
    for token in tokens {
        measure(&mut gauge, token.kind)?;
    }
    Ok(gauge.deepest)
}

fn measure(gauge: &mut Gauge, kind: TokenKind) -> Result<(), Memory>
    requires { gauge.old.here + 1 < 2 ^ 64 }
    ensures { OnOk result (depths_of gauge.new ≡ depth_step (depths_of gauge.old) kind) }
{
    match kind {
        TokenKind::Not => {
            gauge.here += 1;
            Ok(())
        }
        TokenKind::Name => {
            gauge.in_call = true;
            gauge.deepest = gauge.deepest.max(gauge.here);
            Ok(())
        }
        TokenKind::Open => measure_open(gauge),
        TokenKind::Close => {
            measure_close(gauge);
            Ok(())
        }
        TokenKind::Or | TokenKind::And | TokenKind::Comma | TokenKind::Raw | TokenKind::Quoted =>
            Ok(()),
    }
}

fn measure_open(gauge: &mut Gauge) -> Result<(), Memory>
    requires { gauge.old.here + 1 < 2 ^ 64 }
    ensures { OnOk result (depths_of gauge.new ≡ depth_opened gauge.old.in_call (depths_of gauge.old)) }
{
    if gauge.in_call {
        return Ok(());
    }
    gauge.bases.push(gauge.base)?;
    gauge.here += 1;
    gauge.base = gauge.here;
    Ok(())
}

fn measure_close(gauge: &mut Gauge)
    ensures { depths_of gauge.new ≡ depth_closed gauge.old.in_call (depths_of gauge.old) }
{
    if gauge.in_call {
        gauge.in_call = false;
    } else if let Some(base) = gauge.bases.pop() {
        gauge.base = base;
    }
    gauge.here = gauge.base;
}
