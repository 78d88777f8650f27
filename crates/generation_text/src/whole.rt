//! The whole text.
ghost use Rattle.std.specs.Prelude.{◌≡◌, ◌++◌, OnOk, OnErr};
ghost use Rattle.generation_text.specs.Generation.{generation_text as whole_text, number_line};

use crate::graph::push_services;
use crate::rows::push_rows;
use middleware_chain::{middleware_lines, states};
use px_base::{Memory, print_decimal};
use runtime_config::RuntimeConfig;
use std::alloc::Global;

/// Appends the text of a configuration as it runs under this number: `generation <n>`, the lines of its routers, of its services
/// with their servers and of its middlewares, each by name, and `end`. Where memory runs out `out` is as it was.
pub fn generation_text(
    alloc: Global,
    number: u64,
    config: &RuntimeConfig,
    out: &mut Vec<u8>,
) -> Result<(), Memory>
    ensures ok { OnOk result (out.new.items ≡ out.old.items ++ whole_text number config.now) }
    ensures err { OnErr result (out.new.items ≡ out.old.items) }
{
    let mut text = Vec::new(alloc);
    push_number(number, &mut text)?;
    push_rows(alloc, config.rows(), &mut text)?;
    push_services(
        config.merged().services.as_slice(),
        config.graph(),
        &mut text,
    )?;
    middleware_lines(alloc, states(config.chains()), &mut text)?;
    text.extend_from_slice(b"end\n")?;
    out.extend_from_slice(text.as_slice())
}

#[tactic(auto, using(std::proofs::Common::append_assoc))]
fn push_number(number: u64, text: &mut Vec<u8>) -> Result<(), Memory>
    ensures { OnOk result (text.new.items ≡ text.old.items ++ number_line number) }
{
    text.extend_from_slice(b"generation ")?;
    print_decimal(number, text)?;
    text.extend_from_slice(b"\n")
}
