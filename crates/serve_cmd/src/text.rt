//! The text of a generation.
ghost use Rattle.std.specs.Prelude.{IfOk};
ghost use Rattle.serve_cmd.specs.Texts.{IsGenerationText};

use dyn_config::Merged;
use generation::Generation;
use generation_text::{push_rows, services_text};
use px_base::{Memory, print_decimal};
use std::alloc::Global;

/// The text of a generation of this configuration.
pub(crate) fn generation_text(
    alloc: Global,
    merged: &Merged,
    generation: &Generation,
) -> Result<Vec<u8>, Memory>
    ensures { IfOk result (λ text. IsGenerationText merged.now generation.now text.items) }
{
    let services = services_text(alloc, merged.services.as_slice())?;
    let mut text = Vec::new(alloc);
    text.extend_from_slice(b"generation ")?;
    print_decimal(generation.number(), &mut text)?;
    text.extend_from_slice(b"\n")?;
    push_rows(alloc, generation.rows(), &mut text)?;
    text.extend_from_slice(services.as_slice())?;
    text.extend_from_slice(b"end\n")?;
    Ok(text)
}
