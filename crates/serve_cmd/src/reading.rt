//! What the first load is published as, and what is written of it.
ghost use Rattle.std.specs.Prelude.{◌≡◌, ◌≢◌, [], None, IfOk, IfSome, OnOk};
ghost use Rattle.generation.specs.Meaning.{plan_of};
ghost use Rattle.fault_text.specs.Files.{file_fault_text};
ghost use Rattle.serve_cmd.specs.Meanings.{Means, MeansBytes, MeansConfig, IsEmpty, fault_line};

use crate::loading::Found;
use crate::text::generation_text;
use dyn_config::Config;
use fault_text::push_file_fault;
use file_provider::{FileFault, read_file_config};
use generation::{Built, Generation, build_generation};
use provider_merge::{declares_nothing, merge_file};
use px_base::Memory;
use rule_eval::PatternShop;
use std::alloc::{AllocError, Global};

/// What is published first, and written: a generation and its text; or none, and a fault or nothing.
#[derive(Drop)]
pub(crate) struct Reading {
    pub generation: Option<Generation>,
    pub text: Vec<u8>,
}

/// The configuration without routers, under the number 0.
pub(crate) fn empty_generation(alloc: Global) -> Result<Generation, Memory>
    ensures { IfOk result (λ g. IsEmpty (plan_of g)) }
{
    Generation::empty(alloc, 0)
}

/// What the first load means.
pub(crate) fn read_found<S: PatternShop>(
    alloc: Global,
    found: &Found,
    shop: &mut S,
) -> Result<Reading, Memory>
    ensures means { IfOk result (λ reading. Means (S.refusals shop.old) (S.refusals shop.new) found.now reading.generation reading.text.items) }
    ensures number { IfOk result (λ reading. IfSome reading.generation (λ g. (plan_of g).number ≡ 1)) }
{
    match found {
        Found::NoFile => Ok(nothing(alloc)),
        Found::TooLong => fault(alloc, b"too long"),
        Found::Text(bytes) => read_bytes(alloc, bytes.as_slice(), shop),
    }
}

// Nothing is published and nothing written.
fn nothing(alloc: Global) -> Reading
    ensures generation { result.generation ≡ None }
    ensures text { result.text.items ≡ [] }
    ensures number { IfSome result.generation (λ g. (plan_of g).number ≡ 1) }
{
    Reading {
        generation: None,
        text: Vec::new(alloc),
    }
}

// The line of a fault is written.
fn fault(alloc: Global, fault: &[u8]) -> Result<Reading, Memory>
    ensures generation { IfOk result (λ reading. reading.generation ≡ None) }
    ensures text { IfOk result (λ reading. reading.text.items ≡ fault_line fault.now) }
    ensures number { IfOk result (λ reading. IfSome reading.generation (λ g. (plan_of g).number ≡ 1)) }
{
    let mut text = Vec::new(alloc);
    text.extend_from_slice(b"fault file ")?;
    text.extend_from_slice(fault)?;
    text.extend_from_slice(b"\n")?;
    Ok(Reading {
        generation: None,
        text,
    })
}

// What a file's bytes mean.
fn read_bytes<S: PatternShop>(alloc: Global, bytes: &[u8], shop: &mut S) -> Result<Reading, Memory>
    ensures means { IfOk result (λ reading. MeansBytes (S.refusals shop.old) (S.refusals shop.new) bytes.now reading.generation reading.text.items) }
    ensures number { IfOk result (λ reading. IfSome reading.generation (λ g. (plan_of g).number ≡ 1)) }
{
    match read_file_config(alloc, bytes) {
        Ok(config) => read_config(alloc, config, shop),
        Err(fault) => read_fault(alloc, &fault),
    }
}

// The line of a file's fault is written, but for want of memory.
fn read_fault(alloc: Global, found: &FileFault) -> Result<Reading, Memory>
    ensures apart { OnOk result (found.now ≢ FileFault.Memory) }
    ensures generation { IfOk result (λ reading. reading.generation ≡ None) }
    ensures text { IfOk result (λ reading. reading.text.items ≡ fault_line (file_fault_text found.now)) }
    ensures number { IfOk result (λ reading. IfSome reading.generation (λ g. (plan_of g).number ≡ 1)) }
{
    match found {
        FileFault::NotToml => write_fault(alloc, found),
        FileFault::Config(_) => write_fault(alloc, found),
        FileFault::Memory => Err(AllocError),
    }
}

fn write_fault(alloc: Global, found: &FileFault) -> Result<Reading, Memory>
    ensures generation { IfOk result (λ reading. reading.generation ≡ None) }
    ensures text { IfOk result (λ reading. reading.text.items ≡ fault_line (file_fault_text found.now)) }
    ensures number { IfOk result (λ reading. IfSome reading.generation (λ g. (plan_of g).number ≡ 1)) }
{
    let mut text = Vec::new(alloc);
    push_file_fault(found, &mut text)?;
    fault(alloc, text.as_slice())
}

// What a configuration means.
fn read_config<S: PatternShop>(
    alloc: Global,
    config: Config,
    shop: &mut S,
) -> Result<Reading, Memory>
    ensures means { IfOk result (λ reading. MeansConfig (S.refusals shop.old) (S.refusals shop.new) config reading.generation reading.text.items) }
    ensures number { IfOk result (λ reading. IfSome reading.generation (λ g. (plan_of g).number ≡ 1)) }
{
    if declares_nothing(&config) {
        return Ok(nothing(alloc));
    }
    let merged = merge_file(alloc, config)?;
    match build_generation(alloc, 1, &merged, shop)? {
        Built::Generation(generation) => {
            let text = generation_text(alloc, &merged, &generation)?;
            Ok(Reading {
                generation: Some(generation),
                text,
            })
        }
        Built::Later => fault(alloc, b"config Later"),
    }
}
