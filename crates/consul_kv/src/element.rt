// The elements of a reply.
ghost use Rattle.std.specs.Prelude.{◌≡◌, ◌++◌, ◌∷◌, [], List, map, MatchResult, OnOk, Ok, Err, Some, option_map};
ghost use Rattle.serde_json.specs.View.{view as data_of};
ghost use Rattle.consul_kv.specs.Keys.{counted, Pair as PairOf};
ghost use Rattle.consul_kv.specs.Elements.{key_in, IsValueRead, IsDecodedAs, IsElementRead, ArePairsOf, IsFaultOf, IsFaultAt};
ghost use Rattle.consul_kv.specs.Pairs.{pair_view, read_view};
ghost use Rattle.consul_kv.specs.declared.element.ElementFault.TheVariants.{Memory as WantsMemory};

use crate::keys::is_counted;
use base64::DecodeAllocError;
use base64::engine::general_purpose::STANDARD;
use px_base::{Bytes, Memory};
use serde_json::Value;
use std::alloc::Global;

/// A key and its value.
#[derive(Drop)]
pub(crate) struct Pair<'a> {
    pub(crate) key: &'a [u8],
    pub(crate) value: Bytes,
}

/// Why an element gives no pair.
#[derive(Clone, Copy, Debug, PartialEq, Eq)]
pub(crate) enum ElementFault {
    Shape,
    NotBase64,
    NotText,
    Memory,
}

impl From<Memory> for ElementFault {
    ghost from_gives = { λ _ e. e ≡ WantsMemory };

    fn from(_: Memory) -> ElementFault {
        ElementFault::Memory
    }
}

/// The pairs below the root, or the first element with a fault.
pub(crate) fn read_pairs<'a>(
    alloc: Global,
    elements: &'a [Value],
    root: &[u8],
) -> Result<Vec<Pair<'a>>, (usize, ElementFault)>
    ensures { MatchResult result
        (λ pairs. (all : List PairOf) × ArePairsOf (map data_of elements.now) all × (map pair_view pairs.items ≡ counted root.now all))
        (λ fault. IsFaultAt (map data_of elements.now) fault.0 fault.1) }
{
    let mut pairs = Vec::new(alloc);
    for (at, element) in elements.iter().enumerate() {
        match take_element(alloc, element, root, &mut pairs) {
            Ok(()) => {}
            Err(ElementFault::Shape) => return Err((at, ElementFault::Shape)),
            Err(ElementFault::NotBase64) => return Err((at, ElementFault::NotBase64)),
            Err(ElementFault::NotText) => return Err((at, ElementFault::NotText)),
            Err(ElementFault::Memory) => return Err((at, ElementFault::Memory)),
        }
    }
    Ok(pairs)
}

// Adds the pair that an element gives, where it counts.
fn take_element<'a>(
    alloc: Global,
    element: &'a Value,
    root: &[u8],
    pairs: &mut Vec<Pair<'a>>,
) -> Result<(), ElementFault>
    ensures { MatchResult result
        (λ done. (pair : PairOf) × IsElementRead (data_of element.now) (Ok pair)
        × (map pair_view pairs.new.items ≡ map pair_view pairs.old.items ++ counted root.now (pair ∷ [])))
        (IsFaultOf (data_of element.now)) }
{
    match read_element(alloc, element) {
        Ok(pair) => match push_counted(root, pair, pairs) {
            Ok(()) => Ok(()),
            Err(_) => Err(ElementFault::Memory),
        },
        Err(ElementFault::Shape) => Err(ElementFault::Shape),
        Err(ElementFault::NotBase64) => Err(ElementFault::NotBase64),
        Err(ElementFault::NotText) => Err(ElementFault::NotText),
        Err(ElementFault::Memory) => Err(ElementFault::Memory),
    }
}

fn push_counted<'a>(root: &[u8], pair: Pair<'a>, pairs: &mut Vec<Pair<'a>>) -> Result<(), Memory>
    ensures { OnOk result (map pair_view pairs.new.items ≡ map pair_view pairs.old.items ++ counted root.now (pair_view pair.entry ∷ [])) }
{
    if is_counted(root, pair.key) {
        pairs.push(pair)?;
    }
    Ok(())
}

/// The pair that an element gives.
pub(crate) fn read_element<'a>(alloc: Global, element: &'a Value) -> Result<Pair<'a>, ElementFault>
    ensures { IsElementRead (data_of element.now) (read_view result) }
{
    let Some(key) = key_of(element) else {
        return Err(ElementFault::Shape);
    };
    let value = read_value(alloc, element.get("Value"))?;
    Ok(Pair { key, value })
}

/// The text under `Key`.
pub(crate) fn key_of<'a>(element: &'a Value) -> Option<&'a [u8]>
    ensures { option_map (λ key. key.now) result ≡ key_in (data_of element.now) }
{
    Some(element.get("Key")?.as_str()?.as_bytes())
}

fn read_value(alloc: Global, value: Option<&Value>) -> Result<Bytes, ElementFault>
    ensures { IsValueRead (option_map (λ v. data_of v.now) value.entry) result }
{
    match value {
        None => Err(ElementFault::Shape),
        Some(value) => read_text_or_null(alloc, value),
    }
}

fn read_text_or_null(alloc: Global, value: &Value) -> Result<Bytes, ElementFault>
    ensures { IsValueRead (Some (data_of value.now)) result }
{
    match value {
        Value::Null => Ok(Bytes::new(alloc)),
        Value::String(base) => read_base64(alloc, base.as_bytes()),
        Value::Bool(_) => Err(ElementFault::Shape),
        Value::Number(_) => Err(ElementFault::Shape),
        Value::Array(_) => Err(ElementFault::Shape),
        Value::Object(_) => Err(ElementFault::Shape),
    }
}

fn read_base64(alloc: Global, base: &[u8]) -> Result<Bytes, ElementFault>
    ensures { IsDecodedAs base.now result }
{
    match STANDARD.decode(alloc, base) {
        Ok(bytes) => match std::str::from_utf8(bytes.as_slice()) {
            Ok(_) => Ok(Bytes::from_vec(bytes)),
            Err(_) => Err(ElementFault::NotText),
        },
        Err(DecodeAllocError::DecodeError(_)) => Err(ElementFault::NotBase64),
        Err(DecodeAllocError::OutOfMemory) => Err(ElementFault::Memory),
    }
}
