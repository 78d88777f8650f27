// Configurations out of replies.
ghost use Rattle.std.specs.Prelude.{◌≡◌, None, map, IfOk};
ghost use Rattle.serde_json.specs.View.{view as data_of};
ghost use Rattle.consul_kv.specs.Keys.{HasNoClash, AreBelow};
ghost use Rattle.consul_kv.specs.Sorted.{AreKeysSorted};
ghost use Rattle.consul_kv.specs.Pairs.{pair_view};
ghost use Rattle.consul_kv.specs.Rises.{cut};
ghost use Rattle.consul_kv.specs.Grown.{paths_of};
ghost use Rattle.consul_kv.specs.Reply.{IsReadKv, IsReplyRead, IsListRead, AreKeysRead, IsTableOf, IsTreeRead};
ghost use Rattle.consul_kv.specs.declared.config.KvFault.TheVariants.{Memory as WantsMemory};

use crate::clash::{behind, first_clash};
use crate::depth::deep_place;
use crate::element::{ElementFault, Pair, read_pairs};
use crate::grow::{Leaf, table_of};
use crate::keys::key_order;
use dyn_config::{Config, ConfigFault, decode};
use field_tree::{Style, Tree};
use px_base::{Bytes, Memory};
use serde_json::Value;
use std::alloc::Global;

/// Why a reply is no configuration.
#[derive(Debug, Drop)]
pub enum KvFault {
    /// It is no JSON text. Nesting over 127 is none.
    NotJson,
    /// The element at this place, from 0 on, is no object with a text `Key` and a `Value` that is a text or null; 0 also where
    /// the whole is no array. Or, where no key clashes, it is the first whose key counts and has more than 255 slashes below the
    /// root, so that building and dropping the tree never goes deeper. No key of the schema has so many.
    Shape { at: usize },
    /// The value at this place is no padded base64 of the standard alphabet.
    NotBase64 { at: usize },
    /// The value at this place isn't UTF-8.
    NotText { at: usize },
    /// The first key by bytes that has an empty part, occurs twice or is the parent of another key.
    Clash { key: Bytes },
    /// The keys are no configuration; never because memory ran out.
    Config(ConfigFault),
    Memory,
}

impl From<Memory> for KvFault {
    ghost from_gives = { λ _ e. e ≡ WantsMemory };

    fn from(_: Memory) -> KvFault {
        KvFault::Memory
    }
}

/// The configuration that an agent's reply is for the keys below a root. The first fault counts: of the whole, of the
/// elements in order, wherever their keys stand, of the keys, of the configuration.
pub fn read_kv(alloc: Global, bytes: &[u8], root: &str) -> Result<Config, KvFault>
    ensures { IsReadKv bytes.now root.now result }
{
    match Value::from_slice(alloc, bytes) {
        Ok(reply) => read_reply(alloc, &reply, root.as_bytes()),
        Err(error) => {
            if error.is_memory() {
                Err(KvFault::Memory)
            } else {
                Err(KvFault::NotJson)
            }
        }
    }
}

fn read_reply(alloc: Global, reply: &Value, root: &[u8]) -> Result<Config, KvFault>
    ensures { IsReplyRead (data_of reply.now) root.now result }
{
    match reply.as_array() {
        Some(elements) => read_elements(alloc, elements.as_slice(), root),
        None => Err(KvFault::Shape { at: 0 }),
    }
}

fn read_elements(alloc: Global, elements: &[Value], root: &[u8]) -> Result<Config, KvFault>
    ensures { IsListRead (map data_of elements.now) root.now result }
{
    match read_pairs(alloc, elements, root) {
        Ok(pairs) => read_keys(alloc, pairs, root, deep_place(elements, root)),
        Err((at, ElementFault::Shape)) => Err(KvFault::Shape { at }),
        Err((at, ElementFault::NotBase64)) => Err(KvFault::NotBase64 { at }),
        Err((at, ElementFault::NotText)) => Err(KvFault::NotText { at }),
        Err((_, ElementFault::Memory)) => Err(KvFault::Memory),
    }
}

fn read_keys(
    alloc: Global,
    pairs: Vec<Pair<'_>>,
    root: &[u8],
    deep: Option<usize>,
) -> Result<Config, KvFault>
    requires { AreBelow root.now (map pair_view pairs.items) }
    ensures { AreKeysRead (map pair_view pairs.entry.items) root.now deep result }
{
    let mut pairs = pairs;
    pairs.sort_by(|a, b| key_order(a.key, b.key))?;
    read_sorted(alloc, pairs.as_slice(), root, deep)
}

fn read_sorted(
    alloc: Global,
    pairs: &[Pair<'_>],
    root: &[u8],
    deep: Option<usize>,
) -> Result<Config, KvFault>
    requires below { AreBelow root.now (map pair_view pairs.now) }
    requires sorted { AreKeysSorted (map pair_view pairs.now) }
    ensures { AreKeysRead (map pair_view pairs.now) root.now deep result }
{
    match first_clash(root, pairs) {
        Some(clash) => {
            let key = Bytes::from_slice(alloc, clash)?;
            Err(KvFault::Clash { key })
        }
        None => read_apart(alloc, pairs, root, deep),
    }
}

// Reads pairs of which none clash, where this is the first element with too many slashes.
fn read_apart(
    alloc: Global,
    pairs: &[Pair<'_>],
    root: &[u8],
    deep: Option<usize>,
) -> Result<Config, KvFault>
    requires below { AreBelow root.now (map pair_view pairs.now) }
    requires sorted { AreKeysSorted (map pair_view pairs.now) }
    requires apart { HasNoClash root.now (map pair_view pairs.now) }
    ensures { AreKeysRead (map pair_view pairs.now) root.now deep result }
{
    match deep {
        Some(at) => Err(KvFault::Shape { at }),
        None => read_shallow(alloc, pairs, root),
    }
}

fn read_shallow(alloc: Global, pairs: &[Pair<'_>], root: &[u8]) -> Result<Config, KvFault>
    requires below { AreBelow root.now (map pair_view pairs.now) }
    requires sorted { AreKeysSorted (map pair_view pairs.now) }
    requires apart { HasNoClash root.now (map pair_view pairs.now) }
    ensures { AreKeysRead (map pair_view pairs.now) root.now None result }
{
    let tree = tree_of(alloc, pairs, root)?;
    decode_texts(alloc, &tree)
}

fn tree_of(alloc: Global, pairs: &[Pair<'_>], root: &[u8]) -> Result<Tree, Memory>
    requires below { AreBelow root.now (map pair_view pairs.now) }
    requires sorted { AreKeysSorted (map pair_view pairs.now) }
    requires apart { HasNoClash root.now (map pair_view pairs.now) }
    ensures { IfOk result (λ tree. IsTableOf root.now (map pair_view pairs.now) tree) }
{
    let leaves = leaves_of(alloc, pairs, root.len() + 1)?;
    let fields = table_of(alloc, leaves.as_slice())?;
    Ok(Tree::Table(fields))
}

fn leaves_of<'a>(alloc: Global, pairs: &'a [Pair<'_>], len: usize) -> Result<Vec<Leaf<'a>>, Memory>
    ensures { IfOk result (λ leaves. paths_of leaves.items ≡ map (cut len) (map pair_view pairs.now)) }
{
    let mut leaves = Vec::with_capacity(alloc, pairs.len())?;
    for pair in pairs {
        leaves.push(Leaf {
            path: behind(pair.key, len),
            text: pair.value.as_slice(),
        })?;
    }
    Ok(leaves)
}

fn decode_texts(alloc: Global, tree: &Tree) -> Result<Config, KvFault>
    ensures { IsTreeRead tree.now result }
{
    match decode(alloc, tree, Style::Texts) {
        Ok(config) => Ok(config),
        Err(ConfigFault::Memory) => Err(KvFault::Memory),
        Err(fault) => Err(KvFault::Config(fault)),
    }
}
