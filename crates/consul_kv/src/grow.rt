// The tree of paths and their texts.
ghost use Rattle.std.specs.Prelude.{◌≡◌, ◌<◌, ◌≤◌, ◌==◌, not, true, map, length, IfOk};
ghost use Rattle.std.specs.List.{prefix_len};
ghost use Rattle.consul_kv.specs.Keys.{is_below as is_below_in};
ghost use Rattle.consul_kv.specs.Leaves.{field_leaves, fields_grown};
ghost use Rattle.consul_kv.specs.Rises.{Rises, IsBranch, first_part as first_part_of, slashed, cut};
ghost use Rattle.consul_kv.specs.Grown.{paths_of};

use crate::clash::behind;
use crate::keys::is_below;
use field_tree::{Fields, Tree};
use px_base::{Bytes, Memory};
use std::alloc::Global;

/// A text and the path on which it stands.
#[derive(Clone, Copy)]
pub(crate) struct Leaf<'a> {
    pub(crate) path: &'a [u8],
    pub(crate) text: &'a [u8],
}

// What stands under a first part, and how many leaves are below it.
#[derive(Drop)]
struct Branch {
    name: Bytes,
    tree: Tree,
    taken: usize,
}

/// The table of the leaves. It goes as deep as a path has parts.
#[cycle(grow)]
pub(crate) fn table_of(alloc: Global, leaves: &[Leaf<'_>]) -> Result<Fields<Tree>, Memory>
    requires { Rises (paths_of leaves.now) }
    ensures texts { IfOk result (λ fields. field_leaves fields ≡ map slashed (paths_of leaves.now)) }
    ensures grown { IfOk result (λ fields. fields_grown fields ≡ true) }
    ensures filled { IfOk result (λ fields. 0 < length leaves.now → 0 < length fields) }
{
    let mut fields = Fields::new(alloc);
    let mut at = 0;
    while at < leaves.len() {
        let branch = branch_of(alloc, &leaves[at..])?;
        fields.push(branch.name, branch.tree)?;
        at += branch.taken;
    }
    Ok(fields)
}

// The branch of the first leaf.
#[cycle(grow)]
fn branch_of(alloc: Global, leaves: &[Leaf<'_>]) -> Result<Branch, Memory>
    requires filled { 0 < length leaves.now }
    requires rising { Rises (paths_of leaves.now) }
    ensures { IfOk result (λ branch. IsBranch (paths_of leaves.now) branch.name branch.tree branch.taken) }
{
    let first = leaves[0];
    let part = first_part(first.path);
    let name = Bytes::from_slice(alloc, part)?;
    let (len, whole) = (part.len(), first.path.len());
    if len == whole {
        let text = Bytes::from_slice(alloc, first.text)?;
        return Ok(Branch {
            name,
            tree: Tree::Text(text),
            taken: 1,
        });
    }
    let taken = count_below(leaves, part);
    let below = cut_all(alloc, &leaves[..taken], len + 1)?;
    let fields = table_of(alloc, below.as_slice())?;
    Ok(Branch {
        name,
        tree: Tree::Table(fields),
        taken,
    })
}

fn first_part(path: &[u8]) -> &[u8]
    ensures { result.now ≡ first_part_of path.now }
{
    &path[..part_len(path)]
}

fn part_len(path: &[u8]) -> usize
    ensures len { result ≡ prefix_len (λ b. not (b == 47)) path.now }
    ensures within { result ≤ length path.now }
{
    path.iter().take_while(|b| **b != b'/').count()
}

// How many leaves from the first on are below a part.
fn count_below(leaves: &[Leaf<'_>], part: &[u8]) -> usize
    ensures { result ≡ prefix_len (λ leaf. is_below_in part.now leaf.path.now) leaves.now }
{
    leaves
        .iter()
        .take_while(|leaf| is_below(part, leaf.path))
        .count()
}

// The leaves without the first bytes of their paths.
fn cut_all<'a>(alloc: Global, leaves: &[Leaf<'a>], len: usize) -> Result<Vec<Leaf<'a>>, Memory>
    ensures { IfOk result (λ below. paths_of below.items ≡ map (cut len) (paths_of leaves.now)) }
{
    let mut below = Vec::with_capacity(alloc, leaves.len())?;
    for leaf in leaves {
        below.push(Leaf {
            path: behind(leaf.path, len),
            text: leaf.text,
        })?;
    }
    Ok(below)
}
