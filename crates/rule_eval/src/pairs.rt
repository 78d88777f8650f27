//! The pairs of a query, asked one by one.
ghost use Rattle.std.specs.Prelude.{◌≡◌, IfOk, IsTrue, ◌↔◌, Any};
ghost use Rattle.std.specs.List.{list_any};
ghost use Rattle.form_urlencoded.specs.Form.{raw_pairs};
ghost use Rattle.rule_eval.specs.Pairs.{Pair, query_pairs, is_pair as stands_for, is_pair_found as is_found_at};
ghost use Rattle.rule_eval.specs.Patterns.{finds as is_found_in_bytes};
ghost use Rattle.rule_eval.specs.Views.{pattern_text};

use crate::asking::finds;
use crate::pattern::Pattern;
use px_base::Memory;
use std::alloc::Global;

// Whether one pair of the query is this name and this value.
pub(crate) fn has_pair(
    alloc: Global,
    query: &[u8],
    key: &[u8],
    value: &[u8],
) -> Result<bool, Memory>
    ensures { IfOk result (λ has. IsTrue has
        ↔ Any (λ (p : Pair). (p.0 ≡ key.now) × (p.1 ≡ value.now)) (query_pairs query.now)) }
{
    any_is_pair(alloc, query, key, value)
}

fn any_is_pair(alloc: Global, query: &[u8], key: &[u8], value: &[u8]) -> Result<bool, Memory>
    ensures { IfOk result (λ has. has ≡ list_any (stands_for key.now value.now) (raw_pairs query.now)) }
{
    'pairs: for (name, text) in form_urlencoded::raw_pairs(query) {
        if is_pair(alloc, name, text, key, value)? {
            return Ok(true);
        }
    }
    Ok(false)
}

// Whether an encoded pair stands for this name and this value.
fn is_pair(
    alloc: Global,
    name: &[u8],
    text: &[u8],
    key: &[u8],
    value: &[u8],
) -> Result<bool, Memory>
    ensures { IfOk result (λ is. is ≡ stands_for key.now value.now (name.now, text.now)) }
{
    let name = form_urlencoded::decode(alloc, name)?;
    let text = form_urlencoded::decode(alloc, text)?;
    let same_name = name.as_bytes() == key;
    let same_text = text.as_bytes() == value;
    Ok(same_name && same_text)
}

// Whether the pattern is found in one value of this name.
pub(crate) fn is_found_in_pairs(
    alloc: Global,
    query: &[u8],
    key: &[u8],
    pattern: &Pattern,
) -> Result<bool, Memory>
    ensures { IfOk result (λ found. IsTrue found ↔ Any (λ (p : Pair).
        (p.0 ≡ key.now) × IsTrue (is_found_in_bytes (pattern_text pattern.now) p.1)) (query_pairs query.now)) }
{
    any_is_found(alloc, query, key, pattern)
}

fn any_is_found(alloc: Global, query: &[u8], key: &[u8], pattern: &Pattern) -> Result<bool, Memory>
    ensures { IfOk result (λ found.
        found ≡ list_any (is_found_at key.now (pattern_text pattern.now)) (raw_pairs query.now)) }
{
    'pairs: for (name, text) in form_urlencoded::raw_pairs(query) {
        if is_pair_found(alloc, name, text, key, pattern)? {
            return Ok(true);
        }
    }
    Ok(false)
}

// Whether an encoded pair stands for this name and a value in which the pattern is found.
fn is_pair_found(
    alloc: Global,
    name: &[u8],
    text: &[u8],
    key: &[u8],
    pattern: &Pattern,
) -> Result<bool, Memory>
    ensures { IfOk result (λ found. found ≡ is_found_at key.now (pattern_text pattern.now) (name.now, text.now)) }
{
    let name = form_urlencoded::decode(alloc, name)?;
    if name.as_bytes() != key {
        return Ok(false);
    }
    let text = form_urlencoded::decode(alloc, text)?;
    finds(alloc, pattern, text.as_bytes())
}
