//! A call of a rule's text: its matcher and its values.
ghost use Rattle.std.specs.Prelude.{◌≡◌, [], ◌∷◌, false, IfOk, IfErr, OnOk};
ghost use Rattle.std.specs.List.{AllByRecursion};
ghost use Rattle.rule_lang.specs.Trees.{call as call_of};
ghost use Rattle.rule_lang.specs.Matchers.{TakesCount, TakesKey, TakesValue};
ghost use Rattle.rule_lang.specs.Calls.{token_text, IsCallFault, CallMeans, IsRefusal};
ghost use Rattle.rule_lang.specs.Values.{Stands, StandsAsValue, unescaped, token_value, body_of, call_tree, one_tree, tokens_call, IsLeafOf, IsRefusalOf, IsFaultOf};
ghost use Rattle.rule_lang.specs.declared.call.CallFault.TheVariants.{Memory as CallWantsMemory};

use super::matcher::matcher_of;
use crate::{Leaf, Matcher, Token, TokenKind, takes_count, takes_key, takes_value};
use px_base::{Bytes, Memory};
use std::alloc::Global;

// What is wrong with a call.
#[derive(Clone, Copy, Debug, PartialEq, Eq)]
pub(crate) enum CallFault {
    // No matcher has this name.
    UnknownMatcher { at: usize },
    // The matcher of this name takes another number of values.
    Arity { at: usize },
    // The matcher refuses the value here.
    Value { at: usize },
    Memory,
}

impl From<Memory> for CallFault {
    ghost from_gives = { λ _ e. e ≡ CallWantsMemory };

    fn from(_: Memory) -> CallFault {
        CallFault::Memory
    }
}

// The leaf of a call, by its name and its values.
pub(crate) fn call_leaf(
    alloc: Global,
    text: &[u8],
    name: Token,
    values: &[Token],
) -> Result<Leaf, CallFault>
    requires name { Stands text.now name }
    requires values { AllByRecursion (StandsAsValue text.now) values.now }
    ensures means { IfOk result (λ l. CallMeans text.now (tokens_call name values.now) l.matcher l.key l.value) }
    ensures tree { IfOk result (λ l. call_of l.matcher l.key l.value ≡ call_tree text.now (tokens_call name values.now)) }
    ensures fault { IfErr result (IsCallFault text.now (tokens_call name values.now)) }
{
    match matcher_of(spelled(text, name)) {
        Some(matcher) => with_matcher(alloc, text, name, matcher, values),
        None => Err(CallFault::UnknownMatcher { at: name.start }),
    }
}

fn with_matcher(
    alloc: Global,
    text: &[u8],
    name: Token,
    matcher: Matcher,
    values: &[Token],
) -> Result<Leaf, CallFault>
    requires values { AllByRecursion (StandsAsValue text.now) values.now }
    ensures leaf { IfOk result (IsLeafOf text.now matcher values.now) }
    ensures fault { IfErr result (IsFaultOf text.now name.start matcher values.now) }
{
    if !takes_count(matcher, values.len()) {
        return Err(CallFault::Arity { at: name.start });
    }
    match values {
        [value] => with_one(alloc, text, matcher, *value),
        [key, value] => with_two(alloc, text, matcher, *key, *value),
        _ => unreachable!(),
    }
}

fn with_one(alloc: Global, text: &[u8], matcher: Matcher, token: Token) -> Result<Leaf, CallFault>
    requires token { StandsAsValue text.now token }
    requires count { TakesCount matcher 1 }
    ensures leaf { IfOk result (IsLeafOf text.now matcher (token ∷ [])) }
    ensures fault { IfErr result (IsRefusalOf text.now matcher (token ∷ [])) }
{
    let value = value_of(alloc, text, token)?;
    checked(one_leaf(alloc, matcher, value), token.start, token.start)
}

fn with_two(
    alloc: Global,
    text: &[u8],
    matcher: Matcher,
    first: Token,
    second: Token,
) -> Result<Leaf, CallFault>
    requires first { StandsAsValue text.now first }
    requires second { StandsAsValue text.now second }
    requires count { TakesCount matcher 2 }
    ensures leaf { IfOk result (IsLeafOf text.now matcher (first ∷ second ∷ [])) }
    ensures fault { IfErr result (IsRefusalOf text.now matcher (first ∷ second ∷ [])) }
{
    let key = value_of(alloc, text, first)?;
    let value = value_of(alloc, text, second)?;
    let leaf = Leaf {
        matcher,
        key,
        value,
    };
    checked(leaf, first.start, second.start)
}

// The only value is the key of `Query`, and the value of every other matcher.
fn one_leaf(alloc: Global, matcher: Matcher, value: Bytes) -> Leaf
    ensures matcher { result.matcher ≡ matcher }
    ensures tree { call_of result.matcher result.key result.value ≡ one_tree matcher value }
{
    match matcher {
        Matcher::Query => Leaf {
            matcher,
            key: value,
            value: Bytes::new(alloc),
        },
        Matcher::Header
        | Matcher::HeaderRegexp
        | Matcher::Host
        | Matcher::HostRegexp
        | Matcher::Method
        | Matcher::Path
        | Matcher::PathPrefix
        | Matcher::PathRegexp
        | Matcher::QueryRegexp
        | Matcher::ClientIp => Leaf {
            matcher,
            key: Bytes::new(alloc),
            value,
        },
    }
}

// The leaf, where its matcher takes its key and its value.
fn checked(leaf: Leaf, key_at: usize, value_at: usize) -> Result<Leaf, CallFault>
    ensures leaf { IfOk result (λ l. l ≡ leaf) }
    ensures key { OnOk result (TakesKey leaf.matcher leaf.key) }
    ensures value { OnOk result (TakesValue leaf.matcher leaf.value) }
    ensures fault { IfErr result (IsRefusal leaf.matcher leaf.key leaf.value key_at value_at) }
{
    if !takes_key(leaf.matcher, leaf.key.as_slice()) {
        return Err(CallFault::Value { at: key_at });
    }
    if !takes_value(leaf.matcher, leaf.value.as_slice()) {
        return Err(CallFault::Value { at: value_at });
    }
    Ok(leaf)
}

// What a token spells.
fn spelled(text: &[u8], token: Token) -> &[u8]
    requires { Stands text.now token }
    ensures { result.now ≡ token_text text.now token }
{
    &text[token.start..token.end]
}

// What stands between a token's quotes.
fn between_quotes(text: &[u8], token: Token) -> &[u8]
    requires { StandsAsValue text.now token }
    ensures { result.now ≡ body_of text.now token }
{
    &text[token.start + 1..token.end - 1]
}

// The value that a token spells.
fn value_of(alloc: Global, text: &[u8], token: Token) -> Result<Bytes, Memory>
    requires { StandsAsValue text.now token }
    ensures { IfOk result (λ v. v ≡ token_value text.now token) }
{
    let body = between_quotes(text, token);
    match token.kind {
        TokenKind::Quoted => unescape(alloc, body),
        TokenKind::Or
        | TokenKind::And
        | TokenKind::Not
        | TokenKind::Open
        | TokenKind::Close
        | TokenKind::Comma
        | TokenKind::Name
        | TokenKind::Raw => Bytes::from_slice(alloc, body),
    }
}

fn unescape(alloc: Global, body: &[u8]) -> Result<Bytes, Memory>
    ensures { IfOk result (λ v. v ≡ unescaped false body.now) }
{
    let mut value = Vec::new(alloc);
    let mut pending = false;
    for byte in body {
        if *byte == b'\\' && !pending {
            pending = true;
        } else {
            value.push(*byte)?;
            pending = false;
        }
    }
    Ok(Bytes::from_vec(value))
}
