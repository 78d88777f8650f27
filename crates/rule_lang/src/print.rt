//! The print of a rule, with the fewest parentheses.
ghost use Rattle.std.specs.Prelude.{◌≡◌, [], ◌∷◌, ◌++◌, ◌==◌, if◌then◌else◌, flat_map, OnOk};
ghost use Rattle.std.specs.List.{list_any};
ghost use Rattle.rule_lang.specs.Trees.{tree_of};
ghost use Rattle.rule_lang.specs.Prints.{rule_print, print_at as print_there, call_print, values_print, pair_print, value_print, escaped, and_is_bare, or_is_bare};

use crate::{Leaf, Matcher, Rule, name_of};
use px_base::Memory;

/// Which operand may stand at a place without parentheses.
#[derive(Clone, Copy, Debug, PartialEq, Eq)]
pub enum Level {
    /// `a || b` and all others.
    Or,
    /// `a && b`, a negation, a call.
    And,
    /// A negation or a call.
    Unary,
}

/// Appends the print of a rule.
pub fn print_rule(rule: &Rule, out: &mut Vec<u8>) -> Result<(), Memory>
    ensures { OnOk result (out.new.items ≡ out.old.items ++ rule_print (tree_of rule.now)) }
{
    print_at(Level::Or, rule, out)
}

fn print_at(level: Level, rule: &Rule, out: &mut Vec<u8>) -> Result<(), Memory>
    ensures { OnOk result (out.new.items ≡ out.old.items ++ print_there level (tree_of rule.now)) }
{
    match rule {
        Rule::Leaf(leaf) => print_call(leaf, out)?,
        Rule::Not(inner) => {
            out.push(b'!')?;
            print_at(Level::Unary, inner.get(), out)?;
        }
        Rule::And(left, right) => {
            let bare = is_and_bare(level);
            print_open(bare, out)?;
            print_at(Level::And, left.get(), out)?;
            out.extend_from_slice(b" && ")?;
            print_at(Level::Unary, right.get(), out)?;
            print_close(bare, out)?;
        }
        Rule::Or(left, right) => {
            let bare = is_or_bare(level);
            print_open(bare, out)?;
            print_at(Level::Or, left.get(), out)?;
            out.extend_from_slice(b" || ")?;
            print_at(Level::And, right.get(), out)?;
            print_close(bare, out)?;
        }
    }
    Ok(())
}

// Whether `a && b` needs no parentheses at this level.
fn is_and_bare(level: Level) -> bool
    ensures { result ≡ and_is_bare level }
{
    level != Level::Unary
}

// Whether `a || b` needs none.
fn is_or_bare(level: Level) -> bool
    ensures { result ≡ or_is_bare level }
{
    level == Level::Or
}

// The parenthesis before an operand that may not stand bare.
fn print_open(bare: bool, out: &mut Vec<u8>) -> Result<(), Memory>
    ensures { OnOk result (out.new.items ≡ out.old.items ++ (if bare then [] else 40 ∷ [])) }
{
    if !bare {
        out.push(b'(')?;
    }
    Ok(())
}

fn print_close(bare: bool, out: &mut Vec<u8>) -> Result<(), Memory>
    ensures { OnOk result (out.new.items ≡ out.old.items ++ (if bare then [] else 41 ∷ [])) }
{
    if !bare {
        out.push(b')')?;
    }
    Ok(())
}

fn print_call(leaf: &Leaf, out: &mut Vec<u8>) -> Result<(), Memory>
    ensures { OnOk result (out.new.items
        ≡ out.old.items ++ call_print leaf.now.matcher leaf.now.key leaf.now.value) }
{
    out.extend_from_slice(name_of(leaf.matcher))?;
    out.push(b'(')?;
    print_values(
        leaf.matcher,
        leaf.key.as_slice(),
        leaf.value.as_slice(),
        out,
    )?;
    out.push(b')')?;
    Ok(())
}

fn print_values(matcher: Matcher, key: &[u8], value: &[u8], out: &mut Vec<u8>) -> Result<(), Memory>
    ensures { OnOk result (out.new.items ≡ out.old.items ++ values_print matcher key.now value.now) }
{
    match matcher {
        Matcher::Header | Matcher::HeaderRegexp | Matcher::QueryRegexp => print_pair(
            key, value, out,
        ),
        Matcher::Query => match value {
            [] => print_value(key, out),
            _ => print_pair(key, value, out),
        },
        Matcher::Host
        | Matcher::HostRegexp
        | Matcher::Method
        | Matcher::Path
        | Matcher::PathPrefix
        | Matcher::PathRegexp
        | Matcher::ClientIp => print_value(value, out),
    }
}

fn print_pair(key: &[u8], value: &[u8], out: &mut Vec<u8>) -> Result<(), Memory>
    ensures { OnOk result (out.new.items ≡ out.old.items ++ pair_print key.now value.now) }
{
    print_value(key, out)?;
    out.extend_from_slice(b", ")?;
    print_value(value, out)
}

fn print_value(value: &[u8], out: &mut Vec<u8>) -> Result<(), Memory>
    ensures { OnOk result (out.new.items ≡ out.old.items ++ value_print value.now) }
{
    if has_backquote(value) {
        out.push(b'"')?;
        print_escaped(value, out)?;
        out.push(b'"')?;
    } else {
        out.push(b'`')?;
        out.extend_from_slice(value)?;
        out.push(b'`')?;
    }
    Ok(())
}

fn has_backquote(value: &[u8]) -> bool
    ensures { result ≡ list_any (λ b. b == 96) value.now }
{
    value.contains(&b'`')
}

fn print_escaped(value: &[u8], out: &mut Vec<u8>) -> Result<(), Memory>
    ensures { OnOk result (out.new.items ≡ out.old.items ++ flat_map escaped value.now) }
{
    for byte in value {
        if *byte == b'"' || *byte == b'\\' {
            out.push(b'\\')?;
        }
        out.push(*byte)?;
    }
    Ok(())
}
