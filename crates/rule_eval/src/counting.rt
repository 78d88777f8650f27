//! How many patterns a rule has.
ghost use Rattle.std.specs.Prelude.{◌≡◌, ◌-◌, ◌^◌, min};
ghost use Rattle.rule_lang.specs.Trees.{tree_of};
ghost use Rattle.rule_eval.specs.Calls.{pattern_count, has_pattern as is_matcher_of_pattern};

use rule_lang::{Matcher, Rule};

/// How many calls of the rule have a pattern; the number stays at 2^32 - 1 once it is there.
pub fn patterns(rule: &Rule) -> u32
    ensures { result ≡ min (pattern_count (tree_of rule.now)) (2 ^ 32 - 1) }
{
    match rule {
        Rule::Leaf(leaf) => { if has_pattern(leaf.matcher) { 1 } else { 0 } }
        Rule::Not(inner) => patterns(inner.get()),
        Rule::And(left, right) => patterns(left.get()).saturating_add(patterns(right.get())),
        Rule::Or(left, right) => patterns(left.get()).saturating_add(patterns(right.get())),
    }
}

// Whether the value of a call is a pattern.
pub(crate) fn has_pattern(matcher: Matcher) -> bool
    ensures { result ≡ is_matcher_of_pattern matcher }
{
    match matcher {
        Matcher::HeaderRegexp | Matcher::HostRegexp | Matcher::PathRegexp | Matcher::QueryRegexp =>
            true,
        Matcher::Header
        | Matcher::Host
        | Matcher::Method
        | Matcher::Path
        | Matcher::PathPrefix
        | Matcher::Query
        | Matcher::ClientIp => false,
    }
}
