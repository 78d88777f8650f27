//! What a call of a rule looks at, and how it is named.
ghost use Rattle.std.specs.Prelude.{◌≡◌, MatchOption};
ghost use Rattle.std.specs.Str.{str_eq_ignore_ascii_case};
ghost use Rattle.rule_lang.specs.declared.matcher.Matcher.{Matcher};
ghost use Rattle.rule_lang.specs.Matchers.{IsNamed, name_of_matcher, first_named};

/// What a call of a rule looks at.
#[derive(Clone, Copy, Debug, PartialEq, Eq)]
pub enum Matcher {
    Header,
    HeaderRegexp,
    Host,
    HostRegexp,
    Method,
    Path,
    PathPrefix,
    PathRegexp,
    Query,
    QueryRegexp,
    ClientIp,
}

/// The matcher's name, as it is printed.
pub fn name_of(matcher: Matcher) -> &'static [u8]
    ensures { result.now ≡ name_of_matcher matcher }
{
    match matcher {
        Matcher::Header => b"Header",
        Matcher::HeaderRegexp => b"HeaderRegexp",
        Matcher::Host => b"Host",
        Matcher::HostRegexp => b"HostRegexp",
        Matcher::Method => b"Method",
        Matcher::Path => b"Path",
        Matcher::PathPrefix => b"PathPrefix",
        Matcher::PathRegexp => b"PathRegexp",
        Matcher::Query => b"Query",
        Matcher::QueryRegexp => b"QueryRegexp",
        Matcher::ClientIp => b"ClientIP",
    }
}

/// The matcher that a name names, without ASCII case. None exactly where it names none.
pub fn matcher_named(name: &[u8]) -> Option<Matcher>
    ensures { MatchOption result ((m : Matcher) → ¬ (IsNamed name.now m)) (IsNamed name.now) }
{
    first_of_them(name)
}

const MATCHERS: [Matcher; 11] = [
    Matcher::Header,
    Matcher::HeaderRegexp,
    Matcher::Host,
    Matcher::HostRegexp,
    Matcher::Method,
    Matcher::Path,
    Matcher::PathPrefix,
    Matcher::PathRegexp,
    Matcher::Query,
    Matcher::QueryRegexp,
    Matcher::ClientIp,
];

fn first_of_them(name: &[u8]) -> Option<Matcher>
    ensures { result ≡ first_named name.now }
{
    MATCHERS
        .iter()
        .copied()
        .find(|matcher| is_named(name, *matcher))
}

fn is_named(name: &[u8], matcher: Matcher) -> bool
    ensures { result ≡ str_eq_ignore_ascii_case name.now (name_of_matcher matcher) }
{
    name.eq_ignore_ascii_case(name_of(matcher))
}

// The same, as the first that is named so.
pub(crate) fn matcher_of(name: &[u8]) -> Option<Matcher>
    ensures named { MatchOption result ((m : Matcher) → ¬ (IsNamed name.now m)) (IsNamed name.now) }
    ensures first { result ≡ first_named name.now }
{
    first_of_them(name)
}
