//! Rules over requests, the shops' refusals, and why a rule isn't compiled.
use head_view::{EMPTY_HEADER_SPAN, Scan, scan_request, view};
use ip_net::Ip;
use px_base::Bytes;
use rule_eval::{
    CompileFault, Compiled, MemoryShop, Pattern, PatternFault, PatternShop, RegexShop, compile,
    holds, patterns,
};
use rule_lang::{Leaf, Matcher, Rule};
use sqlite_items::Boxed;
use std::alloc::Global;
use std::process::Abort;
use std::test::Fail;

fn call(alloc: Global, matcher: Matcher, key: &str, value: &str) -> Result<Rule, Fail> {
    let key = Bytes::from_slice(alloc, key.as_bytes())?;
    let value = Bytes::from_slice(alloc, value.as_bytes())?;
    Ok(Rule::Leaf(Leaf {
        matcher,
        key,
        value,
    }))
}

fn compiled(alloc: Global, rule: &Rule) -> Result<Compiled, Fail> {
    match compile(alloc, rule, &mut RegexShop::new(alloc)) {
        Ok(compiled) => Ok(compiled),
        Err(_) => Err(Fail::from("not compiled")),
    }
}

// Whether the rule is true of a request of 10.0.0.7 for this host, path and query.
fn is_true(
    alloc: Global,
    rule: &Rule,
    host: &[u8],
    path: &[u8],
    query: &[u8],
) -> Result<bool, Fail> {
    let head = b"GET / HTTP/1.1\r\nX-A: one\r\nx-a: \xff\r\nX-A: two\r\n\r\n";
    let mut room = [EMPTY_HEADER_SPAN; 4];
    let compiled = compiled(alloc, rule)?;
    match scan_request(head, &mut room) {
        Scan::Whole(spans) => {
            let view = view(head, &room, &spans, host, path, query);
            Ok(holds(alloc, &compiled, &view, Ip::V4(0x0a00_0007))?)
        }
        _ => Err(Fail::from("no head")),
    }
}

// Whether one call is true of a request for `Shop.test`, `/a/b` and a query of three pairs.
fn is_met(alloc: Global, matcher: Matcher, key: &str, value: &str) -> Result<bool, Fail> {
    let rule = call(alloc, matcher, key, value)?;
    is_true(
        alloc,
        &rule,
        b"Shop.test",
        b"/a/b",
        b"q=a+b&%71=%c3%a4&q=%ff&x",
    )
}

// A call by its matcher, key and value, and whether it is true.
type Case = (Matcher, &'static str, &'static str, bool);

const FIELDS_AND_HOSTS: [Case; 8] = [
    (Matcher::Header, "x-A", "two", true),
    (Matcher::Header, "X-A", "Two", false),
    (Matcher::HeaderRegexp, "X-A", "^tw", true),
    (Matcher::HeaderRegexp, "X-A", "three", false),
    (Matcher::Host, "", "sHOP.test.", true),
    (Matcher::Host, "", "shop.test..", false),
    (Matcher::HostRegexp, "", "^shop", true),
    (Matcher::HostRegexp, "", "^Shop", false),
];

const METHODS_AND_PATHS: [Case; 8] = [
    (Matcher::Method, "", "get", true),
    (Matcher::Method, "", "GETS", false),
    (Matcher::Path, "", "/a/b", true),
    (Matcher::Path, "", "/a", false),
    (Matcher::PathPrefix, "", "/a/", true),
    (Matcher::PathPrefix, "", "/b", false),
    (Matcher::PathRegexp, "", "/[b-z]$", true),
    (Matcher::PathRegexp, "", "/[c-z]$", false),
];

const QUERIES_AND_PEERS: [Case; 9] = [
    (Matcher::Query, "q", "a b", true),
    (Matcher::Query, "q", "ä", true),
    (Matcher::Query, "q", "\u{fffd}", true),
    (Matcher::Query, "x", "", true),
    (Matcher::Query, "q", "a+b", false),
    (Matcher::QueryRegexp, "q", "^a.b$", true),
    (Matcher::QueryRegexp, "x", "a", false),
    (Matcher::ClientIp, "", "10.0.0.0/29", true),
    (Matcher::ClientIp, "", "10.0.0.8/29", false),
];

fn try_case(rt: &impl Abort, alloc: Global, case: Case) -> Result<(), Fail> {
    let (matcher, key, value, wanted) = case;
    let met = is_met(alloc, matcher, key, value)?;
    assert_eq!(rt; met, wanted);
    Ok(())
}

fn try_cases(rt: &impl Abort, alloc: Global, cases: &[Case]) -> Result<(), Fail> {
    for case in cases {
        try_case(rt, alloc, *case)?;
    }
    Ok(())
}

// Host(`A.example`) && !Path(`/x`)
fn host_but_no_path(alloc: Global) -> Result<Rule, Fail> {
    let host = Boxed::new(alloc, call(alloc, Matcher::Host, "", "A.example")?)?;
    let path = Boxed::new(alloc, call(alloc, Matcher::Path, "", "/x")?)?;
    let not = Boxed::new(alloc, Rule::Not(path))?;
    Ok(Rule::And(host, not))
}

// PathRegexp(`(`) || ClientIP(`10.0.0.0/8`) in this order, or a better pattern first.
fn pattern_or_peer(alloc: Global, pattern: &str, network: &str) -> Result<Rule, Fail> {
    let path = Boxed::new(alloc, call(alloc, Matcher::PathRegexp, "", pattern)?)?;
    let peer = Boxed::new(alloc, call(alloc, Matcher::ClientIp, "", network)?)?;
    Ok(Rule::Or(path, peer))
}

// Whether the rule is true of this path at this host.
fn is_true_at(
    rt: &impl Abort,
    alloc: Global,
    rule: &Rule,
    path: &'static [u8],
    wanted: bool,
) -> Result<(), Fail> {
    let answer = is_true(alloc, rule, b"a.EXAMPLE", path, b"")?;
    assert_eq!(rt; answer, wanted);
    Ok(())
}

fn is_plain(alloc: Global, rule: &Rule) -> Result<bool, Fail> {
    Ok(compiled(alloc, rule)?.plain())
}

// The rule is true of `/y` and false of `/x`; whether it is plain, and how many patterns it has.
fn try_rule(rt: &impl Abort, alloc: Global, rule: &Rule, wanted: (bool, u32)) -> Result<(), Fail> {
    is_true_at(rt, alloc, rule, b"/y", true)?;
    is_true_at(rt, alloc, rule, b"/x", false)?;
    let plain = is_plain(alloc, rule)?;
    assert_eq!(rt; (plain, patterns(rule)), wanted);
    Ok(())
}

fn plain_rules(rt: &impl Abort, alloc: Global) -> Result<(), Fail> {
    let rule = host_but_no_path(alloc)?;
    try_rule(rt, alloc, &rule, (true, 0))
}

fn pattern_rules(rt: &impl Abort, alloc: Global) -> Result<(), Fail> {
    let rule = pattern_or_peer(alloc, "^/y", "10.0.0.0/30")?;
    try_rule(rt, alloc, &rule, (false, 1))
}

#[test]
fn truth(rt: HostRuntime) -> Result<(), Fail> {
    let alloc = rt.alloc();
    try_cases(&rt, alloc, &FIELDS_AND_HOSTS)?;
    try_cases(&rt, alloc, &METHODS_AND_PATHS)?;
    try_cases(&rt, alloc, &QUERIES_AND_PEERS)?;
    plain_rules(&rt, alloc)?;
    pattern_rules(&rt, alloc)?;
    Ok(())
}

// Why the rule isn't compiled by a shop that refuses these builds.
fn fault_of(alloc: Global, rule: &Rule, too_big: &[u64]) -> Result<Option<CompileFault>, Fail> {
    let mut shop = MemoryShop::new(alloc, Vec::from_slice(alloc, too_big)?);
    match compile(alloc, rule, &mut shop) {
        Ok(_) => Ok(None),
        Err(fault) => Ok(Some(fault)),
    }
}

// The same of a pattern and a network, where the shop refuses one build.
fn fault_with(
    alloc: Global,
    rule: (&'static str, &'static str),
    too_big: u64,
) -> Result<Option<CompileFault>, Fail> {
    let rule = pattern_or_peer(alloc, rule.0, rule.1)?;
    fault_of(alloc, &rule, &[too_big])
}

fn try_fault(
    rt: &impl Abort,
    alloc: Global,
    rule: (&'static str, &'static str),
    too_big: u64,
    wanted: Option<CompileFault>,
) -> Result<(), Fail> {
    let fault = fault_with(alloc, rule, too_big)?;
    assert_eq!(rt; fault, wanted);
    Ok(())
}

fn compile_faults(rt: &impl Abort, alloc: Global) -> Result<(), Fail> {
    let too_big = Some(CompileFault::TooBig { leaf: 0 });
    let syntax = Some(CompileFault::Syntax { leaf: 0 });
    let address = Some(CompileFault::Address { leaf: 1 });
    try_fault(rt, alloc, ("a", "10.0.0.0/8"), 2, None)?;
    try_fault(rt, alloc, ("a", "10.0.0.0/8"), 1, too_big)?;
    try_fault(rt, alloc, ("(", "10.0.0.0/8"), 1, syntax)?;
    try_fault(rt, alloc, ("a", "10.0.0.0/33"), 2, address)
}

// What a shop says of a text.
fn refusal(built: Result<Pattern, PatternFault>) -> Option<PatternFault> {
    match built {
        Ok(_) => None,
        Err(fault) => Some(fault),
    }
}

fn real_refusals(rt: &impl Abort, alloc: Global) {
    let mut shop = RegexShop::new(alloc);
    let refusals = [
        refusal(shop.build("^a(b|c)*$")),
        refusal(shop.build("a)")),
        refusal(shop.build("(?:\\w{1000}){1000}")),
    ];
    let wanted = [None, Some(PatternFault::Syntax), Some(PatternFault::TooBig)];
    assert_eq!(rt; refusals, wanted);
}

fn replaces(rt: &impl Abort, alloc: Global) -> Result<(), Fail> {
    match RegexShop::new(alloc).build("/(.)") {
        Ok(pattern) => {
            let text = pattern.replace(alloc, "<$1>", "/ab/c")?;
            assert_eq!(rt; text.as_str(), "<a>b<c>");
        }
        Err(_) => panic!(rt; "a pattern"),
    }
    Ok(())
}

#[test]
fn refusals(rt: HostRuntime) -> Result<(), Fail> {
    let alloc = rt.alloc();
    compile_faults(&rt, alloc)?;
    real_refusals(&rt, alloc);
    replaces(&rt, alloc)?;
    Ok(())
}
