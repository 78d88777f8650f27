//! Texts of rules and their tokens.
use crate::{
    LexFault, Matcher, Rule, RuleFault, Token, TokenKind, matcher_named, print_rule, read_rule,
    read_tokens, takes_count, takes_key, takes_value,
};
use std::alloc::Global;
use std::process::Abort;
use std::test::Fail;

fn expect_fault(rt: &impl Abort, alloc: Global, text: &[u8], at: usize) {
    let read = read_tokens(alloc, text);
    assert!(rt; matches!(read, Err(LexFault::Lex { at: place }) if place == at));
}

fn expect_tokens(
    rt: &impl Abort,
    alloc: Global,
    text: &[u8],
    tokens: &[Token],
) -> Result<(), Fail> {
    let Ok(read) = read_tokens(alloc, text) else {
        return Err(Fail::from("no tokens"));
    };
    assert_eq!(rt; read.as_slice(), tokens);
    Ok(())
}

#[test]
fn texts(rt: HostRuntime) -> Result<(), Fail> {
    let alloc = rt.alloc();
    expect_tokens(&rt, alloc, b" \t\r\n", &[])?;
    expect_tokens(
        &rt,
        alloc,
        b"!Host(`a`, \"b\\\"\") ||\n(",
        &[
            Token {
                kind: TokenKind::Not,
                start: 0,
                end: 1,
            },
            Token {
                kind: TokenKind::Name,
                start: 1,
                end: 5,
            },
            Token {
                kind: TokenKind::Open,
                start: 5,
                end: 6,
            },
            Token {
                kind: TokenKind::Raw,
                start: 6,
                end: 9,
            },
            Token {
                kind: TokenKind::Comma,
                start: 9,
                end: 10,
            },
            Token {
                kind: TokenKind::Quoted,
                start: 11,
                end: 16,
            },
            Token {
                kind: TokenKind::Close,
                start: 16,
                end: 17,
            },
            Token {
                kind: TokenKind::Or,
                start: 18,
                end: 20,
            },
            Token {
                kind: TokenKind::Open,
                start: 21,
                end: 22,
            },
        ],
    )?;
    expect_fault(&rt, alloc, b"Host('a')", 5);
    expect_fault(&rt, alloc, b"a & b", 2);
    expect_fault(&rt, alloc, b"Host(`a", 5);
    expect_fault(&rt, alloc, b"Host(\"a\\n\")", 7);
    expect_fault(&rt, alloc, b"Host(\"a\\n", 5);
    expect_fault(&rt, alloc, b"Host(\"a\\", 5);
    Ok(())
}

fn printed(alloc: Global, rule: &Rule) -> Result<Vec<u8>, Fail> {
    let mut out = Vec::new(alloc);
    print_rule(rule, &mut out)?;
    Ok(out)
}

// Reads the text, and prints it again.
fn expect_print(rt: &impl Abort, alloc: Global, text: &str, print: &[u8]) -> Result<(), Fail> {
    let Ok(rule) = read_rule(alloc, text) else {
        return Err(Fail::from("no rule"));
    };
    let out = printed(alloc, &rule)?;
    assert!(rt; out.as_slice() == print, "{text}");
    Ok(())
}

fn expect_refused(rt: &impl Abort, alloc: Global, text: &str, fault: RuleFault) {
    let read = read_rule(alloc, text);
    assert!(rt; matches!(read, Err(e) if e == fault), "{text}");
}

fn are_or_of_host_and_and(rule: &Rule) -> bool {
    match rule {
        Rule::Or(left, right) => {
            matches!(left.get(), Rule::Leaf(_)) && matches!(right.get(), Rule::And(_, _))
        }
        Rule::Leaf(_) | Rule::Not(_) | Rule::And(_, _) => false,
    }
}

// A rule of so many bytes, filled up with blanks.
fn padded(alloc: Global, blanks: usize) -> Result<String, Fail> {
    let mut text = String::from_str(alloc, "Path(`/x`)")?;
    for _ in 0..blanks {
        text.push_str(" ")?;
    }
    Ok(text)
}

fn expect_rules(rt: &impl Abort, alloc: Global) -> Result<(), Fail> {
    expect_print(
        rt,
        alloc,
        "Host(`A.example`) && !Path(`/x`)",
        b"Host(`A.example`) && !Path(`/x`)",
    )?;
    expect_print(
        rt,
        alloc,
        "Host(`a`) || Path(`/x`) && !Method(`get`)",
        b"Host(`a`) || Path(`/x`) && !Method(`get`)",
    )?;
    expect_print(
        rt,
        alloc,
        "\t( query ( \"a\\\"\" ) && ( HeaderRegexp(`k`,``) ) )\n",
        b"Query(`a\"`) && HeaderRegexp(`k`, ``)",
    )?;
    let Ok(rule) = read_rule(alloc, "Host(`a`) || Path(`/x`) && !Method(`get`)") else {
        return Err(Fail::from("no rule"));
    };
    assert!(rt; are_or_of_host_and_and(&rule));
    Ok(())
}

fn expect_faults(rt: &impl Abort, alloc: Global) {
    expect_refused(rt, alloc, "Host('a')", RuleFault::Lex { at: 5 });
    expect_refused(rt, alloc, "Host(`a`) &&", RuleFault::Unexpected { at: 12 });
    expect_refused(rt, alloc, "Host(`a` `b`)", RuleFault::Unexpected { at: 9 });
    expect_refused(rt, alloc, "Foo(`a`)", RuleFault::UnknownMatcher { at: 0 });
    expect_refused(rt, alloc, "Host(`a`, `b`)", RuleFault::Arity { at: 0 });
    expect_refused(rt, alloc, "Path(`x`)", RuleFault::Value { at: 5 });
    expect_refused(
        rt,
        alloc,
        "Header(`a`, `b`) || Header(`a`, \"\n\")",
        RuleFault::Value { at: 32 },
    );
}

fn expect_limits(rt: &impl Abort, alloc: Global) -> Result<(), Fail> {
    let longest = padded(alloc, 4086)?;
    assert!(rt; read_rule(alloc, longest.as_str()).is_ok());
    let longer = padded(alloc, 4087)?;
    expect_refused(rt, alloc, longer.as_str(), RuleFault::TooLong);
    expect_print(
        rt,
        alloc,
        "!!!!!!!!!!!!!!!!!!!!!!!!!!!!!!(!Path(`/x`))",
        b"!!!!!!!!!!!!!!!!!!!!!!!!!!!!!!!Path(`/x`)",
    )?;
    expect_refused(
        rt,
        alloc,
        "!!!!!!!!!!!!!!!!!!!!!!!!!!!!!!!(!Foo(`/x`))",
        RuleFault::TooDeep,
    );
    Ok(())
}

fn expect_matchers(rt: &impl Abort) {
    assert!(rt; matcher_named(b"clientip") == Some(Matcher::ClientIp));
    assert!(rt; matcher_named(b"Foo").is_none());
    assert!(rt;
        takes_count(Matcher::Query, 1)
            && takes_count(Matcher::Query, 2)
            && !takes_count(Matcher::Header, 1)
    );
    assert!(rt; takes_key(Matcher::Header, b"X-A") && !takes_key(Matcher::Header, b"X A"));
    assert!(rt; takes_value(Matcher::Path, b"/x") && !takes_value(Matcher::Path, b"x"));
}

#[test]
fn rules(rt: HostRuntime) -> Result<(), Fail> {
    let alloc = rt.alloc();
    expect_rules(&rt, alloc)?;
    expect_faults(&rt, alloc);
    expect_limits(&rt, alloc)?;
    expect_matchers(&rt);
    Ok(())
}
