//! Small trees, and texts at the edge of what they may spell.

use crate::{
    Fields, Style, Tree, ValueFault, find, read_duration, read_flag, read_number, walk_order,
};
use px_base::{Bytes, Memory};
use std::alloc::Global;
use std::cmp::Ordering;
use std::process::Abort;
use std::test::Fail;

fn text(alloc: Global, text: &[u8]) -> Result<Tree, Memory> {
    Ok(Tree::Text(Bytes::from_slice(alloc, text)?))
}

#[test]
fn keys_and_texts(rt: HostRuntime) -> Result<(), Fail> {
    let alloc = rt.alloc();
    let mut fields = Fields::new(alloc);
    fields.push(Bytes::from_slice(alloc, b"B")?, Tree::Num(1))?;
    fields.push(Bytes::from_slice(alloc, b"a")?, Tree::Flag(true))?;
    fields.push(Bytes::from_slice(alloc, b"b")?, text(alloc, b"-7")?)?;
    assert_eq!(rt; fields.len(), 3);
    assert!(rt; !fields.is_empty());
    let tree = Tree::Table(fields);
    assert!(rt; tree.table().is_some());
    assert!(rt; tree.list().is_none());

    let upper = find(&tree, b"B").ok_or("B")?;
    assert_eq!(rt; upper.number(Style::Typed), Ok(1));
    assert_eq!(rt; upper.number(Style::Texts), Err(ValueFault::Kind));
    let lower = find(&tree, b"b").ok_or("b")?;
    assert_eq!(rt; lower.number(Style::Texts), Ok(-7));
    assert_eq!(rt; lower.number(Style::Typed), Err(ValueFault::Kind));
    assert_eq!(rt; lower.text()?, b"-7".as_slice());
    let flag = find(&tree, b"a").ok_or("a")?;
    assert_eq!(rt; flag.flag(Style::Typed), Ok(true));
    assert!(rt; find(&tree, b"A").is_none());
    assert!(rt; find(lower, b"b").is_none());
    Ok(())
}

#[test]
fn spelled_values(rt: HostRuntime) -> Result<(), Fail> {
    numbers(&rt);
    times(&rt);
    orders(&rt);

    let alloc = rt.alloc();
    let thirty = text(alloc, b"30")?;
    assert_eq!(rt; thirty.duration(Style::Texts), Ok(30_000));
    assert_eq!(rt; thirty.duration(Style::Typed), Err(ValueFault::Range));
    assert!(rt; !thirty.stands_for_empty());
    assert_eq!(rt; Tree::Num(30).duration(Style::Typed), Ok(30_000));
    assert_eq!(rt;
        Tree::Num(86_401).duration(Style::Typed),
        Err(ValueFault::Range)
    );
    let half = text(alloc, b"500ms")?;
    assert_eq!(rt; half.duration(Style::Typed), Ok(500));
    assert!(rt; text(alloc, b"true")?.stands_for_empty());
    Ok(())
}

fn numbers(rt: &impl Abort) {
    let numbers = [
        ("-", Err(ValueFault::Kind)),
        ("", Err(ValueFault::Kind)),
        ("+1", Err(ValueFault::Kind)),
        ("007", Ok(7)),
        ("-0", Ok(0)),
        ("9223372036854775807", Ok(i64::MAX)),
        ("9223372036854775808", Err(ValueFault::Range)),
        ("-9223372036854775808", Ok(i64::MIN)),
        ("-9223372036854775809", Err(ValueFault::Range)),
        ("00000000000000000001", Err(ValueFault::Kind)),
    ];
    for (text, number) in numbers {
        assert_eq!(rt; read_number(text.as_bytes()), number);
    }
    let flags = [
        ("true", Ok(true)),
        ("false", Ok(false)),
        ("True", Err(ValueFault::Kind)),
    ];
    for (text, flag) in flags {
        assert_eq!(rt; read_flag(text.as_bytes()), flag);
    }
}

fn times(rt: &impl Abort) {
    let times = [
        ("1m30s", Ok(90_000)),
        ("1ms1m1s", Ok(61_001)),
        ("0h0024h0ms", Ok(86_400_000)),
        ("24h1ms", Err(ValueFault::Range)),
        ("99999999999999999999h", Err(ValueFault::Range)),
        ("0s", Err(ValueFault::Range)),
        ("30", Err(ValueFault::Range)),
        ("1s2", Err(ValueFault::Range)),
        ("s", Err(ValueFault::Range)),
        ("1.5s", Err(ValueFault::Range)),
        ("", Err(ValueFault::Range)),
    ];
    for (text, time) in times {
        assert_eq!(rt; read_duration(text.as_bytes()), time);
    }
}

fn orders(rt: &impl Abort) {
    let orders = [
        ("Rule", "rule", Ordering::Less),
        ("rule", "Service", Ordering::Less),
        ("Service", "rule", Ordering::Greater),
        ("tls", "tls", Ordering::Equal),
        ("TLS", "tlsx", Ordering::Less),
    ];
    for (a, b, order) in orders {
        assert_eq!(rt; walk_order(a.as_bytes(), b.as_bytes()), order);
    }
}
