//! Trees of small files.
use crate::{FileFault, PollFault, ReadTreeFault, poll_file, read_file_config, read_tree};
use dyn_config::ConfigFault;
use field_tree::{Tree, find};
use px_base::{Bytes, MemorySource};
use std::alloc::Global;
use std::process::Abort;
use std::test::Fail;

const FILE: &[u8] =
    b"name = \"a\"\nweights = [3, 1]\n[sticky]\nsecure = true\nsince = 1979-05-27\n";

fn expect_text(rt: &impl Abort, tree: &Tree, key: &[u8], text: &[u8]) {
    assert!(rt; matches!(find(tree, key), Some(Tree::Text(value)) if value.as_slice() == text));
}

fn expect_refused(rt: &impl Abort, alloc: Global, file: &[u8]) {
    assert!(rt; matches!(read_tree(alloc, file), Err(ReadTreeFault::NotToml)));
}

#[test]
fn trees(rt: HostRuntime) -> Result<(), Fail> {
    let alloc = rt.alloc();
    let Ok(tree) = read_tree(alloc, FILE) else {
        return Err(Fail::from("no tree"));
    };
    expect_text(&rt, &tree, b"name", b"a");
    let Some(Tree::List(weights)) = find(&tree, b"weights") else {
        return Err(Fail::from("no list"));
    };
    assert!(rt; matches!(weights.as_slice(), [Tree::Num(3), Tree::Num(1)]));
    let Some(sticky) = find(&tree, b"sticky") else {
        return Err(Fail::from("no table"));
    };
    assert!(rt; matches!(find(sticky, b"secure"), Some(Tree::Flag(true))));
    assert!(rt; matches!(find(sticky, b"since"), Some(Tree::Other)));
    expect_refused(&rt, alloc, b"a = 1\na = 2\n");
    expect_refused(&rt, alloc, b"\xff");
    Ok(())
}

const SHOP: &[u8] = b"[http.routers.r]
rule = \"PathPrefix(`/`)\"
service = \"s\"
[[http.services.s.loadBalancer.servers]]
url = \"http://127.0.0.1:9000\"
";

const TWICE: &[u8] = b"[http.routers.r]\nrule = \"a\"\nRule = \"b\"\n";

const KIND: &[u8] = b"[http.routers.r]\npriority = \"x\"\n";

const NAME: &[u8] = b"[http.routers.\"a@b\"]\nrule = \"a\"\n";

fn path_of(fault: FileFault) -> Option<Bytes> {
    match fault {
        FileFault::Config(ConfigFault::Twice { path }) => Some(path),
        FileFault::Config(ConfigFault::Kind { path }) => Some(path),
        FileFault::Config(ConfigFault::BadName { path }) => Some(path),
        _ => None,
    }
}

fn expect_path(rt: &impl Abort, alloc: Global, file: &[u8], path: &[u8]) {
    match read_file_config(alloc, file) {
        Ok(_) => assert!(rt; false),
        Err(fault) => match path_of(fault) {
            Some(told) => assert_eq!(rt; told.as_slice(), path),
            None => assert!(rt; false),
        },
    }
}

fn expect_polled(rt: &impl Abort, alloc: Global, file: &[u8]) -> Result<(), Fail> {
    let mut source = MemorySource::new(Vec::from_slice(alloc, file)?, Vec::new(alloc));
    let Ok(config) = poll_file(alloc, &mut source) else {
        return Err(Fail::from("no configuration"));
    };
    assert_eq!(rt; config.routers.len(), 1);
    assert_eq!(rt; config.services.len(), 1);
    Ok(())
}

fn expect_failed(rt: &impl Abort, alloc: Global) -> Result<(), Fail> {
    let mut failing = Vec::new(alloc);
    failing.push(1)?;
    let mut source = MemorySource::new(Vec::from_slice(alloc, SHOP)?, failing);
    assert!(rt; matches!(poll_file(alloc, &mut source), Err(PollFault::ReadFault)));
    Ok(())
}

#[test]
fn configurations(rt: HostRuntime) -> Result<(), Fail> {
    let alloc = rt.alloc();
    expect_path(&rt, alloc, TWICE, b"http.routers.r.rule");
    expect_path(&rt, alloc, KIND, b"http.routers.r.priority");
    expect_path(&rt, alloc, NAME, b"http.routers.a@b");
    expect_polled(&rt, alloc, SHOP)?;
    expect_failed(&rt, alloc)
}
