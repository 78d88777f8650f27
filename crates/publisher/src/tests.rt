//! Loads from memory and from a real file.
use crate::{Files, LoadStep, MemoryFiles, StdFiles};
use px_base::{Bytes, List};
use std::alloc::Global;
use std::fs;
use std::process::Abort;
use std::test::Fail;

// Two texts, of whose loads the second fails.
fn two_texts(alloc: Global) -> Result<MemoryFiles, Fail> {
    let mut texts = List::new(alloc);
    texts.push(Bytes::from_slice(alloc, b"first")?)?;
    texts.push(Bytes::from_slice(alloc, b"last")?)?;
    let mut failing = Vec::new(alloc);
    failing.push(2)?;
    Ok(MemoryFiles::new(alloc, texts, failing))
}

fn loads(
    rt: &impl Abort,
    alloc: Global,
    files: &mut impl Files,
    path: &[u8],
    step: LoadStep,
    bytes: &[u8],
) {
    let mut out = Vec::new(alloc);
    assert_eq!(rt; files.load(path, &mut out), step);
    assert_eq!(rt; out.as_slice(), bytes);
}

#[test]
fn from_memory(rt: HostRuntime) -> Result<(), Fail> {
    let alloc = rt.alloc();
    let mut files = two_texts(alloc)?;
    loads(&rt, alloc, &mut files, b"a", LoadStep::Done, b"first");
    loads(&rt, alloc, &mut files, b"b", LoadStep::Failed, b"");
    loads(&rt, alloc, &mut files, b"c", LoadStep::Done, b"last");
    assert_eq!(rt; files.loads().len(), 3);
    Ok(())
}

#[test]
fn from_the_system(rt: HostRuntime) -> Result<(), Fail> {
    let alloc = rt.alloc();
    fs::write(&rt, "loaded.toml", b"text")?;
    let mut files = StdFiles::new(rt, alloc);
    loads(
        &rt,
        alloc,
        &mut files,
        b"loaded.toml",
        LoadStep::Done,
        b"text",
    );
    loads(
        &rt,
        alloc,
        &mut files,
        b"absent.toml",
        LoadStep::Failed,
        b"",
    );
    Ok(())
}
