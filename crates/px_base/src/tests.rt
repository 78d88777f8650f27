//! A source and a sink that fail in mid-stream, the bounds of `read_all`, decimals, and a caller of `List`.
ghost use Rattle.std.specs.Prelude.{◌≡◌, IfOk};

use crate::{
    Bytes, List, Memory, MemorySink, MemorySource, ReadFault, ReadStep, Source, StdSink, StdSource,
    WriteFault, cut_at_colon, fold_equal, print_decimal, read_all, read_decimal, write_all,
};
use std::alloc::Global;
use std::process::Abort;
use std::test::Fail;

// A type with public lists, as the crates above have them.
#[derive(Debug, Drop, PartialEq, Eq)]
struct Leaf {
    value: Bytes,
    parts: List<Bytes>,
}

fn leaf_of(alloc: Global, value: &[u8]) -> Result<Leaf, Memory>
    ensures { IfOk result (λ leaf. leaf.value ≡ value.now) }
{
    Ok(Leaf {
        value: Bytes::from_slice(alloc, value)?,
        parts: List::new(alloc),
    })
}

fn source_of(alloc: Global, text: &[u8], failing: &[u64]) -> Result<MemorySource, Memory> {
    Ok(MemorySource::new(
        Vec::from_slice(alloc, text)?,
        Vec::from_slice(alloc, failing)?,
    ))
}

// The second read fails and gives nothing.
fn second_read_fails(rt: &impl Abort, alloc: Global) -> Result<(), Memory> {
    let mut room = [0u8; 4];
    let mut source = source_of(alloc, b"abcdef", &[2])?;
    let steps = [
        source.read(&mut room),
        source.read(&mut room),
        source.read(&mut room),
        source.read(&mut room),
    ];
    let wanted = [
        ReadStep::Got(4),
        ReadStep::Failed,
        ReadStep::Got(2),
        ReadStep::End,
    ];
    assert_eq!(rt; steps, wanted);
    Ok(())
}

// All of `abcdef` under a limit.
fn read_under(
    alloc: Global,
    limit: usize,
    failing: &[u64],
) -> Result<Result<Vec<u8>, ReadFault>, Memory> {
    let mut source = source_of(alloc, b"abcdef", failing)?;
    Ok(read_all(alloc, &mut source, limit))
}

fn reads_to_the_limit(rt: &impl Abort, alloc: Global) -> Result<(), Memory> {
    match read_under(alloc, 6, &[])? {
        Ok(read) => assert_eq!(rt; read.as_slice(), b"abcdef".as_slice()),
        Err(_) => panic!(rt; "exactly the limit"),
    }
    let over = read_under(alloc, 5, &[])?.err();
    let failed = read_under(alloc, 6, &[2])?.err();
    assert_eq!(rt;
        [over, failed],
        [Some(ReadFault::TooLong), Some(ReadFault::Failed)]
    );
    Ok(())
}

// The second write fails and takes nothing.
fn second_write_fails(rt: &impl Abort, alloc: Global) -> Result<(), Memory> {
    let mut sink = MemorySink::new(alloc, Vec::from_slice(alloc, &[2])?);
    let steps = [
        write_all(&mut sink, b"abc"),
        write_all(&mut sink, b"def"),
        write_all(&mut sink, b"ghi"),
    ];
    assert_eq!(rt; steps, [Ok(()), Err(WriteFault), Ok(())]);
    assert_eq!(rt; sink.held(), b"abcghi".as_slice());
    Ok(())
}

// The adapters over std's readers and writers.
fn adapters(rt: &impl Abort, alloc: Global) {
    let mut reader = StdSource::new(b"abcdef".as_slice());
    match read_all(alloc, &mut reader, 6) {
        Ok(read) => assert_eq!(rt; read.as_slice(), b"abcdef".as_slice()),
        Err(_) => panic!(rt; "a slice never fails"),
    }
    let mut writer = StdSink::new(Vec::new(alloc));
    assert_eq!(rt; write_all(&mut writer, b"abc"), Ok(()));
}

#[test]
fn sources_and_sinks(rt: HostRuntime) -> Result<(), Fail> {
    let alloc = rt.alloc();
    second_read_fails(&rt, alloc)?;
    reads_to_the_limit(&rt, alloc)?;
    second_write_fails(&rt, alloc)?;
    adapters(&rt, alloc);
    Ok(())
}

fn prints(rt: &impl Abort, alloc: Global, n: u64, digits: &[u8]) -> Result<(), Memory> {
    let mut out = Vec::new(alloc);
    print_decimal(n, &mut out)?;
    assert_eq!(rt; out.as_slice(), digits);
    assert_eq!(rt; read_decimal(digits), Some(n));
    Ok(())
}

fn reads_decimals(rt: &impl Abort) {
    let read = [
        read_decimal(b"007"),
        read_decimal(b"18446744073709551616"),
        read_decimal(b"000000000000000000000"),
        read_decimal(b""),
        read_decimal(b"+7"),
        read_decimal(b"1:"),
    ];
    assert_eq!(rt; read, [Some(7), None, None, None, None, None]);
}

fn texts(rt: &impl Abort) {
    let equal = [fold_equal(b"Host", b"hOST"), fold_equal(b"@[", b"`{")];
    assert_eq!(rt; equal, [true, false]);
    match cut_at_colon(b"a:b:c") {
        Some((_, after)) => assert_eq!(rt; after, b"b:c".as_slice()),
        None => panic!(rt; "there is a colon"),
    }
}

fn lists(rt: &impl Abort, alloc: Global) -> Result<(), Memory> {
    let mut leaf = leaf_of(alloc, b"ab")?;
    let same = leaf == leaf_of(alloc, b"ab")?;
    leaf.value.push(b'c')?;
    let other = leaf == leaf_of(alloc, b"ab")?;
    assert_eq!(rt; [same, other], [true, false]);
    assert_eq!(rt; leaf.value.get(2), Some(&b'c'));
    assert_eq!(rt; leaf.value.iter().count(), 3);
    assert_eq!(rt; leaf.value.into_vec().as_slice(), b"abc".as_slice());
    Ok(())
}

#[test]
fn decimals_and_lists(rt: HostRuntime) -> Result<(), Fail> {
    let alloc = rt.alloc();
    prints(&rt, alloc, 0, b"0")?;
    prints(&rt, alloc, 7, b"7")?;
    prints(&rt, alloc, u64::MAX, b"18446744073709551615")?;
    reads_decimals(&rt);
    texts(&rt);
    lists(&rt, alloc)?;
    Ok(())
}
