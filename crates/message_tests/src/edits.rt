//! Lines that are set, removed and looked up.
use http_wire::FieldLines;
use std::alloc::{AllocError, Global};
use std::process::Abort;
use std::test::Fail;

// Lines of the names `A`, `bb`, `a`, `C` and `a`.
fn five_lines(alloc: Global) -> Result<FieldLines, AllocError> {
    let mut lines = FieldLines::new(alloc);
    lines.push(b"A", b"1")?;
    lines.push(b"bb", b"")?;
    lines.push(b"a", b"3")?;
    lines.push(b"C", b"four")?;
    lines.push(b"a", b"5")?;
    Ok(lines)
}

fn expect_set(
    rt: &impl Abort,
    alloc: Global,
    name: &str,
    value: &str,
    wanted: &str,
) -> Result<(), Fail> {
    let mut lines = five_lines(alloc)?;
    lines.set(name.as_bytes(), value.as_bytes())?;
    assert_eq!(rt; lines.text(), wanted.as_bytes());
    assert_eq!(rt; lines.first(name.as_bytes()), Some(value.as_bytes()));
    Ok(())
}

// In the place of the first, with the spelling that is given; without the others.
fn sets(rt: &impl Abort, alloc: Global) -> Result<(), Fail> {
    expect_set(rt, alloc, "a", "longer", "a: longer\r\nbb: \r\nC: four\r\n")?;
    expect_set(rt, alloc, "A", "", "A: \r\nbb: \r\nC: four\r\n")?;
    expect_set(
        rt,
        alloc,
        "BB",
        "x",
        "A: 1\r\nBB: x\r\na: 3\r\nC: four\r\na: 5\r\n",
    )?;
    expect_set(
        rt,
        alloc,
        "c",
        "4",
        "A: 1\r\nbb: \r\na: 3\r\nc: 4\r\na: 5\r\n",
    )?;
    expect_set(
        rt,
        alloc,
        "d",
        "6",
        "A: 1\r\nbb: \r\na: 3\r\nC: four\r\na: 5\r\nd: 6\r\n",
    )
}

fn expect_removed(rt: &impl Abort, alloc: Global, name: &str, wanted: &str) -> Result<(), Fail> {
    let mut lines = five_lines(alloc)?;
    lines.remove(name.as_bytes());
    assert_eq!(rt; lines.text(), wanted.as_bytes());
    assert_eq!(rt; lines.first(name.as_bytes()), None);
    Ok(())
}

fn removals(rt: &impl Abort, alloc: Global) -> Result<(), Fail> {
    expect_removed(rt, alloc, "a", "bb: \r\nC: four\r\n")?;
    expect_removed(rt, alloc, "Bb", "A: 1\r\na: 3\r\nC: four\r\na: 5\r\n")?;
    expect_removed(
        rt,
        alloc,
        "b",
        "A: 1\r\nbb: \r\na: 3\r\nC: four\r\na: 5\r\n",
    )
}

// One after another on the same lines, down to none and up again.
fn turns(rt: &impl Abort, alloc: Global) -> Result<(), Fail> {
    let mut lines = five_lines(alloc)?;
    lines.remove(b"A");
    lines.set(b"X-Replaced-Path", b"/app")?;
    lines.set(b"c", b"")?;
    lines.push(b"bb", b"last")?;
    assert_eq!(rt;
        lines.text(),
        b"bb: \r\nc: \r\nX-Replaced-Path: /app\r\nbb: last\r\n".as_slice()
    );
    assert_eq!(rt; lines.first(b"BB"), Some(b"".as_slice()));
    lines.remove(b"bb");
    lines.remove(b"x-replaced-path");
    lines.remove(b"C");
    assert_eq!(rt; lines.text(), b"".as_slice());
    lines.set(b"E", b"1")?;
    lines.set(b"e", b"2")?;
    assert_eq!(rt; lines.text(), b"e: 2\r\n".as_slice());
    Ok(())
}

#[test]
fn edits(rt: HostRuntime) -> Result<(), Fail> {
    let alloc = rt.alloc();
    sets(&rt, alloc)?;
    removals(&rt, alloc)?;
    turns(&rt, alloc)
}
