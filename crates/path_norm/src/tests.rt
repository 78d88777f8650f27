//! Paths of the RFCs, and ones that try to pass a rule.
use super::{PathFault, normalise};
use std::alloc::Global;
use std::process::Abort;
use std::test::Fail;

fn expect_normal(rt: &impl Abort, alloc: Global, path: &[u8], normal: &[u8]) -> Result<(), Fail> {
    let mut out = b"before".to_vec(alloc)?;
    assert!(rt; matches!(path, [b'/', ..]));
    assert!(rt; normalise(path, &mut out).is_ok());
    assert_eq!(rt; out.as_slice(), normal);
    Ok(())
}

#[test]
fn paths(rt: HostRuntime) -> Result<(), Fail> {
    let alloc = rt.alloc();
    expect_normal(&rt, alloc, b"/", b"/")?;
    expect_normal(&rt, alloc, b"/a/%2e%2e/adm%69n", b"/admin")?;
    expect_normal(&rt, alloc, b"/a/./b/../c/.", b"/a/c/")?;
    expect_normal(&rt, alloc, b"/..", b"/")?;
    expect_normal(&rt, alloc, b"/%2f%7e", b"/%2F~")?;
    expect_normal(&rt, alloc, b"/a//../b", b"/a/b")?;
    expect_normal(&rt, alloc, b"//a/", b"//a/")?;
    expect_normal(&rt, alloc, b"/a/...", b"/a/...")?;
    expect_normal(&rt, alloc, b"/%252e%252e/x", b"/%252e%252e/x")?;
    // RFC 3986 section 5.2.4.
    expect_normal(&rt, alloc, b"/a/b/c/./../../g", b"/a/g")?;
    let mut out = b"before".to_vec(alloc)?;
    assert!(rt; normalise(b"/%2", &mut out) == Err(PathFault::BadEscape { at: 1 }));
    assert!(rt; out.is_empty());
    assert!(rt; normalise(b"/a%%41", &mut out) == Err(PathFault::BadEscape { at: 2 }));
    assert!(rt; normalise(b"/%2g", &mut out) == Err(PathFault::BadEscape { at: 1 }));
    assert!(rt; normalise(b"/%2/0", &mut out) == Err(PathFault::BadEscape { at: 1 }));
    Ok(())
}
