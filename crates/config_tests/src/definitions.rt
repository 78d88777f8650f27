//! Small trees against the schema.

use dyn_config::{ConfigFault, Style, decode, refer};
use field_tree::{Fields, Tree};
use px_base::{Bytes, Memory};
use std::alloc::Global;
use std::process::Abort;
use std::test::Fail;

fn nest(alloc: Global, key: &[u8], value: Tree) -> Result<Tree, Memory> {
    let mut fields = Fields::new(alloc);
    fields.push(Bytes::from_slice(alloc, key)?, value)?;
    Ok(Tree::Table(fields))
}

fn text(alloc: Global, text: &[u8]) -> Result<Tree, Memory> {
    Ok(Tree::Text(Bytes::from_slice(alloc, text)?))
}

fn router(alloc: Global, name: &[u8], router: Tree) -> Result<Tree, Memory> {
    nest(
        alloc,
        b"http",
        nest(alloc, b"routers", nest(alloc, name, router)?)?,
    )
}

#[test]
fn trees(rt: HostRuntime) -> Result<(), Fail> {
    let alloc = rt.alloc();
    kind(&rt, alloc)?;
    name(&rt, alloc)?;
    rule(&rt, alloc)?;
    let referred = refer(alloc, 1, b"s")?;
    assert_eq!(rt; referred.as_slice(), b"s@consul".as_slice());
    Ok(())
}

fn kind(rt: &impl Abort, alloc: Global) -> Result<(), Fail> {
    let tree = router(alloc, b"r", nest(alloc, b"priority", text(alloc, b"x")?)?)?;
    let Err(ConfigFault::Kind { path }) = decode(alloc, &tree, Style::Typed) else {
        return Err(Fail::from("a text is no number"));
    };
    assert_eq!(rt; path.as_slice(), b"http.routers.r.priority".as_slice());
    Ok(())
}

fn name(rt: &impl Abort, alloc: Global) -> Result<(), Fail> {
    let tree = router(alloc, b"a@b", nest(alloc, b"rule", text(alloc, b"x")?)?)?;
    let Err(ConfigFault::BadName { path }) = decode(alloc, &tree, Style::Typed) else {
        return Err(Fail::from("a name has no @"));
    };
    assert_eq!(rt; path.as_slice(), b"http.routers.a@b".as_slice());
    Ok(())
}

fn rule(rt: &impl Abort, alloc: Global) -> Result<(), Fail> {
    let tree = router(alloc, b"r", nest(alloc, b"Rule", text(alloc, b"x")?)?)?;
    let config = decode(alloc, &tree, Style::Typed).map_err(|_| Fail::from("a router"))?;
    assert_eq!(rt; config.routers.len(), 1);
    assert_eq!(rt;
        config.routers.as_slice()[0].1.rule.as_slice(),
        b"x".as_slice()
    );
    Ok(())
}
