//! Texts of faults.
use crate::{push_file_fault, push_router_fault};
use dyn_config::ConfigFault;
use file_provider::FileFault;
use px_base::Bytes;
use router_table::RouterFault;
use rule_lang::RuleFault;
use std::test::Fail;

#[test]
fn texts(rt: HostRuntime) -> Result<(), Fail> {
    let alloc = rt.alloc();
    let mut out = Vec::new(alloc);
    let path = Bytes::from_slice(alloc, b"http.routers.a")?;
    push_file_fault(&FileFault::Config(ConfigFault::Kind { path }), &mut out)?;
    out.push(b'|')?;
    push_router_fault(RouterFault::Rule(RuleFault::Arity { at: 0 }), &mut out)?;
    assert_eq!(rt;
        out.as_slice(),
        b"config Kind http.routers.a|Rule Arity 0".as_slice()
    );
    Ok(())
}
