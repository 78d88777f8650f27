//! How large weights may be.
use crate::samples::tells;
use std::alloc::Global;
use std::process::Abort;
use std::test::Fail;

// A balancer whose two servers have these weights.
fn balancer(alloc: Global, first: u32, second: u32) -> Result<String, Fail> {
    Ok(format!(in alloc;
        "[[http.services.b.loadBalancer.servers]]\nurl = \"http://a:1\"\nweight = {first}\n\
[[http.services.b.loadBalancer.servers]]\nurl = \"http://a:2\"\nweight = {second}\n"
    )?)
}

fn balances(rt: &impl Abort, alloc: Global, first: u32, second: u32) -> Result<(), Fail> {
    let file = balancer(alloc, first, second)?;
    let wanted = format!(in alloc;
        "service b@file balancer node 0\nserver 0 0 a:1 weight {first}\nserver 0 1 a:2 weight {second}\n"
    )?;
    tells(rt, alloc, file.as_str(), "", wanted.as_str())
}

fn is_refused(rt: &impl Abort, alloc: Global, first: u32, second: u32) -> Result<(), Fail> {
    let file = balancer(alloc, first, second)?;
    let wanted = "service b@file disabled WeightsTooLarge\n";
    tells(rt, alloc, file.as_str(), "", wanted)
}

// A weighted service whose two children have these weights is told so.
fn shares(rt: &impl Abort, alloc: Global, first: u32, second: u32, end: &str) -> Result<(), Fail> {
    let file = format!(in alloc;
        "[[http.services.s.loadBalancer.servers]]\nurl = \"http://a:1\"\n\
[[http.services.w.weighted.services]]\nname = \"s\"\nweight = {first}\n\
[[http.services.w.weighted.services]]\nname = \"s\"\nweight = {second}\n"
    )?;
    let wanted = format!(in alloc;
        "service s@file balancer node 0\nserver 0 0 a:1 weight 1\nservice w@file {end}\n"
    )?;
    tells(rt, alloc, file.as_str(), "", wanted.as_str())
}

#[test]
fn weights_add_up_to_65536(rt: HostRuntime) -> Result<(), Fail> {
    let alloc = rt.alloc();
    balances(&rt, alloc, 65_535, 1)?;
    is_refused(&rt, alloc, 65_536, 1)?;
    // What they have in common doesn't count.
    balances(&rt, alloc, 131_070, 2)?;
    is_refused(&rt, alloc, 131_072, 2)?;
    balances(&rt, alloc, 2_147_483_647, 2_147_483_647)?;
    shares(&rt, alloc, 65_535, 1, "weighted node 1")?;
    shares(&rt, alloc, 65_536, 1, "disabled WeightsTooLarge")
}
