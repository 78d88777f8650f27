//! How many children and nodes a service may have.
use crate::samples::{repeated, tells};
use std::alloc::Global;
use std::process::Abort;
use std::test::Fail;

const SERVER: &str = "[[http.services.s.loadBalancer.servers]]\nurl = \"http://127.0.0.1:9000\"\n";

const SERVED: &str = "service s@file balancer node 0\nserver 0 0 127.0.0.1:9000 weight 1\n";

const CHILD: &str = "[[http.services.w.weighted.services]]\nname = \"s\"\nweight = 1\n";

const MAIN: &str = "[[http.services.s.loadBalancer.servers]]\nurl = \"http://127.0.0.1:9000\"\n\
[http.services.m.mirroring]\nservice = \"s\"\n";

const MIRROR: &str = "[[http.services.m.mirroring.mirrors]]\nname = \"s\"\npercent = 10\n";

// The lines of a balancer with so many servers.
fn servers_lines(alloc: Global, count: u32) -> Result<String, Fail> {
    let mut text = String::from_str(alloc, "service s@file balancer node 0\n")?;
    for place in 0..count {
        let line = format!(in alloc; "server 0 {place} 127.0.0.1:9000 weight 1\n")?;
        text.push_str(line.as_str())?;
    }
    Ok(text)
}

fn servers(rt: &impl Abort, alloc: Global) -> Result<(), Fail> {
    let most = repeated(alloc, "", SERVER, 64)?;
    let wanted = servers_lines(alloc, 64)?;
    tells(rt, alloc, most.as_str(), "", wanted.as_str())?;
    let more = repeated(alloc, "", SERVER, 65)?;
    let wanted = "service s@file disabled TooManyChildren\n";
    tells(rt, alloc, more.as_str(), "", wanted)
}

// A weighted service with so many children has these lines. With 64 it is a tree of 65 nodes.
fn weighted(rt: &impl Abort, alloc: Global, count: u32, end: &str) -> Result<(), Fail> {
    let file = repeated(alloc, SERVER, CHILD, count)?;
    let wanted = format!(in alloc; "{SERVED}service w@file {end}\n")?;
    tells(rt, alloc, file.as_str(), "", wanted.as_str())
}

// A mirroring service with so many mirrors is told so.
fn mirroring(rt: &impl Abort, alloc: Global, count: u32, end: &str) -> Result<(), Fail> {
    let file = repeated(alloc, MAIN, MIRROR, count)?;
    let wanted = format!(in alloc; "service m@file {end}\n{SERVED}")?;
    tells(rt, alloc, file.as_str(), "", wanted.as_str())
}

#[test]
fn children_are_64(rt: HostRuntime) -> Result<(), Fail> {
    let alloc = rt.alloc();
    servers(&rt, alloc)?;
    weighted(&rt, alloc, 63, "weighted node 1")?;
    weighted(&rt, alloc, 64, "disabled TooDeep")?;
    weighted(&rt, alloc, 65, "disabled TooManyChildren")?;
    // The main service counts as well.
    mirroring(&rt, alloc, 62, "mirroring node 1")?;
    mirroring(&rt, alloc, 63, "disabled TooDeep")?;
    mirroring(&rt, alloc, 64, "disabled TooManyChildren")
}

// A tree of 63 nodes, of which only six are different, and one above it.
const REPEATED: &str = "[[http.services.s.loadBalancer.servers]]\nurl = \"http://127.0.0.1:9000\"\n\
[http.services.f1.failover]\nservice = \"s\"\nfallback = \"s\"\n\
[http.services.f2.failover]\nservice = \"f1\"\nfallback = \"f1\"\n\
[http.services.f3.failover]\nservice = \"f2\"\nfallback = \"f2\"\n\
[http.services.f4.failover]\nservice = \"f3\"\nfallback = \"f3\"\n\
[http.services.f5.failover]\nservice = \"f4\"\nfallback = \"f4\"\n\
[[http.services.w.weighted.services]]\nname = \"f5\"\nweight = 1\n";

const FAILOVERS: &str = "service f1@file failover node 1\nservice f2@file failover node 2\n\
service f3@file failover node 3\nservice f4@file failover node 4\nservice f5@file failover node 5\n";

#[test]
fn nodes_are_64(rt: HostRuntime) -> Result<(), Fail> {
    let alloc = rt.alloc();
    let wanted = format!(in alloc; "{FAILOVERS}{SERVED}service w@file weighted node 6\n")?;
    tells(&rt, alloc, REPEATED, "", wanted.as_str())?;
    let more = repeated(alloc, REPEATED, CHILD, 1)?;
    let wanted = format!(in alloc; "{FAILOVERS}{SERVED}service w@file disabled TooDeep\n")?;
    tells(&rt, alloc, more.as_str(), "", wanted.as_str())
}
