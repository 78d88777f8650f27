//! Services that refer to services.
use crate::samples::tells;
use std::alloc::Global;
use std::process::Abort;
use std::test::Fail;

// A balancer `s`, and so many weighted services of which each has the one before it as its only child.
fn ladder(alloc: Global, count: u32) -> Result<String, Fail> {
    let mut text = String::from_str(
        alloc,
        "[[http.services.s.loadBalancer.servers]]\nurl = \"http://a:1\"\n\
[[http.services.w1001.weighted.services]]\nname = \"s\"\nweight = 1\n",
    )?;
    for below in 1..count {
        let child = u64::from(below) + 1_000;
        let service = format!(in alloc;
            "[[http.services.w{}.weighted.services]]\nname = \"w{child}\"\nweight = 1\n",
            child + 1
        )?;
        text.push_str(service.as_str())?;
    }
    Ok(text)
}

// What becomes of the service with this many below it.
fn state(alloc: Global, below: u64) -> Result<String, Fail> {
    if below < 8 {
        Ok(format!(in alloc; "weighted node {below}")?)
    } else if below == 8 {
        Ok(String::from_str(alloc, "disabled TooDeep")?)
    } else {
        Ok(String::from_str(alloc, "disabled Child")?)
    }
}

// The lines of a ladder: services are 8 deep at most.
fn ladder_lines(alloc: Global, count: u32) -> Result<String, Fail> {
    let mut text = String::from_str(
        alloc,
        "service s@file balancer node 0\nserver 0 0 a:1 weight 1\n",
    )?;
    for place in 0..count {
        let below = u64::from(place) + 1;
        let state = state(alloc, below)?;
        let line = format!(in alloc; "service w{}@file {state}\n", below + 1_000)?;
        text.push_str(line.as_str())?;
    }
    Ok(text)
}

fn climbs(rt: &impl Abort, alloc: Global, count: u32) -> Result<(), Fail> {
    let file = ladder(alloc, count)?;
    let wanted = ladder_lines(alloc, count)?;
    tells(rt, alloc, file.as_str(), "", wanted.as_str())
}

#[test]
fn services_are_8_deep(rt: HostRuntime) -> Result<(), Fail> {
    let alloc = rt.alloc();
    climbs(&rt, alloc, 7)?;
    climbs(&rt, alloc, 8)?;
    climbs(&rt, alloc, 9)?;
    climbs(&rt, alloc, 499)
}

// So many weighted services, each of which has the next one as its only child, and the last one the first.
fn ring(alloc: Global, count: u32) -> Result<String, Fail> {
    let mut text = String::new(alloc);
    for place in 0..count {
        let place = u64::from(place);
        let next = if place + 1 < u64::from(count) {
            place + 1
        } else {
            0
        };
        let service = format!(in alloc;
            "[[http.services.w{}.weighted.services]]\nname = \"w{}\"\nweight = 1\n",
            place + 1_000,
            next + 1_000
        )?;
        text.push_str(service.as_str())?;
    }
    Ok(text)
}

// Appends the lines of a ring.
fn push_ring_lines(alloc: Global, count: u32, text: &mut String) -> Result<(), Fail> {
    for place in 0..count {
        let line = format!(in alloc;
            "service w{}@file disabled Cycle\n",
            u64::from(place) + 1_000
        )?;
        text.push_str(line.as_str())?;
    }
    Ok(())
}

fn circles(rt: &impl Abort, alloc: Global, count: u32) -> Result<(), Fail> {
    let file = ring(alloc, count)?;
    let mut wanted = String::new(alloc);
    push_ring_lines(alloc, count, &mut wanted)?;
    tells(rt, alloc, file.as_str(), "", wanted.as_str())
}

// What leads into a ring isn't part of it.
fn leads_in(rt: &impl Abort, alloc: Global) -> Result<(), Fail> {
    let mut file = ring(alloc, 499)?;
    file.push_str("[http.services.f.failover]\nservice = \"w1200\"\nfallback = \"w1300\"\n")?;
    let mut wanted = String::from_str(alloc, "service f@file disabled Child\n")?;
    push_ring_lines(alloc, 499, &mut wanted)?;
    tells(rt, alloc, file.as_str(), "", wanted.as_str())
}

#[test]
fn rings(rt: HostRuntime) -> Result<(), Fail> {
    let alloc = rt.alloc();
    circles(&rt, alloc, 1)?;
    circles(&rt, alloc, 500)?;
    leads_in(&rt, alloc)
}

const IN_CONSUL: &str = "[[http.services.s.loadBalancer.servers]]\nurl = \"http://a:1\"\n";

// A name without `@` is one of the same provider.
#[test]
fn children_of_the_other_provider(rt: HostRuntime) -> Result<(), Fail> {
    let alloc = rt.alloc();
    tells(
        &rt,
        alloc,
        "[[http.services.w.weighted.services]]\nname = \"s\"\nweight = 1\n",
        IN_CONSUL,
        "service s@consul balancer node 0\nserver 0 0 a:1 weight 1\nservice w@file disabled Missing\n",
    )?;
    tells(
        &rt,
        alloc,
        "[[http.services.w.weighted.services]]\nname = \"s@consul\"\nweight = 1\n",
        IN_CONSUL,
        "service s@consul balancer node 0\nserver 0 0 a:1 weight 1\nservice w@file weighted node 1\n",
    )
}
