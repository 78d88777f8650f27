//! What chains stand for and why they don't, on hostile inputs too, in ample memory.
use crate::{Flat, MiddlewareFault, Node, State, flatten, states_of};
use px_base::{List, Memory};
use std::alloc::Global;
use std::test::Fail;

// A chain of these members. One that is 999 isn't declared.
fn chain(alloc: Global, members: &[usize]) -> Result<Node, Memory> {
    let mut list = List::new(alloc);
    for member in members {
        list.push(if *member == 999 { None } else { Some(*member) })?;
    }
    Ok(Node::Chain(list))
}

// A stage, then chains of these members.
fn nodes_of(alloc: Global, chains: &[&[usize]]) -> Result<List<Node>, Memory> {
    let mut nodes = List::new(alloc);
    nodes.push(Node::Stage)?;
    for members in chains {
        nodes.push(chain(alloc, members)?)?;
    }
    Ok(nodes)
}

fn flats(alloc: Global, nodes: &List<Node>) -> Result<List<Flat>, Fail> {
    Ok(flatten(alloc, nodes.as_slice())?)
}

// The states of these middlewares.
fn states(alloc: Global, nodes: &List<Node>) -> Result<List<State>, Fail> {
    let nodes = nodes.as_slice();
    let flats = flatten(alloc, nodes)?;
    Ok(states_of(alloc, nodes, flats.as_slice())?)
}

fn are(alloc: Global, chains: &[&[usize]], wanted: &[State]) -> Result<bool, Fail> {
    let nodes = nodes_of(alloc, chains)?;
    let found = states(alloc, &nodes)?;
    Ok(found.as_slice() == wanted)
}

const ONE: State = State::Enabled(1);

const MISSING: State = State::Disabled(MiddlewareFault::Missing);

const CYCLE: State = State::Disabled(MiddlewareFault::Cycle);

const CHILD: State = State::Disabled(MiddlewareFault::Child);

const TOO_DEEP: State = State::Disabled(MiddlewareFault::TooDeep);

#[test]
fn first_faults(rt: HostRuntime) -> Result<(), Fail> {
    let alloc = rt.alloc();
    // Two that lead to each other, and one that leads to them.
    assert!(rt; are(alloc, &[&[2], &[1], &[0, 1]], &[ONE, CYCLE, CYCLE, CHILD])?);
    // One that has itself; one that isn't declared comes before a cycle, which goes on through it.
    assert!(rt; are(alloc, &[&[0, 1]], &[ONE, CYCLE])?);
    assert!(rt; are(alloc, &[&[2], &[999, 1]], &[ONE, CYCLE, MISSING])?);
    // An empty chain stands for nothing and can be used.
    assert!(rt;
        are(
            alloc,
            &[&[], &[1, 0, 1, 0]],
            &[ONE, State::Enabled(0), State::Enabled(2)]
        )?
    );
    Ok(())
}

// Chains of which each has the one before it as a member, so many times.
fn ladder(alloc: Global, count: usize, times: u32) -> Result<List<Node>, Memory> {
    let mut nodes = List::new(alloc);
    nodes.push(Node::Stage)?;
    for below in 0..count {
        let mut members = List::new(alloc);
        for _ in 0..times {
            members.push(Some(below))?;
        }
        nodes.push(Node::Chain(members))?;
    }
    Ok(nodes)
}

#[test]
fn limits(rt: HostRuntime) -> Result<(), Fail> {
    let alloc = rt.alloc();
    // 8 deep and 9 deep.
    let deep = states(alloc, &ladder(alloc, 9, 1)?)?;
    assert!(rt;
        deep.as_slice() == [ONE, ONE, ONE, ONE, ONE, ONE, ONE, ONE, TOO_DEEP, CHILD].as_slice()
    );
    // 64 of them and 65.
    let wide = states(alloc, &ladder(alloc, 1, 64)?)?;
    assert!(rt; wide.as_slice() == [ONE, State::Enabled(64)].as_slice());
    let wider = states(alloc, &ladder(alloc, 1, 65)?)?;
    assert!(rt; wider.as_slice() == [ONE, TOO_DEEP].as_slice());
    Ok(())
}

#[test]
fn hostile_graphs_take_no_time(rt: HostRuntime) -> Result<(), Fail> {
    let alloc = rt.alloc();
    // 500 chains, each with the one before it twice, would stand for 2 ^ 500.
    let doubled = states(alloc, &ladder(alloc, 500, 2)?)?;
    assert_eq!(rt; doubled.get(6), Some(&State::Enabled(64)));
    assert_eq!(rt; doubled.get(7), Some(&TOO_DEEP));
    assert_eq!(rt; doubled.get(500), Some(&CHILD));
    // 500 in one cycle.
    let mut ring = List::new(alloc);
    for place in 0..500usize {
        let mut members = List::new(alloc);
        members.push(Some((place + 1) % 500))?;
        ring.push(Node::Chain(members))?;
    }
    for state in states(alloc, &ring)?.as_slice() {
        assert_eq!(rt; *state, CYCLE);
    }
    Ok(())
}

#[test]
fn members_stand_in_order(rt: HostRuntime) -> Result<(), Fail> {
    let alloc = rt.alloc();
    let mut nodes = nodes_of(alloc, &[&[3, 0], &[1, 3]])?;
    nodes.push(Node::Stage)?;
    let flats = flats(alloc, &nodes)?;
    match flats.get(2) {
        Some(Some(places)) => assert_eq!(rt; places.as_slice(), [3, 0, 3].as_slice()),
        _ => return Err(Fail::from("a flattened list")),
    }
    Ok(())
}
