//! A desk that two generations are published on.
ghost use Rattle.std.specs.Prelude.{◌≡◌, IfOk};
ghost use Rattle.desk.specs.Issues.{issue_plan};

use crate::{OneDesk, Shared};
use generation::Generation;
use px_base::Memory;
use std::alloc::Global;
use std::sync::{Arc, Wait};
use std::test::Fail;
use wrr_deadlines::{Drawn, Pick};

fn numbered(alloc: Global, number: u64) -> Result<Arc<Generation, Global>, Memory>
    ensures { IfOk result (λ issue. (issue_plan issue).number ≡ number) }
{
    let generation = Generation::empty(alloc, number)?;
    let Ok(issue) = Arc::new(alloc, generation) else {
        return Err(std::alloc::AllocError);
    };
    Ok(issue)
}

// What a request meets: the number of its generation, a look and a draw at a node.
#[derive(Clone, Copy, Debug, PartialEq, Eq)]
struct Met {
    number: u64,
    mask: u64,
    drawn: Drawn,
}

fn request<R: Wait, S: Shared>(rt: &R, shared: &mut S, node: u32) -> Result<Met, Memory> {
    let issue = shared.pin()?;
    shared.attend(rt, &issue)?;
    let number = issue.number();
    let mask = shared.look(number, node);
    let drawn = shared.draw(rt, number, node, mask);
    Ok(Met {
        number,
        mask,
        drawn,
    })
}

fn expected(number: u64, from: u64, to: u64) -> Met {
    let child = 0;
    Met {
        number,
        mask: 1,
        drawn: Drawn::Pick(Pick { from, to, child }),
    }
}

// How many requests at two nodes were pinned, and the numbers and counts that the desk keeps of them.
fn steady<R: Wait>(rt: &R, alloc: Global) -> Result<(u64, usize, usize), Memory> {
    let mut desk = OneDesk::new(alloc, numbered(alloc, 4)?)?;
    for at in 0..9u32 {
        request(rt, &mut desk, at % 2)?;
    }
    let seats = &desk.seats;
    Ok((
        desk.timeline.newest.pins,
        seats.numbers.len(),
        seats.counts.len(),
    ))
}

// What is met at a node, at another one, at the first again, and after the number was given up.
fn by_turns<R: Wait>(rt: &R, desk: &mut OneDesk) -> Result<[Met; 5], Memory> {
    let first = request(rt, desk, 0)?;
    let second = request(rt, desk, 0)?;
    let other = request(rt, desk, 7)?;
    let third = request(rt, desk, 0)?;
    desk.retire(1);
    let anew = request(rt, desk, 0)?;
    Ok([first, second, other, third, anew])
}

#[test]
fn one_desk(rt: HostRuntime) -> Result<(), Fail> {
    let alloc = rt.alloc();
    let mut desk = OneDesk::new(alloc, numbered(alloc, 0)?)?;
    desk.publish(numbered(alloc, 1)?)?;
    assert_eq!(rt; desk.number(), 1);
    let wanted = [
        expected(1, 0, 1),
        expected(1, 1, 2),
        expected(1, 0, 1),
        expected(1, 2, 3),
        expected(1, 0, 1),
    ];
    assert_eq!(rt; by_turns(&rt, &mut desk)?, wanted);
    assert_eq!(rt; steady(&rt, alloc)?, (9, 1, 2));
    Ok(())
}
