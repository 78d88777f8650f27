//! The worked schedules, by both forms.

ghost use Rattle.std.specs.Prelude.{◌≤◌, length};
ghost use Rattle.wrr_deadlines.specs.Schedule.{IsWeighted};
ghost use Rattle.wrr_deadlines.specs.Reduced.{period_len};

use crate::{Drawn, Edf, Memory, Period, Pick, period_of};
use std::alloc::Global;
use std::test::Fail;

const A: u32 = 0;

const B: u32 = 1;

const C: u32 = 2;

fn popped(alloc: Global, weights: &[u32]) -> Result<Vec<u32>, Memory>
    requires few { length weights.now ≤ 64 }
    requires short { period_len weights.now ≤ 65536 }
    requires weighted { IsWeighted weights.now }
{
    let mut schedule = Edf::new(alloc, weights)?;
    let mut pops = Vec::new(alloc);
    for _ in 0..8 {
        if schedule.taken() < 8 {
            pops.push(schedule.pop())?;
        }
    }
    Ok(pops)
}

fn looked_up(alloc: Global, weights: &[u32]) -> Result<Vec<u32>, Memory>
    requires few { length weights.now ≤ 64 }
    requires short { period_len weights.now ≤ 65536 }
    requires weighted { IsWeighted weights.now }
{
    let table = Period::new(alloc, weights)?;
    let mut pops = Vec::new(alloc);
    for n in 1..9 {
        pops.push(table.child_at(n))?;
    }
    Ok(pops)
}

fn pick(from: u64, to: u64, child: u32) -> Drawn {
    Drawn::Pick(Pick { from, to, child })
}

#[test]
fn pops_by_deadline(rt: HostRuntime) -> Result<(), Fail> {
    let alloc = rt.alloc();
    let three_to_one = [3, 1];
    assert_eq!(rt; period_of(&three_to_one), 4);
    let pops = popped(alloc, &three_to_one)?;
    assert_eq!(rt; pops.as_slice(), [A, A, A, B, A, A, A, B].as_slice());
    let pops = looked_up(alloc, &three_to_one)?;
    assert_eq!(rt; pops.as_slice(), [A, A, A, B, A, A, A, B].as_slice());
    let one_to_two = [1, 2];
    let pops = popped(alloc, &one_to_two)?;
    assert_eq!(rt; pops.as_slice(), [B, A, B, B, A, B, B, A].as_slice());
    let pops = looked_up(alloc, &one_to_two)?;
    assert_eq!(rt; pops.as_slice(), [B, A, B, B, A, B, B, A].as_slice());
    Ok(())
}

#[test]
fn passes_over_children_that_are_down(rt: HostRuntime) -> Result<(), Fail> {
    let alloc = rt.alloc();
    let mut schedule = Edf::new(alloc, &[1, 1, 1])?;
    assert_eq!(rt; schedule.choose(6), pick(0, 2, B));
    assert_eq!(rt; schedule.choose(6), pick(2, 3, C));
    assert_eq!(rt; schedule.choose(6), pick(3, 5, B));
    assert_eq!(rt; schedule.choose(6), pick(5, 6, C));
    let table = Period::new(alloc, &[1, 1, 1])?;
    assert_eq!(rt; table.len(), 3);
    assert_eq!(rt; table.first_up(0, 6), pick(0, 2, B));
    assert_eq!(rt; table.first_up(2, 6), pick(2, 3, C));
    assert_eq!(rt; table.first_up(3, 6), pick(3, 5, B));
    assert_eq!(rt; table.first_up(5, 6), pick(5, 6, C));
    let last = 1 << 62;
    assert_eq!(rt; table.first_up(last - 3, 1), pick(last - 3, last, A));
    assert_eq!(rt; table.first_up(last - 2, 1), Drawn::Spent);
    let mut none = Edf::new(alloc, &[0, 0])?;
    assert_eq!(rt; none.choose(3), Drawn::NoneUp);
    let table = Period::new(alloc, &[0, 0])?;
    assert_eq!(rt; table.first_up(0, 3), Drawn::NoneUp);
    Ok(())
}
