//! The schedule as a table of its first period, which then repeats: a pop is a look-up.

ghost use Rattle.std.specs.Prelude.{◌≡◌, ℕ, ◌+◌, ◌^◌, ◌<◌, ◌≤◌, List, length, IfOk};
ghost use Rattle.wrr_deadlines.specs.Schedule.{IsWeighted};
ghost use Rattle.wrr_deadlines.specs.Turn.{popped_child};
ghost use Rattle.wrr_deadlines.specs.Reduced.{period_len};
ghost use Rattle.wrr_deadlines.specs.Choice.{HasUp, PicksFrom, Draws};

use crate::Memory;
use crate::choice::{Drawn, Pick, is_up};
use crate::reduced::{any_up, period_of};
use crate::schedule::{Edf, LAST_POP};
use std::alloc::Global;
use std::marker::Model;

/// The first period of a schedule: at most 65,536 pops, one byte each.
#[derive(Drop)]
pub struct Period {
    weights: Vec<u32>,
    pops: Vec<u8>,
}

impl Model for Period {
    ghost use Rattle.std.specs.Prelude.{ℕ, List};
    ghost use Rattle.wrr_deadlines.specs.Counted.{IsTabled};

    ghost Value = { List ℕ };

    ghost view = { λ p. p.weights.items };

    ghost invariant = { λ p. IsTabled p.weights.items p.pops.items };
}

impl Period {
    /// The table of these weights.
    pub fn new(alloc: Global, weights: &[u32]) -> Result<Period, Memory>
        requires few { length weights.now ≤ 64 }
        requires short { period_len weights.now ≤ 65536 }
        ensures { IfOk result (λ p. p ≡ weights.now) }
    {
        let own = Vec::from_slice(alloc, weights)?;
        let mut schedule = Edf::new(alloc, weights)?;
        let period = period_of(weights);
        let mut pops = Vec::with_capacity(alloc, period as usize)?;
        for _place in 0..period {
            pops.push(schedule.pop() as u8)?;
        }
        Ok(Period { weights: own, pops })
    }

    /// The number of pops after which the schedule repeats, and 0 where no weight is positive.
    pub fn len(&self) -> u64
        ensures exact { result ≡ period_len self.now }
        ensures short { result ≤ 65536 }
    {
        self.pops.len() as u64
    }

    /// The child of the n-th pop, from 1.
    pub fn child_at(&self, n: u64) -> u32
        requires first { 1 ≤ n }
        requires weighted { IsWeighted self.now }
        ensures popped { result ≡ popped_child self.now n }
        ensures within { result < length self.now }
        ensures few { result < 64 }
    {
        let place = (n - 1) % self.len();
        u32::from(self.pops[place as usize])
    }

    /// The pop of a child in the mask that comes first after the first `from` pops.
    pub fn first_up(&self, from: u64, mask: u64) -> Drawn
        ensures { Draws self.now mask from result }
    {
        if !any_up(&self.weights, mask) {
            return Drawn::NoneUp;
        }
        if from > LAST_POP - self.len() {
            return Drawn::Spent;
        }
        Drawn::Pick(self.draw(from, mask))
    }

    fn draw(&self, from: u64, mask: u64) -> Pick
        requires up { HasUp self.now mask }
        requires more { from + period_len self.now ≤ 2 ^ 62 }
        ensures { PicksFrom self.now mask from result }
    {
        for n in from + 1..from + self.len() + 1 {
            let child = self.child_at(n);
            if is_up(mask, child) {
                return Pick { from, to: n, child };
            }
        }
        unreachable!()
    }
}
