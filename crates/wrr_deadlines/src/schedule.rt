//! The schedule by deadlines: the child whose next job is due first is found anew at each pop.

ghost use Rattle.std.specs.Prelude.{◌≡◌, ℕ, ◌+◌, ◌-◌, ◌^◌, ◌<◌, ◌≤◌, ◌==◌, if◌then◌else◌, Bool, length, slice_index, IfOk};
ghost use Rattle.wrr_deadlines.specs.Schedule.{IsWeighted};
ghost use Rattle.wrr_deadlines.specs.Turn.{earliest, popped_child};
ghost use Rattle.wrr_deadlines.specs.Reduced.{period_len};
ghost use Rattle.wrr_deadlines.specs.Choice.{HasUp, PicksFrom, Draws};
ghost use Rattle.wrr_deadlines.specs.Progress.{Progress, after_draw};

use crate::Memory;
use crate::choice::{Drawn, Pick, is_up};
use crate::reduced::{any_up, period_of};
use std::alloc::Global;
use std::marker::Model;

/// The last pop that a schedule gives.
pub(crate) const LAST_POP: u64 = 1 << 62;

/// A schedule under way. Counts are kept within the period, so that fractions compare in 64 bits.
#[derive(Drop)]
pub struct Edf {
    weights: Vec<u32>,
    counts: Vec<u32>,
    period: u64,
    taken: u64,
}

impl Model for Edf {
    ghost use Rattle.wrr_deadlines.specs.Progress.{Progress};
    ghost use Rattle.wrr_deadlines.specs.Counted.{IsCounted};

    ghost Value = { Progress };

    ghost view = { λ e. record { weights = e.weights.items; taken = e.taken } };

    ghost invariant = { λ e. IsCounted e.weights.items e.counts.items e.period e.taken };
}

impl Edf {
    /// The schedule of these weights, before its first pop.
    pub fn new(alloc: Global, weights: &[u32]) -> Result<Edf, Memory>
        requires few { length weights.now ≤ 64 }
        requires short { period_len weights.now ≤ 65536 }
        ensures { IfOk result (λ e. e ≡ record { weights = weights.now; taken = 0 }) }
    {
        let own = Vec::from_slice(alloc, weights)?;
        let counts = vec![in alloc; 0; weights.len()]?;
        Ok(Edf {
            weights: own,
            counts,
            period: period_of(weights),
            taken: 0,
        })
    }

    /// How many pops were taken.
    pub fn taken(&self) -> u64
        ensures { result ≡ self.now.taken }
    {
        self.taken
    }

    /// The next pop.
    pub fn pop(&mut self) -> u32
        requires weighted { IsWeighted self.old.weights }
        requires more { self.old.taken < 2 ^ 62 }
        ensures popped { result ≡ popped_child self.old.weights (self.old.taken + 1) }
        ensures within { result < length self.old.weights }
        ensures few { result < 64 }
        ensures after { self.new ≡ record self.old { taken = self.old.taken + 1 } }
    {
        let child = due_first(&self.weights, &self.counts);
        self.taken += 1;
        let period_over = self.taken % self.period == 0;
        count_pop(&mut self.counts, child, period_over);
        child as u32
    }

    /// The next pop of a child in the mask. A child that is passed over has had its turn.
    pub fn choose(&mut self, mask: u64) -> Drawn
        ensures drawn { Draws self.old.weights mask self.old.taken result }
        ensures after { self.new ≡ after_draw self.old result }
    {
        if !any_up(&self.weights, mask) {
            return Drawn::NoneUp;
        }
        if self.taken + self.period > LAST_POP {
            return Drawn::Spent;
        }
        Drawn::Pick(self.draw(mask))
    }

    fn draw(&mut self, mask: u64) -> Pick
        requires up { HasUp self.old.weights mask }
        requires more { self.old.taken + period_len self.old.weights ≤ 2 ^ 62 }
        ensures drawn { PicksFrom self.old.weights mask self.old.taken result }
        ensures after { self.new ≡ record self.old { taken = result.to } }
    {
        let from = self.taken;
        for _passed in 0..self.period {
            let child = self.pop();
            if is_up(mask, child) {
                return Pick {
                    from,
                    to: self.taken,
                    child,
                };
            }
        }
        unreachable!()
    }
}

/// The child whose next job is due first, by how many of its jobs were popped.
fn due_first(weights: &[u32], counts: &[u32]) -> usize
    requires same { length counts.now ≡ length weights.now }
    requires small { (i : ℕ) → slice_index counts.now i ≤ 65536 }
    ensures { result ≡ earliest weights.now (λ i. slice_index counts.now i + 1) (length weights.now) }
{
    let mut first = 0;
    for child in 0..weights.len() {
        let job = u64::from(counts[child]) + 1;
        let first_job = u64::from(counts[first]) + 1;
        if job * u64::from(weights[first]) < first_job * u64::from(weights[child]) {
            first = child;
        }
    }
    first
}

/// Counts a pop of this child, and begins again where a period is over.
fn count_pop(counts: &mut [u32], child: usize, period_over: bool)
    requires within { child < length counts.old }
    requires small { slice_index counts.old child < 2 ^ 32 - 1 }
    ensures { (i : ℕ) → i < length counts.old → slice_index counts.new i
        ≡ (if period_over then 0
        else slice_index counts.old i + (if child == i then 1 else 0)) }
{
    if period_over {
        for count in counts.iter_mut() {
            *count = 0;
        }
    } else {
        counts[child] += 1;
    }
}
