//! The turns of a node's mirrors, counted together.

ghost use Rattle.std.specs.Prelude.{◌≡◌, ℕ, ◌+◌, ◌^◌, ◌<◌, ◌≤◌, ◌↔◌, All, IfOk, IsTrue, length, slice_get, Some};
ghost use Rattle.std.specs.Int.{bit_at};
ghost use Rattle.mirror_failover.specs.Mirrors.{selects, selection};
ghost use Rattle.mirror_failover.specs.Drawn.{IfTurn};

use crate::Memory;
use crate::share::selected;
use std::alloc::Global;
use std::marker::Model;

/// One turn of a node's mirrors.
#[derive(Clone, Copy, PartialEq, Eq, Debug)]
pub enum DrawnMirror {
    /// Turn `n`, from 1 on. Bit i of `selected` says whether mirror i gets it.
    Turn { n: u64, selected: u64 },
    /// Every turn was drawn.
    Spent,
}

/// The turns of a node's mirrors: 2^62 of them, from 1 on.
#[derive(Drop)]
pub struct Counts {
    percents: Vec<u8>,
    turns: u64,
}

impl Model for Counts {
    ghost use Rattle.std.specs.Prelude.{ℕ, ◌^◌, ◌≤◌, All, length};
    ghost use Rattle.mirror_failover.specs.Mirrors.{MirrorTurns};

    ghost Value = { MirrorTurns };

    ghost view = { λ c. record { percents = c.percents.items; turns = c.turns } };

    ghost invariant = { λ c. (length c.percents.items ≤ 63) × All (λ percent. percent ≤ 100) c.percents.items
        × (c.turns ≤ 2 ^ 62) };
}

/// The last turn.
const LAST: u64 = 1 << 62;

impl Counts {
    /// Mirrors of these percents, before their first turn.
    pub fn new(alloc: Global, percents: &[u8]) -> Result<Counts, Memory>
        requires few { length percents.now ≤ 63 }
        requires shares { All (λ percent. percent ≤ 100) percents.now }
        ensures { IfOk result (λ c. (c.percents ≡ percents.now) × (c.turns ≡ 0)) }
    {
        let percents = Vec::from_slice(alloc, percents)?;
        Ok(Counts { percents, turns: 0 })
    }

    /// Draws the next turn.
    pub fn step(&mut self) -> DrawnMirror
        // After the last turn nothing changes any more.
        ensures spent { (result ≡ DrawnMirror.Spent) ↔ (self.old.turns ≡ 2 ^ 62) }
        ensures after_last { result ≡ DrawnMirror.Spent → self.new ≡ self.old }

        ensures next { IfTurn result (λ n _. n ≡ self.old.turns + 1) }
        ensures within { IfTurn result (λ n _. n ≤ 2 ^ 62) }
        ensures turn { IfTurn result (λ n selected. selected ≡ selection self.old.percents n) }
        ensures bits { IfTurn result (λ n selected. (mirror percent : ℕ) →
            slice_get self.old.percents mirror ≡ Some percent →
            (bit_at selected mirror ≡ 1) ↔ IsTrue (selects percent n)) }
        ensures others { IfTurn result (λ n selected. (mirror : ℕ) →
            length self.old.percents ≤ mirror → bit_at selected mirror ≡ 0) }
        ensures counted { IfTurn result (λ n _. self.new ≡ record self.old { turns = n }) }
    {
        if self.turns == LAST {
            return DrawnMirror::Spent;
        }
        self.turns += 1;
        DrawnMirror::Turn {
            n: self.turns,
            selected: selected_mask(&self.percents, self.turns),
        }
    }
}

/// The mirrors that get turn `n`, the first one's bit lowest.
fn selected_mask(percents: &[u8], n: u64) -> u64
    requires few { length percents.now ≤ 63 }
    requires shares { All (λ percent. percent ≤ 100) percents.now }
    requires first { 1 ≤ n }
    requires last { n ≤ 2 ^ 62 }
    ensures { result ≡ selection percents.now n }
{
    let mut mask = 0;
    for i in (0..percents.len()).rev() {
        mask = 2 * mask + u64::from(selected(percents[i], n));
    }
    mask
}
