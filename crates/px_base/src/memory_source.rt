//! A source over bytes in memory, some of whose reads fail.
ghost use Rattle.std.specs.Prelude.{◌≡◌, ◌<◌, ℕ, min, false, Some, length, take, if◌then◌else◌};
ghost use Rattle.px_base.specs.Bytes.{ReadGives, ReadCause, is_end, is_failed_read, one_more};
ghost use Rattle.px_base.specs.Memory.{is_listed};

use crate::list::{Bytes, List};
use crate::source::Source;
use crate::step::ReadStep;
use std::marker::Model;

/// Bytes in memory, some of whose reads fail.
#[derive(Drop)]
pub struct MemorySource {
    bytes: Bytes,
    at: usize,
    failing: List<u64>,
    calls: u64,
    faults: u64,
    ended: bool,
}

impl Model for MemorySource {
    ghost use Rattle.std.specs.Prelude.{drop};
    ghost use Rattle.px_base.specs.Memory.{Supply};

    ghost Value = { Supply };

    ghost view = { λ s. record { left = drop s.at s.bytes; failing = s.failing; calls = s.calls; faults = s.faults; ended = s.ended } };
}

impl MemorySource {
    /// The reads whose numbers are listed fail. The first read has the number 1.
    pub fn new(bytes: Vec<u8>, failing: Vec<u64>) -> MemorySource
        ensures { result ≡ record { left = bytes.items; failing = failing.items; calls = 0; faults = 0; ended = false } }
    {
        MemorySource {
            bytes: List::from_vec(bytes),
            at: 0,
            failing: List::from_vec(failing),
            calls: 0,
            faults: 0,
            ended: false,
        }
    }
}

#[tactic(auto, using(crate::proofs::Pieces::piece_and_rest))]
impl Source for MemorySource {
    ghost left = { λ s. Some s.left };

    ghost faults = { λ s. s.faults };

    ghost ended = { λ s. s.ended };

    fn read(&mut self, room: &mut [u8]) -> ReadStep
        requires { 0 < length room.old }
        ensures gives { ReadGives (Some self.old.left) (Some self.new.left) result room.new }
        ensures cause { ReadCause self.old.faults self.new.faults result }
        ensures end { self.new.ended ≡ is_end result }

        // A read fails exactly where its number is listed, and else gives as much as fits.
        ensures number { self.new.calls ≡ one_more self.old.calls }
        ensures fails { is_failed_read result ≡ is_listed self.old.failing (one_more self.old.calls) }
        ensures counts { self.new.faults
            ≡ (if is_failed_read result then one_more self.old.faults else self.old.faults) }
        ensures fills { (n : ℕ) → result ≡ ReadStep.Got n → n ≡ min (length self.old.left) (length room.new) }
        ensures same { self.new.failing ≡ self.old.failing }
    {
        self.calls = self.calls.saturating_add(1);
        self.ended = false;
        if self.failing.as_slice().contains(&self.calls) {
            self.faults = self.faults.saturating_add(1);
            return ReadStep::Failed;
        }
        if self.at >= self.bytes.len() {
            self.ended = true;
            return ReadStep::End;
        }
        let count = fill(room, &self.bytes.as_slice()[self.at..]);
        self.at += count;
        ReadStep::Got(count)
    }
}

// Copies as many bytes as fit to the front of the room, and says how many.
fn fill(room: &mut [u8], bytes: &[u8]) -> usize
    ensures count { result ≡ min (length bytes.now) (length room.new) }
    ensures copied { take result room.new ≡ take result bytes.now }
{
    let count = bytes.len().min(room.len());
    room[..count].copy_from_slice(&bytes[..count]);
    count
}
