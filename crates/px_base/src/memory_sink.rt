//! A sink that keeps its bytes in memory, some of whose writes fail.
ghost use Rattle.std.specs.Prelude.{◌≡◌, ◌<◌, ℕ, [], true, Some, length, if◌then◌else◌};
ghost use Rattle.px_base.specs.Bytes.{WriteTakes, WriteCause, is_failed_write, one_more};
ghost use Rattle.px_base.specs.Memory.{is_listed};

use crate::list::{Bytes, List};
use crate::sink::Sink;
use crate::step::WriteStep;
use std::alloc::Global;
use std::marker::Model;

/// Bytes that are kept in memory, some of whose writes fail.
#[derive(Drop)]
pub struct MemorySink {
    bytes: Vec<u8>,
    failing: List<u64>,
    calls: u64,
    faults: u64,
}

impl Model for MemorySink {
    ghost use Rattle.px_base.specs.Memory.{Store};

    ghost Value = { Store };

    ghost view = { λ s. record { held = s.bytes.items; failing = s.failing; calls = s.calls; faults = s.faults } };
}

impl MemorySink {
    /// The writes whose numbers are listed fail. The first write has the number 1.
    pub fn new(alloc: Global, failing: Vec<u64>) -> MemorySink
        ensures { result ≡ record { held = []; failing = failing.items; calls = 0; faults = 0 } }
    {
        MemorySink {
            bytes: Vec::new(alloc),
            failing: List::from_vec(failing),
            calls: 0,
            faults: 0,
        }
    }

    /// The bytes that it holds.
    pub fn held(&self) -> &[u8]
        ensures { result.now ≡ self.now.held }
    {
        self.bytes.as_slice()
    }
}

impl Sink for MemorySink {
    ghost held = { λ s. Some s.held };

    ghost faults = { λ s. s.faults };

    fn write(&mut self, piece: &[u8]) -> WriteStep
        requires { 0 < length piece.now }
        ensures takes { WriteTakes (Some self.old.held) (Some self.new.held) result piece.now }
        ensures cause { WriteCause self.old.faults self.new.faults result }

        // A write fails where its number is listed or memory runs out, and else takes the whole piece.
        ensures number { self.new.calls ≡ one_more self.old.calls }
        ensures fails { is_listed self.old.failing (one_more self.old.calls) ≡ true
            → is_failed_write result ≡ true }
        ensures counts { self.new.faults
            ≡ (if is_failed_write result then one_more self.old.faults else self.old.faults) }
        ensures whole { (n : ℕ) → result ≡ WriteStep.Took n → n ≡ length piece.now }
        ensures same { self.new.failing ≡ self.old.failing }
    {
        self.calls = self.calls.saturating_add(1);
        if self.failing.as_slice().contains(&self.calls)
            || self.bytes.extend_from_slice(piece).is_err()
        {
            self.faults = self.faults.saturating_add(1);
            return WriteStep::Failed;
        }
        WriteStep::Took(piece.len())
    }
}
