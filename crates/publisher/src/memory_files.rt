//! Files in memory, some of whose loads fail.
ghost use Rattle.std.specs.Prelude.{◌≡◌, ◌≤◌, ◌∷◌, ◌++◌, [], Some, length, IfOk, OnOk, OnErr};
ghost use Rattle.publisher.specs.Loads.{LoadDid, LoadCause};
ghost use Rattle.publisher.specs.Shelf.{Gives, Loads, answer_of, text_of};

use crate::files::{Files, Load, LoadStep, MAX_FILE};
use px_base::{Bytes, List, Memory};
use std::alloc::Global;
use std::marker::Model;

/// Texts that are given one after another, whatever the path. The last is given again and again.
#[derive(Drop)]
pub struct MemoryFiles {
    alloc: Global,
    texts: List<Bytes>,
    failing: List<u64>,
    calls: u64,
    faults: u64,
    loads: List<Load>,
}

impl Model for MemoryFiles {
    ghost use Rattle.publisher.specs.Shelf.{Shelf};

    ghost Value = { Shelf };

    ghost view = { λ s. record { texts = s.texts; failing = s.failing; calls = s.calls; faults = s.faults; loads = s.loads } };
}

impl MemoryFiles {
    /// The k-th load gives the k-th text; those after the last text give the last again. The loads whose numbers are
    /// listed fail. The first load has the number 1.
    pub fn new(alloc: Global, texts: List<Bytes>, failing: Vec<u64>) -> MemoryFiles
        requires { 1 ≤ length texts }
        ensures { result ≡ record { texts = texts; failing = failing.items; calls = 0; faults = 0; loads = [] } }
    {
        MemoryFiles {
            alloc,
            texts,
            failing: List::from_vec(failing),
            calls: 0,
            faults: 0,
            loads: List::new(alloc),
        }
    }

    /// The loads that it made, in order.
    pub fn loads(&self) -> &[Load]
        ensures { result.now ≡ self.now.loads }
    {
        self.loads.as_slice()
    }
}

impl Files for MemoryFiles {
    ghost loads = { λ s. Some s.loads };

    ghost faults = { λ s. s.faults };

    fn load(&mut self, path: &[u8], out: &mut Vec<u8>) -> LoadStep
        ensures did { LoadDid (Some self.old.loads) path.now result out.new.items (Some self.new.loads) }
        ensures cause { LoadCause self.old.faults self.new.faults result }

        // Each load answers as its number says, unless memory runs out.
        ensures loads { Loads self.old path.now result out.new.items self.new }
    {
        out.clear();
        self.calls = self.calls.saturating_add(1);
        match self.give(path, out) {
            Ok(step) => step,
            Err(_) => {
                out.clear();
                LoadStep::Memory
            }
        }
    }
}

impl MemoryFiles {
    // Gives the text of the load with the number of calls so far, and tells the load.
    fn give(&mut self, path: &[u8], out: &mut Vec<u8>) -> Result<LoadStep, Memory>
        requires { out.old.items ≡ [] }
        ensures ok { IfOk result (λ step. Gives self.old path.now step out.new.items self.new) }
        ensures cause { IfOk result (LoadCause self.old.faults self.new.faults) }
        ensures err { OnErr result (self.new ≡ self.old) }
    {
        let step = self.answer();
        if step == LoadStep::Done {
            out.extend_from_slice(self.text())?;
        }
        self.tell(path, step, out.as_slice())?;
        if step == LoadStep::Failed {
            self.faults = self.faults.saturating_add(1);
        }
        Ok(step)
    }

    fn tell(&mut self, path: &[u8], answer: LoadStep, bytes: &[u8]) -> Result<(), Memory>
        ensures ok { OnOk result (self.new ≡ record self.old {
          loads = self.old.loads ++ record { path = path.now; answer = answer; bytes = bytes.now } ∷ [];
        }) }
        ensures err { OnErr result (self.new ≡ self.old) }
    {
        let load = Load {
            path: Bytes::from_slice(self.alloc, path)?,
            answer,
            bytes: Bytes::from_slice(self.alloc, bytes)?,
        };
        self.loads.push(load)
    }

    // What the load with the number of calls so far answers.
    fn answer(&self) -> LoadStep
        ensures { result ≡ answer_of self.now }
    {
        if self.failing.as_slice().contains(&self.calls) {
            LoadStep::Failed
        } else if self.text().len() > MAX_FILE {
            LoadStep::TooLong
        } else {
            LoadStep::Done
        }
    }

    // The text of that load.
    fn text(&self) -> &[u8]
        ensures { result.now ≡ text_of self.now.texts self.now.calls }
    {
        let last = self.texts.len().saturating_sub(1);
        let at = usize::try_from(self.calls.saturating_sub(1)).unwrap_or(last);
        match self.texts.get(at.min(last)) {
            Some(text) => text.as_slice(),
            None => &[],
        }
    }
}
