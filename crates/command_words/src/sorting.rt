//! Words sorted into options and others.
ghost use Rattle.std.specs.Prelude.{◌≡◌, ◌≤◌, ◌∷◌, ◌++◌, [], Some, None, MatchResult, IfOk, IfErr, OnOk, map, length, string_bytes};
ghost use Rattle.command_words.specs.Words.{sorted, joined, sorted_behind};
ghost use Rattle.command_words.specs.declared.command.WordFault.TheVariants.{Memory as WantsMemory};

use crate::command::WordFault;
use crate::kind::{Kind, is_value, kind_of};
use px_base::{Bytes, List, Memory};
use std::alloc::Global;

/// An option and its value.
#[derive(Debug, Drop)]
pub(crate) struct Setting {
    pub name: Bytes,
    pub value: Bytes,
}

/// The options of a call and its other words, each in their order.
#[derive(Debug, Drop)]
pub(crate) struct Sorted {
    pub settings: List<Setting>,
    pub others: List<Bytes>,
}

impl From<Memory> for WordFault {
    ghost from_gives = { λ _ fault. fault ≡ WantsMemory };

    fn from(_: Memory) -> WordFault {
        WordFault::Memory
    }
}

/// Sorts the words behind a command's name.
pub(crate) fn sort_words(alloc: Global, words: &[String]) -> Result<Sorted, WordFault>
    ensures { MatchResult result
        (λ s. sorted (map string_bytes words.now) ≡ Some s)
        (λ fault. fault ≡ WordFault.NotACommand → sorted (map string_bytes words.now) ≡ None) }
{
    let mut found = Sorted {
        settings: List::new(alloc),
        others: List::new(alloc),
    };
    let mut rest = words;
    while let Some((word, more)) = rest.split_first() {
        rest = found.take(alloc, word.as_bytes(), more)?;
    }
    Ok(found)
}

impl Sorted {
    // Takes a word, and its value where that is the next one, and answers the words behind.
    fn take<'w>(
        &mut self,
        alloc: Global,
        word: &[u8],
        more: &'w [String],
    ) -> Result<&'w [String], WordFault>
        ensures taken { IfOk result (λ rest. joined self.old (sorted (word.now ∷ map string_bytes more.now))
            ≡ joined self.new (sorted (map string_bytes rest.now))) }
        ensures shorter { IfOk result (λ rest. length rest.now ≤ length more.now) }
        ensures refused { IfErr result (λ fault. fault ≡ WordFault.NotACommand
            → sorted (word.now ∷ map string_bytes more.now) ≡ None) }
    {
        match kind_of(word) {
            Kind::Ends => {
                self.push_others(alloc, more)?;
                Ok(&[])
            }
            Kind::Named(name) => self.take_value(alloc, name, more),
            Kind::Valued(name, value) => {
                self.push_setting(alloc, name, value)?;
                Ok(more)
            }
            Kind::Refused => Err(WordFault::NotACommand),
            Kind::Other => {
                self.push_other(alloc, word)?;
                Ok(more)
            }
        }
    }

    // Takes the value of the option with this name.
    fn take_value<'w>(
        &mut self,
        alloc: Global,
        name: &[u8],
        words: &'w [String],
    ) -> Result<&'w [String], WordFault>
        ensures taken { IfOk result (λ rest. joined self.old (sorted_behind name.now (map string_bytes words.now))
            ≡ joined self.new (sorted (map string_bytes rest.now))) }
        ensures shorter { IfOk result (λ rest. length rest.now ≤ length words.now) }
        ensures refused { IfErr result (λ fault. fault ≡ WordFault.NotACommand
            → sorted_behind name.now (map string_bytes words.now) ≡ None) }
    {
        match words.split_first() {
            Some((value, rest)) => {
                if !is_value(value.as_bytes()) {
                    return Err(WordFault::NotACommand);
                }
                self.push_setting(alloc, name, value.as_bytes())?;
                Ok(rest)
            }
            None => Err(WordFault::NotACommand),
        }
    }

    fn push_setting(&mut self, alloc: Global, name: &[u8], value: &[u8]) -> Result<(), Memory>
        ensures { OnOk result (self.new ≡ record self.old {
          settings = self.old.settings ++ record { name = name.now; value = value.now } ∷ [];
        }) }
    {
        let setting = Setting {
            name: Bytes::from_slice(alloc, name)?,
            value: Bytes::from_slice(alloc, value)?,
        };
        self.settings.push(setting)
    }

    fn push_other(&mut self, alloc: Global, word: &[u8]) -> Result<(), Memory>
        ensures { OnOk result (self.new ≡ record self.old { others = self.old.others ++ word.now ∷ [] }) }
    {
        let word = Bytes::from_slice(alloc, word)?;
        self.others.push(word)
    }

    fn push_others(&mut self, alloc: Global, words: &[String]) -> Result<(), Memory>
        ensures { OnOk result (self.new ≡ record self.old {
          others = self.old.others ++ map string_bytes words.now;
        }) }
    {
        for word in words {
            self.push_other(alloc, word.as_bytes())?;
        }
        Ok(())
    }
}
