//! A table: values under keys that rise.

ghost use Rattle.std.specs.Prelude.{◌≡◌, ◌<◌, ℕ, [], ◌∷◌, ◌++◌, ◌↔◌, bytes_eq, length, slice_get, Some, IsTrue, OnOk, OnErr};
ghost use Rattle.std.specs.Option.{option_copied};
ghost use Rattle.std.specs.Map.{keys_of, values_of};
ghost use Rattle.field_tree.specs.Table.{KeysRise, value_at};

use px_base::{Bytes, List, Memory};
use std::alloc::Global;
use std::marker::Model;

/// Values under keys that rise by their bytes, so that no key stands twice.
#[derive(Debug, Drop)]
pub struct Fields<T> {
    keys: List<Bytes>,
    values: Vec<T>,
}

impl<T> Model for Fields<T> {
    ghost use Rattle.std.specs.Prelude.{ℕ, List, ◌≡◌, length};
    ghost use Rattle.std.specs.List.{zip};
    ghost use Rattle.std.specs.Ordering.{nat_cmp};
    ghost use Rattle.std.specs.List.Sorted.{IsStrictlySortedBy};
    ghost use Rattle.std.specs.Cmp.Lexicographic.{slice_cmp};
    ghost use Rattle.std.specs.Coded.{coded_list, coded×, coded_ℕ};

    ghost Value = { List (List ℕ × T) };

    ghost coded = { coded_list (coded× (coded_list coded_ℕ) T.code) };

    ghost view = { λ f. zip f.keys f.values.items };

    ghost invariant = { λ f. (length f.values.items ≡ length f.keys) × IsStrictlySortedBy (slice_cmp nat_cmp) f.keys };
}

impl<T> Fields<T> {
    /// The table without a key. It takes no memory until it grows.
    pub fn new(alloc: Global) -> Fields<T>
        ensures { result ≡ [] }
    {
        Fields {
            keys: List::new(alloc),
            values: Vec::new(alloc),
        }
    }

    pub fn len(&self) -> usize
        ensures len { result ≡ length self.now }
        ensures rising { KeysRise self.now }
    {
        self.values.len()
    }

    pub fn is_empty(&self) -> bool
        ensures { IsTrue result ↔ (self.now ≡ []) }
    {
        self.len() == 0
    }

    /// The key at a place, from 0 on.
    pub fn key(&self, at: usize) -> &[u8]
        requires { at < length self.now }
        ensures { slice_get (keys_of self.now) at ≡ Some result.now }
    {
        self.keys.as_slice()[at].as_slice()
    }

    /// The value at a place, from 0 on.
    pub fn value(&self, at: usize) -> &T
        requires { at < length self.now }
        ensures { slice_get (values_of self.now) at ≡ Some result.now }
    {
        &self.values[at]
    }

    /// The value under a key.
    pub fn get(&self, key: &[u8]) -> Option<&T>
        ensures value { option_copied result ≡ value_at self.now key.now }
        ensures rising { KeysRise self.now }
    {
        for (i, name) in self.keys.as_slice().iter().enumerate() {
            if is_same(key, name.as_slice()) {
                return sqlite_items::at(&self.values, i);
            }
        }
        None
    }
}

impl<T: Drop> Fields<T> {
    /// Adds a value under a key above the others. Where memory runs out the table stays as it was.
    pub fn push(&mut self, key: Bytes, value: T) -> Result<(), Memory>
        requires { KeysRise (self.old ++ (key, value) ∷ []) }
        ensures ok { OnOk result (self.new ≡ self.old ++ (key, value) ∷ []) }
        ensures err { OnErr result (self.new ≡ self.old) }
    {
        self.values.push(value)?;
        match self.keys.push(key) {
            Ok(()) => Ok(()),
            Err(error) => {
                let _value = self.values.pop();
                Err(error)
            }
        }
    }
}

fn is_same(a: &[u8], b: &[u8]) -> bool
    ensures { result ≡ bytes_eq a.now b.now }
{
    a == b
}
