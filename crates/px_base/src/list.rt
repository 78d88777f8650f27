//! A list that stands in the public fields of a type. Contracts see it as the list of its elements.
ghost use Rattle.std.specs.Prelude.{◌≡◌, [], ◌∷◌, ◌++◌, ◌<◌, ◌↔◌, length, slice_get, IsTrue, IfOk, OnOk, OnErr, OnSome};
ghost use Rattle.std.specs.Option.{option_copied};
ghost use Rattle.std.specs.Slice.Iter.{iter_rest};

use crate::Memory;
use std::alloc::Global;
use std::marker::Model;
use std::slice::Iter;

/// A growing list.
#[derive(Debug, Drop)]
pub struct List<T> {
    items: Vec<T>,
}

/// A list of bytes.
pub type Bytes = List<u8>;

impl<T> Model for List<T> {
    ghost use Rattle.std.specs.Prelude.{List as ListOf};
    ghost use Rattle.std.specs.Coded.{coded_list};

    ghost Value = { ListOf T };

    ghost coded = { coded_list T.code };

    ghost view = { λ list. list.items.items };
}

impl<T> List<T> {
    /// The empty list. It takes no memory until it grows.
    pub fn new(alloc: Global) -> List<T>
        ensures { result ≡ [] }
    {
        List {
            items: Vec::new(alloc),
        }
    }

    pub fn from_vec(items: Vec<T>) -> List<T>
        ensures { result ≡ items.items }
    {
        List { items }
    }

    pub fn into_vec(self) -> Vec<T>
        ensures { result.items ≡ self }
    {
        let List { items } = self;
        items
    }

    pub fn as_slice(&self) -> &[T]
        ensures { result.now ≡ self.now }
    {
        self.items.as_slice()
    }

    pub fn len(&self) -> usize
        ensures { result ≡ length self.now }
    {
        self.items.len()
    }

    pub fn is_empty(&self) -> bool
        ensures { IsTrue result ↔ (self.now ≡ []) }
    {
        self.items.is_empty()
    }

    pub fn get(&self, at: usize) -> Option<&T>
        ensures value { option_copied result ≡ slice_get self.now at }
        ensures within { OnSome result (at < length self.now) }
    {
        self.items.get(at)
    }

    pub fn iter(&self) -> Iter<'_, T>
        ensures { iter_rest result ≡ self.now }
    {
        self.items.iter()
    }
}

impl<T: Drop> List<T> {
    /// Adds an element at the end. Where memory runs out the list stays as it was.
    pub fn push(&mut self, item: T) -> Result<(), Memory>
        ensures ok { OnOk result (self.new ≡ self.old ++ item ∷ []) }
        ensures err { OnErr result (self.new ≡ self.old) }
    {
        self.items.push(item)?;
        Ok(())
    }
}

impl<T: Copy> List<T> {
    /// A copy of the slice.
    pub fn from_slice(alloc: Global, items: &[T]) -> Result<List<T>, Memory>
        ensures { IfOk result (λ list. list ≡ items.now) }
    {
        let items = Vec::from_slice(alloc, items)?;
        Ok(List { items })
    }
}

impl<T: PartialEq> PartialEq for List<T> {
    ghost use Rattle.std.specs.Cmp.Lexicographic.{pointwise, lists_per};

    ghost eq = { pointwise T.eq };

    ghost laws = { lists_per T.laws };

    fn eq(&self, other: &Self) -> bool {
        self.as_slice() == other.as_slice()
    }
}

impl<T: Eq> Eq for List<T> {
    ghost use Rattle.std.specs.Cmp.Lexicographic.{lists_equiv};

    ghost laws = { lists_equiv T.Eq.laws };
}
