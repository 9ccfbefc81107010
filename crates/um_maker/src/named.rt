//! Items with distinct names, in order, found by name without a walk.

ghost use Rattle.std.specs.Prelude.{◌≡◌, ◌<◌, [], ◌∷◌, ◌++◌, length, IfOk, OnOk, OnErr, IsSome, None, IfSome, slice_get, Some, map, option_map, ◌-◌};
ghost use Rattle.std.specs.Borrow.{Lends, sem};
ghost use Rattle.std.specs.List.{IsDistinct};
ghost use Rattle.std.specs.Str.{bytes_eq};
ghost use Rattle.um_maker.specs.contracts.named.Named.{the_row};

use crate::key::Called;
use indexmap::IndexMap;
use indexmap::map::IntoIter;
use std::alloc::Global;
use std::marker::Model;
use um_num::{Memory, Name};

/// Items with distinct names. Contracts see the list of names and items, in the order of making.
#[derive(Drop)]
pub struct Named<V> {
    map: IndexMap<Name, V>,
}

impl<V> Model for Named<V> {
    ghost use Rattle.std.specs.Prelude.{ℕ, List as Items};

    ghost Value = { Items ((Items ℕ) × V) };

    ghost view = { λ m. m.map.entries };
}

impl<V> Named<V> {
    ghost use Rattle.um_maker.specs.NamedLists.{place_of, with_item};

    pub fn new(alloc: Global) -> Named<V>
        ensures { result ≡ [] }
    {
        Named {
            map: IndexMap::new(alloc),
        }
    }

    pub fn len(&self) -> usize
        ensures { result ≡ length self.now }
    {
        self.map.len()
    }

    /// The place of the item of this name. Takes no memory.
    pub fn place(&self, name: &[u8]) -> Option<usize>
        ensures place { result ≡ place_of self.now name.now }
        ensures within { IfSome result (λ i. i < length self.now) }
    {
        self.map.get_index_of(Called(name))
    }

    pub fn last(&self) -> Option<&V>
        ensures { option_map (λ item. item.now) result ≡ option_map (λ e. e.1) (slice_get self.now (length self.now - 1)) }
    {
        match self.map.last() {
            Some((_, item)) => Some(item),
            None => None,
        }
    }

    /// Names are distinct.
    pub fn known(&self)
        ensures { IsDistinct bytes_eq (map (λ e. e.0) self.now) }
    {
        let _ = self.map.len();
    }

    pub fn at(&self, i: usize) -> &V
        requires { i < length self.now }
        ensures { slice_get (map (λ e. e.1) self.now) i ≡ Some result.now }
    {
        &self.map[i]
    }

    /// Lends the item at place `i` for writing. All names and all other items stay.
    pub fn at_mut(&mut self, i: usize) -> &mut V
        requires { i < length self.old }
        ensures* writes_back { sem 𝓛 (Lends (the_row V.row) V.row self.entry result (λ w. with_item self.old i w)) }
        ensures value { slice_get (map (λ e. e.1) self.old) i ≡ Some result.now }
    {
        &mut self.map[i]
    }
}

impl<V: Drop> Named<V> {
    ghost use Rattle.um_maker.specs.NamedLists.{place_of, with_item};

    /// Puts an item of a new name behind all others. A refused call drops the item and leaves the rest.
    pub fn push(&mut self, name: &[u8], item: V) -> Result<(), Memory>
        requires { place_of self.old name.now ≡ None }
        ensures ok { OnOk result (self.new ≡ self.old ++ (name.now, item) ∷ []) }
        ensures err { OnErr result (self.new ≡ self.old) }
    {
        let name = Name::from_bytes(*self.map.allocator(), name)?;
        match self.map.insert(name, item) {
            Ok(_) => Ok(()),
            Err(_refused) => Err(Memory),
        }
    }

    /// The names and items as a list.
    pub fn into_list(self, alloc: Global) -> Result<Vec<(Name, V)>, Memory>
        ensures { IfOk result (λ list. list.items ≡ self) }
    {
        let mut list = Vec::new(alloc);
        for entry in self.into_entries() {
            if list.push(entry).is_err() {
                return Err(Memory);
            }
        }
        Ok(list)
    }

    /// The names and items by value, in order. Takes no memory.
    pub fn into_entries(self) -> IntoIter<Name, V>
        ensures { result ≡ self }
    {
        self.map.into_iter()
    }
}
