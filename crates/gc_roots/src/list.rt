//! The list of roots, read and written by index or lent root by root.

ghost use Rattle.std.specs.Prelude.{ℕ, ◌≡◌, ◌+◌, ◌<◌, ◌≤◌, ◌==◌, [], ◌∷◌, ◌++◌, length, true, false, IsOk, OnOk};
ghost use Rattle.std.specs.Borrow.{sem};
ghost use Rattle.gc_roots.specs.Roots.{root, root_at, with_word_at};

use crate::entry::Origin;
use crate::iter::GcRootsIter;
use crate::root_place::RootPlace;
use gc_refs::VMGcRef;
use std::alloc::{AllocError, Global};
use std::marker::Model;
use std::mem;

/// The roots of a collection, in the order in which they were added.
///
/// The words lie by themselves, so that a walk lends them and nothing else of the list.
#[derive(Debug, Drop)]
pub struct GcRootsList {
    origins: Vec<Origin>,
    /// The word of each root, at the index of its origin.
    words: Vec<VMGcRef>,
}

impl Model for GcRootsList {
    ghost use Rattle.std.specs.Prelude.{◌≡◌, ◌-◌, min, vec_len, vec_capacity};
    ghost use Rattle.gc_roots.specs.Roots.{Roots};

    ghost Value = { Roots };

    ghost use Rattle.gc_roots.specs.Columns.{paired_roots};

    ghost view = { λ l. record {
      roots = paired_roots l.origins.items l.words.items;
      spare = min (vec_capacity l.origins) (vec_capacity l.words) - vec_len l.words;
    } };

    ghost invariant = { λ l. vec_len l.origins ≡ vec_len l.words };
}

impl GcRootsList {
    ghost use Rattle.gc_roots.specs.Lends.{rest_of, lends_words};

    /// A list with no roots. It takes no memory.
    pub fn new(alloc: Global) -> GcRootsList
        ensures { result.roots ≡ [] }
    {
        GcRootsList {
            origins: Vec::new(alloc),
            words: Vec::new(alloc),
        }
    }

    /// Makes room: so many roots can then be added, which takes no memory. An error leaves the roots
    /// as they were.
    pub fn reserve(&mut self, n: usize) -> Result<(), AllocError>
        ensures roots { self.new.roots ≡ self.old.roots }
        ensures room { OnOk result (n ≤ self.new.spare) }
        ensures succeeds { n ≤ self.old.spare → IsOk result }
        ensures grown { self.old.spare ≤ self.new.spare }
    {
        self.origins.reserve(n)?;
        self.words.reserve(n)
    }

    /// Adds a slot of a frame on a wasm stack that holds that word. It takes no memory.
    pub fn add_wasm_stack_root(&mut self, place: RootPlace, word: VMGcRef)
        requires { 0 < self.old.spare }
        ensures roots { self.new.roots ≡ self.old.roots ++ root place.number true word ∷ [] }
        ensures spare { self.old.spare ≡ self.new.spare + 1 }
    {
        self.add(place, true, word);
    }

    /// Adds a root that is a reference of the store's own, with its word. It takes no memory.
    pub fn add_vmgcref_root(&mut self, place: RootPlace, word: VMGcRef)
        requires { 0 < self.old.spare }
        ensures roots { self.new.roots ≡ self.old.roots ++ root place.number false word ∷ [] }
        ensures spare { self.old.spare ≡ self.new.spare + 1 }
    {
        self.add(place, false, word);
    }

    /// Adds a root that is a raw value, with the word in it. It takes no memory.
    pub fn add_val_raw_root(&mut self, place: RootPlace, word: VMGcRef)
        requires { 0 < self.old.spare }
        ensures roots { self.new.roots ≡ self.old.roots ++ root place.number false word ∷ [] }
        ensures spare { self.old.spare ≡ self.new.spare + 1 }
    {
        self.add(place, false, word);
    }

    fn add(&mut self, place: RootPlace, is_on_wasm_stack: bool, word: VMGcRef)
        requires { 0 < self.old.spare }
        ensures roots { self.new.roots ≡ self.old.roots ++ root place.number is_on_wasm_stack word ∷ [] }
        ensures spare { self.old.spare ≡ self.new.spare + 1 }
    {
        self.origins.push_reserved(Origin {
            place,
            is_on_wasm_stack,
        });
        self.words.push_reserved(word);
    }

    /// Whether there are no roots.
    pub fn is_empty(&self) -> bool
        ensures { result ≡ (length self.now.roots == 0) }
    {
        self.words.is_empty()
    }

    /// The number of roots.
    pub fn len(&self) -> usize
        ensures { result ≡ length self.now.roots }
    {
        self.words.len()
    }

    /// Drops all roots. Their places are spare, and no memory is given back.
    pub fn clear(&mut self)
        ensures roots { self.new.roots ≡ [] }
        ensures spare { self.new.spare ≡ self.old.spare + length self.old.roots }
    {
        self.origins.clear();
        self.words.clear();
    }

    /// Takes the roots out, with the memory that they and the room for more have. An empty list stays, with no room.
    pub fn take(&mut self) -> GcRootsList
        ensures taken { result ≡ self.old }
        ensures empty { self.new.roots ≡ [] }
    {
        let alloc = *self.words.allocator();
        mem::replace(self, GcRootsList::new(alloc))
    }

    /// The number that the root of that index was added with; indexes count from 0.
    pub fn place_at(&self, index: usize) -> RootPlace
        requires { index < length self.now.roots }
        ensures { result.number ≡ (root_at self.now.roots index).place }
    {
        self.origins[index].place
    }

    /// Whether the root of that index is a slot of a frame on a wasm stack.
    pub fn is_on_wasm_stack_at(&self, index: usize) -> bool
        requires { index < length self.now.roots }
        ensures { result ≡ (root_at self.now.roots index).on_stack }
    {
        self.origins[index].is_on_wasm_stack
    }

    /// The word of the root of that index.
    pub fn word_at(&self, index: usize) -> VMGcRef
        requires { index < length self.now.roots }
        ensures { result ≡ (root_at self.now.roots index).word }
    {
        self.words[index].unchecked_copy()
    }

    /// Replaces the word of the root of that index.
    pub fn set_word_at(&mut self, index: usize, word: VMGcRef)
        requires { index < length self.old.roots }
        ensures roots { self.new.roots ≡ with_word_at self.old.roots index word }
        ensures spare { self.new.spare ≡ self.old.spare }
    {
        self.words[index] = word;
    }

    /// The roots one by one, in the order of the adds. Afterwards the list has the words that were
    /// set, and is else as it was.
    pub fn iter(&mut self) -> GcRootsIter<'_>
        ensures* lends { sem 𝓛 (lends_words self.entry result) }
        ensures rest { rest_of result ≡ self.old.roots }
    {
        GcRootsIter::new(self.origins.as_slice(), self.words.as_mut_slice())
    }
}
