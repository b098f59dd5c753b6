//! Roots of one kind, put into the list of a collection and taken from it again.

ghost use Rattle.std.specs.Prelude.{ℕ, ◌≡◌, ◌⊎◌, ◌+◌, ◌<◌, ◌≤◌, ◌==◌, ◌++◌, ◌∷◌, [], if◌then◌else◌, Bool, List, drop, length, map};
ghost use Rattle.gc_roots.specs.Roots.{Root, root, root_at};
ghost use Rattle.gc_heap.specs.Collection.{moved};
ghost use Rattle.gc_owner.specs.RootColumns.{listed_as, ColumnFollows, HaveMoved};

use crate::entry::HoldsWord;
use gc_refs::VMGcRef;
use gc_roots::{GcRootsList, RootPlace};

/// Puts a root into the list.
fn list_root(list: &mut GcRootsList, place: RootPlace, is_on_stack: bool, word: VMGcRef)
    requires room { 0 < list.old.spare }
    ensures roots { list.new.roots ≡ list.old.roots ++ root place.number is_on_stack word ∷ [] }
    ensures spare { list.old.spare ≡ list.new.spare + 1 }
{
    if is_on_stack {
        list.add_wasm_stack_root(place, word);
    } else {
        list.add_vmgcref_root(place, word);
    }
}

/// Puts a word into the list, where it isn't null.
pub(crate) fn list_word(list: &mut GcRootsList, place: RootPlace, is_on_stack: bool, word: u32)
    requires room { 0 < list.old.spare }
    ensures roots { list.new.roots ≡ list.old.roots ++ listed_as place.number is_on_stack (word ∷ []) }
    ensures spare { list.old.spare ≤ list.new.spare + 1 }
    ensures total { list.new.spare + length list.new.roots ≡ list.old.spare + length list.old.roots }
{
    match VMGcRef::from_raw_u32(word) {
        Some(gc_ref) => list_root(list, place, is_on_stack, gc_ref),
        None => {}
    }
}

/// Puts the words of the entries into the list, where they aren't null.
pub(crate) fn list_column<T: HoldsWord>(
    list: &mut GcRootsList,
    place: RootPlace,
    is_on_stack: bool,
    entries: &[T],
)
    requires room { length entries.now ≤ list.old.spare }
    ensures roots { list.new.roots ≡ list.old.roots ++ listed_as place.number is_on_stack (map T.word_of entries.now) }
    ensures spare { list.old.spare ≤ list.new.spare + length entries.now }
    ensures total { list.new.spare + length list.new.roots ≡ list.old.spare + length list.old.roots }
{
    // Taken out, the list is this function's alone, and how long it is stays in registers.
    let mut filled = list.take();
    for entry in entries {
        list_word(&mut filled, place, is_on_stack, entry.word());
    }
    *list = filled;
}

/// The word that a root has at that place of the list; null has none there.
pub(crate) fn word_from(list: &GcRootsList, at: usize, word: u32) -> u32
    requires { (word ≡ 0) ⊎ (at < length list.now.roots) }
    ensures { result ≡ (if word == 0 then 0 else (root_at list.now.roots at).word) }
{
    if word == 0 {
        return 0;
    }
    list.word_at(at).as_raw_u32()
}

/// The place of the list behind that of a word; null has none there.
fn place_behind(list: &GcRootsList, at: usize, word: u32) -> usize
    ensures stays { word ≡ 0 → result ≡ at }
    ensures goes { 0 < word → at < length list.now.roots → result ≡ at + 1 }
{
    if word == 0 {
        return at;
    }
    if at < list.len() {
        return at + 1;
    }
    at
}

/// Gives the entries the words that the list has from that place on, and answers the place behind them.
pub(crate) fn take_column<T: HoldsWord>(entries: &mut [T], list: &GcRootsList, from: usize) -> usize
    requires { HaveMoved from list.now.roots (map T.word_of entries.old) }
    ensures words { (to : ℕ → ℕ) (place : ℕ) (on_stack : Bool) (behind : List Root)
        → ColumnFollows from list.now.roots to place on_stack (map T.word_of entries.old) behind
        → entries.new ≡ map (λ (e : T). T.put_word e (moved to (T.word_of e))) entries.old }
    ensures next { (to : ℕ → ℕ) (place : ℕ) (on_stack : Bool) (behind : List Root)
        → ColumnFollows from list.now.roots to place on_stack (map T.word_of entries.old) behind
        → drop result list.now.roots ≡ behind }
{
    let mut at = from;
    for index in 0..entries.len() {
        let entry = entries[index];
        let word = entry.word();
        let new_word = word_from(list, at, word);
        entries[index] = entry.with_word(new_word);
        at = place_behind(list, at, word);
    }
    at
}
