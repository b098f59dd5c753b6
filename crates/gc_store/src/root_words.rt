//! The words of all roots, by their number in one order.

ghost use Rattle.std.specs.Prelude.{◌≡◌, ◌≤◌, ◌<◌, ◌^◌, ◌++◌, ◌∷◌, List, Err, OnOk, OnErr, length, slice_get};
ghost use Rattle.std.specs.List.{flat_map};
ghost use Rattle.std.specs.Option.{option_map};
ghost use Rattle.gc_owner.specs.declared.entry.SlotEntry.{SlotEntry};
ghost use Rattle.gc_model.specs.Table.{Table};
ghost use Rattle.gc_model.specs.Holds.{Holds, Placing};
ghost use Rattle.gc_model.specs.Accounts.{Account, IsAccount};
ghost use Rattle.gc_store.specs.RootWords.{root_words, slot_words, slot_roots, owned_root_word, scoped_root_word, handle_root_words, RootsWord};
ghost use Rattle.gc_store.specs.Staying.{OnlyAdds};
ghost use Rattle.gc_store.specs.Stores.{IsSameStore, scoped_places};
ghost use Rattle.gc_values.specs.SlotCounts.{slot_counts};
ghost use Rattle.gc_store.specs.declared.root_words.RootName.TheVariants as RootName;

use crate::globals::GLOBAL_COUNT;
use crate::store::Store;
use gc_heap::GcHeap;
use gc_owner::{OwnedEntry, RootEntry, SlotEntry};
use gc_values::root::{GcRootIndex, RootFault};
use gc_values::word::owned_id;

/// Which root of a store a root word is.
#[derive(Clone, Copy, Debug, PartialEq, Eq)]
pub enum RootName {
    /// A global, by its index.
    Global(u32),
    /// The pending exception.
    Pending,
    /// A slot of an open frame, of which the oldest is 0.
    Slot { frame: u64, slot: u32 },
    /// An owned root, by its id: the low 32 bits of its number.
    Owned(u32),
    /// A scoped root, by its index.
    Scoped(u32),
}

/// What is found under the number of a root word.
#[derive(Clone, Copy, Debug)]
pub enum RootAt {
    /// There are not so many root words.
    End,
    /// The root names nothing.
    Null,
    /// The root, and the handle of a new scoped root for what it names.
    Root(RootName, GcRootIndex),
}

/// A root and its word, which is 0 where it names nothing: what contracts see of a root by its number.
#[derive(Clone, Copy, Debug)]
pub struct RootWord {
    pub name: RootName,
    pub word: u32,
}

/// The root of a slot, by its place among the slots of all frames, which have so many slots each.
fn slot_root(counts: &[u32], slots: &[SlotEntry], place: usize) -> Option<RootWord>
    requires within { place < length slots.now }
    ensures { (frames : List (List SlotEntry)) → counts.now ≡ slot_counts frames → flat_map slot_words frames ≡ slot_words slots.now
        → result ≡ slice_get (slot_roots 0 frames) place }
{
    let word = slots[place].word;
    let mut slot = place;
    for (frame, count) in counts.iter().enumerate() {
        let count = *count as usize;
        if slot < count {
            let name = RootName::Slot {
                frame: frame as u64,
                slot: slot as u32,
            };
            return Some(RootWord { name, word });
        }
        slot -= count;
    }
    None
}

/// An owned root, which names nothing where it has no handles.
fn owned_root(entry: &OwnedEntry) -> RootWord
    ensures { result ≡ owned_root_word entry.now }
{
    let word = if entry.handles == 0 { 0 } else { entry.word };
    RootWord {
        name: RootName::Owned(owned_id(entry.number)),
        word,
    }
}

/// The owned or scoped root of that number, the owned ones first.
fn handle_root(owned: &[OwnedEntry], scoped: &[RootEntry], number: usize) -> Option<RootWord>
    requires few { length scoped.now ≤ 2 ^ 32 }
    ensures { result ≡ slice_get (handle_root_words owned.now scoped.now) number }
{
    if number < owned.len() {
        return Some(owned_root(&owned[number]));
    }
    let index = number - owned.len();
    if index < scoped.len() {
        return Some(RootWord {
            name: RootName::Scoped(index as u32),
            word: scoped[index].word,
        });
    }
    None
}

impl<H: GcHeap, D: Drop> Store<H, D> {
    /// The slot, owned or scoped root of that number, in this order.
    fn slot_or_handle_root(&self, number: usize) -> Option<RootWord>
        ensures { result ≡ slice_get (slot_roots 0 self.now.frames ++ handle_root_words self.now.owned self.now.scoped) number }
    {
        self.owner.is_ready();
        let slots = self.owner.slots();
        if number < slots.len() {
            return slot_root(&self.slot_counts, slots, number);
        }
        handle_root(
            self.owner.owned(),
            self.owner.scoped(),
            number - slots.len(),
        )
    }

    /// The root of that number.
    fn root_word(&self, number: u64) -> Option<RootWord>
        ensures { result ≡ slice_get (root_words self.now) number }
    {
        self.owner.is_ready();
        let globals = u64::from(GLOBAL_COUNT);
        if number < globals {
            let index = number as u32;
            let name = RootName::Global(index);
            let word = self.owner.global(index).word;
            return Some(RootWord { name, word });
        }
        if number == globals {
            let name = RootName::Pending;
            let word = self.owner.pending();
            return Some(RootWord { name, word });
        }
        self.slot_or_handle_root((number - globals - 1) as usize)
    }

    /// The name of the root word of that number, from 0, whether it names something or not; None exactly where there
    /// are not so many. The order is that of `root_at`. It takes no memory.
    pub fn root_name(&self, number: u64) -> Option<RootName>
        ensures { result ≡ option_map (λ root. root.name) (slice_get (root_words self.now) number) }
    {
        match self.root_word(number) {
            Some(root) => Some(root.name),
            None => None,
        }
    }

    /// What the root word of that number names, from 0, by a new scoped root. The order is: the globals; the pending
    /// exception; the slots of the frames, the oldest frame's first; the owned roots in the order in which they were
    /// made, of which those without handles name nothing; the scoped roots from the oldest on. `RootsFull` where no
    /// further scoped root may be made. Each root word that names something adds one to them, so a walk fixes its end
    /// first. Its time is linear in the open frames at most.
    pub fn root_at(&mut self, number: u64) -> Result<RootAt, RootFault>
        ensures finds { (t : Table D) (place : Placing) (a : Account) → Holds H.KIND self.old t place → IsAccount H.KIND self.old place a
            → RootsWord H.KIND self.old t place a (slice_get (root_words self.old) number) result self.new }
        ensures adds { OnOk result (OnlyAdds self.old self.new) }
        ensures err { OnErr result (self.new ≡ self.old) }
        ensures same { IsSameStore self.old self.new }
        ensures spare { scoped_places self.old ≤ scoped_places self.new }
        ensures reserved { 0 < self.old.spare → result ≡ Err RootFault.Memory → ⊥ }
    {
        self.owner.is_ready();
        let Some(root) = self.root_word(number) else {
            return Ok(RootAt::End);
        };
        if root.word == 0 {
            return Ok(RootAt::Null);
        }
        match self.push_root(root.word) {
            Ok(found) => Ok(RootAt::Root(root.name, found)),
            Err(fault) => Err(fault),
        }
    }
}
