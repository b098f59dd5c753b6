//! The roots of an owner, and the room that a collection takes for them.

ghost use Rattle.std.specs.Prelude.{◌≡◌, ◌↔◌, ◌+◌, ◌-◌, ◌<◌, ◌≤◌, ◌^◌, [], ℕ, Bool, List, true, false, Some, None, length, map, min};
ghost use Rattle.std.specs.Prelude.{IfOk, IfSome, IsNone, OnOk, OnErr, slice_index_or};
ghost use Rattle.gc_types.specs.Declarations.{Declaration};
ghost use Rattle.gc_roots.specs.Roots.{Root};
ghost use Rattle.gc_heap.specs.Collection.{Start, stage, has_host, IsPartOf, moved_root};
ghost use Rattle.gc_owner.specs.RootColumns.{no_roots, spent_roots, roots_of, all_roots, moved_roots, MovesAll, with_list, without_list, with_room, with_places};
ghost use Rattle.gc_owner.specs.RootColumns.{Reserves};
ghost use Rattle.gc_owner.specs.RootColumns.{with_scoped, with_owned_root, with_handle_count, without_unheld, with_frame, without_frame};
ghost use Rattle.gc_owner.specs.RootColumns.{with_slot, with_global, newest_start, HasSlot, AreFrames, AreFew, global_count, empty_slot};
ghost use Rattle.gc_owner.specs.DroppedRoots.{PopsPast};
ghost use Rattle.gc_owner.specs.Going.{IsListed, StepsRoots, HasMovedList};
ghost use Rattle.gc_owner.specs.Tracing.{IsCollectable};
ghost use Rattle.gc_owner.specs.Owners.{CollectsRoots};

mod counted;

use crate::columns::{list_column, list_word, take_column, word_from};
use crate::entry::{GcClass, OwnedEntry, RootEntry, SlotEntry};
use crate::slots::GLOBAL_COUNT;
use gc_heap::collect::run;
use gc_heap::{GcHeap, GcProgress, GcStoreTraceState};
use gc_roots::{GcRootsList, RootPlace};
use std::alloc::{AllocError, Global};
use std::marker::Model;

/// How a collection's list knows each kind of root.
const SCOPED: RootPlace = RootPlace { number: 0 };

const OWNED: RootPlace = RootPlace { number: 1 };

const SLOTS: RootPlace = RootPlace { number: 2 };

const GLOBALS: RootPlace = RootPlace { number: 3 };

const PENDING: RootPlace = RootPlace { number: 4 };

/// The places that globals and the pending exception take in the list.
const OTHER_PLACES: usize = GLOBAL_COUNT as usize + 1;

/// For how many scoped roots room is made at once, where there is none.
const ROOTS_AT_ONCE: usize = 16;

/// A slot that holds nothing.
const NOTHING: SlotEntry = SlotEntry {
    class: GcClass::Any,
    word: 0,
};

/// The roots of all kinds. Whenever a root is made there is also room for it in the list that a collection
/// is given, so that a collection takes no memory.
#[derive(Drop)]
pub(crate) struct Roots {
    /// The scoped roots, from the oldest on.
    scoped: Vec<RootEntry>,
    /// For how many more scoped roots there is room, which nothing but a push lowers.
    spare: usize,
    /// The owned roots, from the oldest on.
    owned: Vec<OwnedEntry>,
    /// How many owned roots were made; it is the number of the next one.
    owns: u64,
    /// The slots of all open frames, from the oldest on.
    slots: Vec<SlotEntry>,
    /// Where the slots of each open frame begin.
    frames: Vec<usize>,
    globals: [SlotEntry; GLOBAL_COUNT as usize],
    /// The word of the pending exception; 0 where there is none.
    pending: u32,
    /// How many scope ends dropped a root; it is the generation of the next scoped root.
    generation: u64,
    /// The list that a collection is given; empty while none is under way.
    list: GcRootsList,
    /// Whether a collection is under way.
    is_listing: bool,
    /// How many roots the list was given; 0 while no collection is under way.
    given: usize,
    /// Whether the list has places for all roots. Without, no heap may be made.
    has_places: bool,
}

impl Model for Roots {
    ghost use Rattle.std.specs.Prelude.{◌≡◌, ◌≤◌, ◌-◌, ◌+◌, ◌^◌, [], true, false, Some, None, if◌then◌else◌, min, length, vec_len, vec_capacity};
    ghost use Rattle.gc_owner.specs.RootColumns.{RootsView, global_count, AreFrames};

    ghost Value = { RootsView };

    ghost view = { λ s. record {
      scoped = s.scoped.items;
      owned = s.owned.items;
      owns = s.owns;
      slots = s.slots.items;
      frames = s.frames.items;
      globals = s.globals;
      pending = s.pending;
      generation = s.generation;
      spare = s.spare;
      listed = if s.is_listing then Some s.list.roots else None;
      given = s.given;
      list_spare = s.list.spare + s.given;
      has_places = s.has_places;
    } };

    ghost invariant = { λ s. (s.is_listing ≡ false → (s.list.roots ≡ []) × (s.given ≡ 0))
        × (s.has_places ≡ true → vec_len s.scoped + s.spare + vec_len s.owned + vec_len s.slots + global_count + 1 ≤ s.list.spare + s.given)
        × (vec_len s.scoped ≤ 2 ^ 32) × (vec_len s.owned ≤ 2 ^ 32) × (length s.globals ≡ global_count) × AreFrames s.frames.items (vec_len s.slots)
        × (vec_len s.scoped + s.spare ≤ vec_capacity s.scoped) };
}

/// Puts all roots into the list of a collection, which is empty.
fn list_all(
    list: &mut GcRootsList,
    scoped: &[RootEntry],
    owned: &[OwnedEntry],
    slots: &[SlotEntry],
    globals: &[SlotEntry],
    pending: u32,
)
    requires empty { list.old.roots ≡ [] }
    requires room { length scoped.now + length owned.now + length slots.now + length globals.now + 1 ≤ list.old.spare }
    ensures roots { list.new.roots ≡ all_roots scoped.now owned.now slots.now globals.now pending }
    ensures total { list.new.spare + length list.new.roots ≡ list.old.spare + length list.old.roots }
{
    list_column(list, SCOPED, false, scoped);
    list_column(list, OWNED, false, owned);
    list_column(list, SLOTS, true, slots);
    list_column(list, GLOBALS, false, globals);
    list_word(list, PENDING, false, pending);
}

/// Gives all roots the words that the list has after a collection, and answers that of the pending
/// exception.
fn take_all(
    scoped: &mut [RootEntry],
    owned: &mut [OwnedEntry],
    slots: &mut [SlotEntry],
    globals: &mut [SlotEntry],
    pending: u32,
    list: &GcRootsList,
) -> u32
    requires { (to : ℕ → ℕ) × (list.now.roots ≡ map (moved_root to) (all_roots scoped.old owned.old slots.old globals.old pending)) }
    ensures { (to : ℕ → ℕ) → list.now.roots ≡ map (moved_root to) (all_roots scoped.old owned.old slots.old globals.old pending)
        → MovesAll to scoped.old scoped.new owned.old owned.new slots.old slots.new globals.old globals.new pending result }
{
    let owned_at = take_column(scoped, list, 0);
    let slots_at = take_column(owned, list, owned_at);
    let globals_at = take_column(slots, list, slots_at);
    let pending_at = take_column(globals, list, globals_at);
    word_from(list, pending_at, pending)
}

impl Roots {
    /// No roots.
    pub(crate) fn new(alloc: Global) -> Result<Roots, AllocError>
        ensures { IfOk result (λ r. r ≡ no_roots r.list_spare) }
    {
        let mut list = GcRootsList::new(alloc);
        list.reserve(OTHER_PLACES)?;
        Ok(Roots {
            scoped: Vec::new(alloc),
            spare: 0,
            owned: Vec::new(alloc),
            owns: 0,
            slots: Vec::new(alloc),
            frames: Vec::new(alloc),
            globals: [NOTHING; GLOBAL_COUNT as usize],
            pending: 0,
            generation: 0,
            list,
            is_listing: false,
            given: 0,
            has_places: true,
        })
    }

    /// No roots: as many scopes ended and owned roots were made as are counted, and the list of a collection has no
    /// places. It takes no memory.
    pub(crate) fn spent(alloc: Global) -> Roots
        ensures { result ≡ spent_roots result.list_spare }
    {
        Roots {
            scoped: Vec::new(alloc),
            spare: 0,
            owned: Vec::new(alloc),
            owns: u64::MAX,
            slots: Vec::new(alloc),
            frames: Vec::new(alloc),
            globals: [NOTHING; GLOBAL_COUNT as usize],
            pending: 0,
            generation: u64::MAX,
            list: GcRootsList::new(alloc),
            is_listing: false,
            given: 0,
            has_places: false,
        }
    }

    /// Whether the list of a collection has places for all roots.
    pub(crate) fn has_places(&self) -> bool
        ensures { result ≡ self.now.has_places }
    {
        let _entries = &self.scoped;
        self.has_places
    }

    /// There are no more scoped and owned roots than a u32 numbers, and frames lie in the slots. At run time
    /// it does nothing.
    pub(crate) fn are_few(&self)
        ensures few { AreFew self.now }
        ensures frames { AreFrames self.now.frames (length self.now.slots) }
    {
        let _entries = &self.scoped;
    }

    /// The scoped roots, from the oldest on.
    pub(crate) fn scoped(&self) -> &[RootEntry]
        ensures { result.now ≡ self.now.scoped }
    {
        self.scoped.as_slice()
    }

    /// The generation of the next scoped root.
    pub(crate) fn generation(&self) -> u64
        ensures { result ≡ self.now.generation }
    {
        self.generation
    }

    /// What to reserve before a scoped root is pushed.
    #[inline(always)]
    pub(crate) fn roots_wanted(&self) -> usize
        ensures some { 0 < result }
        ensures room { 0 < self.now.spare → result ≡ 1 }
    {
        let _entries = &self.scoped;
        if self.spare == 0 { ROOTS_AT_ONCE } else { 1 }
    }

    /// Makes room for so many more scoped roots, here and in the list of a collection.
    #[inline(always)]
    pub(crate) fn reserve(&mut self, additional: usize) -> Result<(), AllocError>
        ensures spare { Reserves additional self.old.spare self.new.spare result }
        ensures rest { self.new ≡ with_room self.new self.old }
    {
        if additional <= self.spare {
            return Ok(());
        }
        let count = self.scoped.len() + self.owned.len() + self.slots.len() + OTHER_PLACES;
        self.list.reserve(count.saturating_add(additional))?;
        self.scoped.reserve(additional)?;
        self.spare = additional;
        Ok(())
    }

    /// Adds a scoped root, for which there is room, and answers its index.
    #[inline(always)]
    pub(crate) fn push(&mut self, word: u32) -> u32
        requires room { 0 < self.old.spare }
        requires small { length self.old.scoped < 2 ^ 32 }
        ensures pushed { self.new ≡ with_scoped word self.old }
        ensures index { result ≡ length self.old.scoped }
    {
        let index = self.scoped.len() as u32;
        let generation = self.generation;
        self.scoped.push_reserved(RootEntry { generation, word });
        self.spare -= 1;
        index
    }

    /// Takes the newest scoped root off, if there are more than so many, and answers its word.
    pub(crate) fn pop_past(&mut self, mark: usize) -> Option<u32>
        ensures { PopsPast mark self.old self.new result }
    {
        if self.scoped.len() <= mark {
            return None;
        }
        match self.scoped.pop() {
            Some(entry) => Some(entry.word),
            None => None,
        }
    }

    /// A scope ended that dropped a root: the next ones are of another generation, which is counted up to
    /// the greatest u64.
    pub(crate) fn end_generation(&mut self)
        ensures { self.new ≡ record self.old { generation = min (self.old.generation + 1) (2 ^ 64 - 1) } }
    {
        self.generation = self.generation.saturating_add(1);
    }

    /// The owned roots, in their order.
    pub(crate) fn owned(&self) -> &[OwnedEntry]
        ensures { result.now ≡ self.now.owned }
    {
        self.owned.as_slice()
    }

    /// How many owned roots were made.
    pub(crate) fn owns(&self) -> u64
        ensures { result ≡ self.now.owns }
    {
        let _entries = &self.owned;
        self.owns
    }

    /// Adds an owned root with that word and one handle, and makes room for it in the list of a collection.
    pub(crate) fn own(&mut self, word: u32) -> Result<(), AllocError>
        requires few { length self.old.owned < 2 ^ 32 }
        requires numbered { self.old.owns < 2 ^ 64 - 1 }
        ensures ok { OnOk result (self.new ≡ with_places self.new (with_owned_root word self.old)) }
        ensures err { OnErr result (self.new ≡ with_places self.new self.old) }
    {
        let count = self.scoped.len() + self.owned.len() + self.slots.len() + OTHER_PLACES;
        self.list.reserve(count + self.spare + 1)?;
        self.owned.push(OwnedEntry {
            number: self.owns,
            handles: 1,
            word,
        })?;
        self.owns += 1;
        Ok(())
    }

    /// Sets how many handles the owned root at that place has.
    pub(crate) fn set_handles(&mut self, index: usize, handles: u32)
        requires { index < length self.old.owned }
        ensures { self.new ≡ with_handle_count index handles self.old }
    {
        self.owned[index].handles = handles;
    }

    /// Forgets the owned roots without handles.
    pub(crate) fn forget_unheld(&mut self)
        ensures { self.new ≡ with_places self.new (without_unheld self.old) }
    {
        self.owned.retain(|entry| entry.handles != 0);
    }

    /// Opens a frame of so many slots, each of which holds nothing, and makes room for them in the list of a
    /// collection.
    pub(crate) fn push_frame(&mut self, slots: u32) -> Result<(), AllocError>
        ensures ok { OnOk result (self.new ≡ with_places self.new (with_frame slots self.old)) }
        ensures err { OnErr result (self.new ≡ with_places self.new self.old) }
    {
        let start = self.slots.len();
        let end = start + slots as usize;
        let count = self.scoped.len() + self.owned.len() + end + OTHER_PLACES;
        self.list.reserve(count + self.spare)?;
        self.frames.reserve(1)?;
        self.slots.resize(end, NOTHING)?;
        self.frames.push_reserved(start);
        Ok(())
    }

    /// Closes the newest frame, and answers whether there was one.
    pub(crate) fn pop_frame(&mut self) -> bool
        ensures closed { result ≡ true → (0 < length self.old.frames) × (self.new ≡ with_places self.new (without_frame self.old)) }
        ensures none { result ≡ false → (self.old.frames ≡ []) × (self.new ≡ self.old) }
    {
        match self.frames.pop() {
            Some(start) => {
                self.slots.truncate(start);
                true
            }
            None => false,
        }
    }

    /// How many slots the newest frame has; None exactly where no frame is open.
    pub(crate) fn slot_count(&self) -> Option<usize>
        ensures count { IfSome result (λ count. newest_start self.now + count ≡ length self.now.slots) }
        ensures none { IsNone result ↔ (self.now.frames ≡ []) }
    {
        let start = self.frames.last()?;
        Some(self.slots.len() - *start)
    }

    /// The slots of all open frames, the oldest frame's first.
    pub(crate) fn slots(&self) -> &[SlotEntry]
        ensures { result.now ≡ self.now.slots }
    {
        self.slots.as_slice()
    }

    /// The slot of that index in the newest frame.
    pub(crate) fn slot(&self, index: u32) -> SlotEntry
        requires { HasSlot self.now index }
        ensures { result ≡ slice_index_or self.now.slots (newest_start self.now + index) empty_slot }
    {
        let start = self.frames[self.frames.len() - 1];
        self.slots[start + index as usize]
    }

    /// Overwrites the slot of that index in the newest frame.
    pub(crate) fn set_slot(&mut self, index: u32, entry: SlotEntry)
        requires { HasSlot self.old index }
        ensures { self.new ≡ with_slot index entry self.old }
    {
        let start = self.frames[self.frames.len() - 1];
        self.slots[start + index as usize] = entry;
    }

    /// The global of that index.
    pub(crate) fn global(&self, index: u32) -> SlotEntry
        requires { index < global_count }
        ensures { result ≡ slice_index_or self.now.globals index empty_slot }
    {
        self.globals[index as usize]
    }

    /// Overwrites the global of that index.
    pub(crate) fn set_global(&mut self, index: u32, entry: SlotEntry)
        requires { index < global_count }
        ensures { self.new ≡ with_global index entry self.old }
    {
        self.globals[index as usize] = entry;
    }

    /// The word of the pending exception; 0 where there is none.
    pub(crate) fn pending(&self) -> u32
        ensures { result ≡ self.now.pending }
    {
        self.pending
    }

    /// Overwrites the word of the pending exception.
    pub(crate) fn set_pending(&mut self, word: u32)
        ensures { self.new ≡ record self.old { pending = word } }
    {
        self.pending = word;
    }

    /// Collects. Afterwards the roots have the words of the objects that moved. It takes no memory.
    pub(crate) fn collect<H: GcHeap, D: Drop>(
        &mut self,
        heap: &mut H,
        trace: &mut GcStoreTraceState<'_, D>,
    )
        requires unlisted { self.old.listed ≡ None }
        requires placed { self.old.has_places ≡ true }
        requires sound { H.sound heap.old }
        requires attached { (H.seen heap.old).attached ≡ true }
        requires collectable { IsCollectable H.KIND trace.old.types.now.declarations (H.seen heap.old) (roots_of self.old)
            (has_host trace.old.host_data_table.now.entries) }
        ensures sound { H.sound heap.new }
        ensures collected { CollectsRoots H.KIND trace.old.types.now.declarations (H.seen heap.old) (H.seen heap.new) self.old self.new
            (has_host trace.old.host_data_table.now.entries) (has_host trace.new.host_data_table.now.entries) }
        ensures values { IsPartOf trace.new.host_data_table.now.entries trace.old.host_data_table.now.entries }
        ensures hosts { trace.new.host_data_table.ghost_name ≡ trace.old.host_data_table.ghost_name }
        ensures types { trace.new.types ≡ trace.old.types }
    {
        list_all(
            &mut self.list,
            self.scoped.as_slice(),
            self.owned.as_slice(),
            self.slots.as_slice(),
            &self.globals,
            self.pending,
        );
        run(heap, &mut self.list, trace);
        self.pending = take_all(
            self.scoped.as_mut_slice(),
            self.owned.as_mut_slice(),
            self.slots.as_mut_slice(),
            &mut self.globals,
            self.pending,
            &self.list,
        );
        self.list.clear();
    }

    /// Gives a collection that begins all roots, in its list.
    pub(crate) fn list_roots(&mut self)
        requires unlisted { self.old.listed ≡ None }
        requires placed { self.old.has_places ≡ true }
        ensures listed { self.new ≡ with_list (roots_of self.old) self.old }
        ensures unused { self.old.given ≡ 0 }
    {
        list_all(
            &mut self.list,
            self.scoped.as_slice(),
            self.owned.as_slice(),
            self.slots.as_slice(),
            &self.globals,
            self.pending,
        );
        self.given = self.list.len();
        self.is_listing = true;
    }

    /// Does an increment of the collection that was given the roots.
    pub(crate) fn step<H: GcHeap, D: Drop>(
        &mut self,
        heap: &mut H,
        state: &mut H::State,
        trace: &mut GcStoreTraceState<'_, D>,
    ) -> GcProgress
        requires { IsListed H.under_way self.old heap.old state.old trace.old.types.now.declarations trace.old.host_data_table.now.entries }
        ensures step { (s : Start) (n : ℕ) (c : Bool) (listed : List Root) → self.old.listed ≡ Some listed
            → H.under_way s n c (stage heap.old state.old listed trace.old.types.now.declarations trace.old.host_data_table.now.entries)
            → StepsRoots H.KIND H.under_way H.sound s n false self.old self.new heap.new (H.seen heap.new) state.new
            trace.old.types.now.declarations trace.new.host_data_table.now.entries result }
        ensures less { result ≡ GcProgress.Continue → H.left heap.new state.new < H.left heap.old state.old }
        ensures values { IsPartOf trace.new.host_data_table.now.entries trace.old.host_data_table.now.entries }
        ensures hosts { trace.new.host_data_table.ghost_name ≡ trace.old.host_data_table.ghost_name }
        ensures types { trace.new.types ≡ trace.old.types }
    {
        heap.step(state, &mut self.list, trace)
    }

    /// Takes the words of the roots from the list of a collection that is complete.
    pub(crate) fn take_roots(&mut self)
        requires { HasMovedList self.old }
        ensures { (to : ℕ → ℕ) → self.old.listed ≡ Some (map (moved_root to) (roots_of self.old)) → self.new ≡ moved_roots to (without_list self.old) }
    {
        self.pending = take_all(
            self.scoped.as_mut_slice(),
            self.owned.as_mut_slice(),
            self.slots.as_mut_slice(),
            &mut self.globals,
            self.pending,
            &self.list,
        );
        self.list.clear();
        self.is_listing = false;
        self.given = 0;
    }
}
