//! Barriers: the heap is told where a word is copied, given up, overwritten or shown. They take no memory, no
//! object changes, and of a 31-bit number no heap wants to hear.

ghost use Rattle.std.specs.Prelude.{◌≡◌, ◌%◌, None};
ghost use Rattle.std.specs.Option.{option_copied};
ghost use Rattle.std.specs.Int.NonZero.{non_zero_u32_get};
ghost use Rattle.gc_heap.specs.Barriers.{CanName, CanUnname, CanNameSlot, CanUnnameSlot, cloned, copied, dropped, exposed, overwritten};
ghost use Rattle.gc_raw_store.specs.Stores.{HoldsNoObject};

use crate::store::GcStore;
use gc_heap::GcHeap;
use gc_refs::VMGcRef;
use std::num::NonZeroU32;

impl<H: GcHeap, D: Drop> GcStore<H, D> {
    /// The same word once more. A heap that counts references counts it.
    pub fn clone_gc_ref(&mut self, gc_ref: &VMGcRef) -> VMGcRef
        requires named { CanName self.old.heap gc_ref.now }
        ensures value { result ≡ gc_ref.now }
        ensures store { self.new ≡ record self.old { heap = cloned self.old.heap gc_ref.now } }
        ensures number { gc_ref.now % 2 ≡ 1 → self.new ≡ self.old }
    {
        self.heap.clone_gc_ref(gc_ref)
    }

    /// Puts a copy of a word, or null, into a slot that holds null.
    pub fn init_gc_ref(&mut self, destination: &mut Option<VMGcRef>, source: Option<&VMGcRef>)
        requires empty { destination.old ≡ None }
        requires source { CanNameSlot self.old.heap (option_copied source) }
        ensures value { destination.new ≡ option_copied source.entry }
        ensures store { self.new ≡ record self.old { heap = copied self.old.heap (option_copied source.entry) } }
        ensures number { HoldsNoObject (option_copied source.entry) → self.new ≡ self.old }
    {
        self.write_gc_ref(destination, source)
    }

    /// Overwrites a slot with a copy of a word, or with null. A heap that counts references counts the copy
    /// before it takes off what the slot held.
    pub fn write_gc_ref(&mut self, destination: &mut Option<VMGcRef>, source: Option<&VMGcRef>)
        requires source { CanNameSlot self.old.heap (option_copied source) }
        requires destination { CanUnnameSlot self.old.heap destination.old }
        ensures value { destination.new ≡ option_copied source.entry }
        ensures store { self.new ≡ record self.old { heap = overwritten self.old.heap destination.old (option_copied source.entry) } }
        ensures number { HoldsNoObject destination.old → HoldsNoObject (option_copied source.entry) → self.new ≡ self.old }
    {
        self.heap.write_gc_ref(destination, source)
    }

    /// A word is given up. A heap that counts references takes it off.
    pub fn drop_gc_ref(&mut self, gc_ref: VMGcRef)
        requires named { CanUnname self.old.heap gc_ref }
        ensures store { self.new ≡ record self.old { heap = dropped self.old.heap gc_ref } }
        ensures number { gc_ref % 2 ≡ 1 → self.new ≡ self.old }
    {
        self.heap.drop_gc_ref(gc_ref)
    }

    /// A word is shown to a frame slot, which holds it from then on: it is answered as compiled code takes it. A
    /// heap that counts references puts its object on the list of shown words, in the place of the name that is
    /// given up.
    pub fn expose_gc_ref_to_wasm(&mut self, gc_ref: VMGcRef) -> NonZeroU32
        requires named { CanUnname self.old.heap gc_ref }
        ensures word { non_zero_u32_get result ≡ gc_ref }
        ensures store { self.new ≡ record self.old { heap = exposed self.old.heap gc_ref } }
        ensures number { gc_ref % 2 ≡ 1 → self.new ≡ self.old }
    {
        let word = gc_ref.as_raw_non_zero_u32();
        self.heap.expose_gc_ref_to_wasm(gc_ref);
        word
    }
}
