//! Words that are named once more, given up, or shown to a frame slot. A 31-bit number names no object.

ghost use Rattle.std.specs.Prelude.{ℕ, ◌≡◌};
ghost use Rattle.gc_heap.specs.Barriers.{CanName, CanUnname, cloned, dropped, exposed};
ghost use Rattle.gc_drc.specs.Content.{IsSoundSpace, counting_seen_in};

use crate::space::CountedSpace;
use gc_refs::VMGcRef;

impl CountedSpace {
    /// Counts a copy of a word.
    pub(crate) fn name(&mut self, gc_ref: &VMGcRef)
        requires sound { IsSoundSpace self.old }
        requires named { (scopes : ℕ) × CanName (counting_seen_in scopes self.old) gc_ref.now }
        ensures sound { IsSoundSpace self.new }
        ensures seen { (scopes : ℕ) → counting_seen_in scopes self.new ≡ cloned (counting_seen_in scopes self.old) gc_ref.now }
    {
        if !gc_ref.is_i31() {
            self.raise(gc_ref.as_raw_u32());
        }
    }

    /// Takes a word off that is given up.
    pub(crate) fn unname(&mut self, gc_ref: &VMGcRef)
        requires sound { IsSoundSpace self.old }
        requires named { (scopes : ℕ) × CanUnname (counting_seen_in scopes self.old) gc_ref.now }
        ensures sound { IsSoundSpace self.new }
        ensures seen { (scopes : ℕ) → counting_seen_in scopes self.new ≡ dropped (counting_seen_in scopes self.old) gc_ref.now }
    {
        if !gc_ref.is_i31() {
            self.lower(gc_ref.as_raw_u32());
        }
    }

    /// Hands a word to the list of shown words.
    pub(crate) fn show(&mut self, gc_ref: &VMGcRef)
        requires sound { IsSoundSpace self.old }
        requires named { (scopes : ℕ) × CanUnname (counting_seen_in scopes self.old) gc_ref.now }
        ensures sound { IsSoundSpace self.new }
        ensures seen { (scopes : ℕ) → counting_seen_in scopes self.new ≡ exposed (counting_seen_in scopes self.old) gc_ref.now }
    {
        if !gc_ref.is_i31() {
            self.expose(gc_ref.as_raw_u32());
        }
    }
}
