//! Roots and frame slots: copied, given up, shown, left.

ghost use Rattle.std.specs.Prelude.{◌≡◌, ◌≤◌, ◌<◌, ◌^◌, ◌%◌, ◌↔◌, OnOk, OnErr, IfOk, IfErr, IsErrOf, IsOkUnless, true, false, length};
ghost use Rattle.gc_refs.specs.Words.{i31_word, i31_numbers};
ghost use Rattle.gc_roots.specs.Roots.{root_at};
ghost use Rattle.gc_heap.specs.Barriers.{cloned, dropped, exposed};
ghost use Rattle.test_mutator.specs.Mutators.{max_roots, word_at_root, with_root, without_root, gone_word, IsRoot};
ghost use Rattle.test_mutator.specs.Refusals.{RefusesRoot, CanCopy, RefusesCopy};

use crate::fault::MutatorFault;
use crate::mutator::Mutator;
use gc_heap::GcHeap;
use gc_refs::{I31, VMGcRef};
use gc_roots::{GcRootsList, RootPlace};

/// The number that each root has; a mutator knows them by their index.
pub(crate) const OBJECT: RootPlace = RootPlace { number: 0 };

/// How many roots a mutator has at most. With so many, no count of an object comes near its limit.
pub(crate) const MOST_ROOTS: usize = 0x8000_0000;

/// Makes room for one more root.
pub(crate) fn make_room(roots: &mut GcRootsList) -> Result<(), MutatorFault>
    ensures roots { roots.new.roots ≡ roots.old.roots }
    ensures room { OnOk result (0 < roots.new.spare) }
    ensures few { OnOk result (length roots.old.roots < 2 ^ 31) }
    ensures why { IfErr result (RefusesRoot roots.old.roots) }
{
    if roots.len() >= MOST_ROOTS {
        return Err(MutatorFault::Full);
    }
    match roots.reserve(1) {
        Ok(()) => Ok(()),
        Err(_) => Err(MutatorFault::Memory),
    }
}

/// The word of a root that is to be copied, for which there is room then.
fn word_to_copy(roots: &mut GcRootsList, index: usize) -> Result<VMGcRef, MutatorFault>
    ensures word { IfOk result (λ word. (word ≡ (root_at roots.old.roots index).word) × (0 < word)) }
    ensures roots { roots.new.roots ≡ roots.old.roots }
    ensures room { OnOk result (0 < roots.new.spare) }
    ensures can { OnOk result (CanCopy roots.old.roots index) }
    ensures no_root { IsErrOf result MutatorFault.NoRoot ↔ (length roots.old.roots ≤ index) }
    ensures why { IfErr result (RefusesCopy roots.old.roots index) }
{
    if index >= roots.len() {
        return Err(MutatorFault::NoRoot);
    }
    match make_room(roots) {
        Ok(()) => {
            let word = roots.word_at(index);
            let _present = word.as_raw_u32();
            Ok(word)
        }
        Err(fault) => Err(fault),
    }
}

/// The word of a root that was given up.
fn gone() -> VMGcRef
    ensures { result ≡ gone_word }
{
    VMGcRef::from_i31(I31::wrapping_u32(0))
}

impl<H: GcHeap> Mutator<H> {
    /// Copies the word of a root to a new one, and answers its index. `NoRoot` exactly where there is no
    /// root of that index, and else `Full` exactly where there are 2^31 roots.
    pub fn copy_root(&mut self, index: usize) -> Result<usize, MutatorFault>
        ensures copied { IfOk result (λ copy. (copy ≡ length self.old.roots)
            × (self.new ≡ with_root self.old (cloned self.old.heap (word_at_root self.old index)) false (word_at_root self.old index))) }
        ensures no_root { IsErrOf result MutatorFault.NoRoot ↔ (length self.old.roots ≤ index) }
        ensures can { OnOk result (CanCopy self.old.roots index) }
        ensures why { IfErr result (RefusesCopy self.old.roots index) }
        ensures err { OnErr result (self.new ≡ self.old) }
    {
        match word_to_copy(&mut self.roots, index) {
            Ok(word) => {
                let copy = self.heap.clone_gc_ref(&word);
                let at = self.roots.len();
                self.roots.add_vmgcref_root(OBJECT, copy);
                Ok(at)
            }
            Err(fault) => Err(fault),
        }
    }

    /// Makes a root that is a 31-bit number, the lowest 31 bits of the given one, and answers its index.
    /// `Full` exactly where there are 2^31 roots.
    pub fn make_number(&mut self, number: u32) -> Result<usize, MutatorFault>
        ensures made { IfOk result (λ index. (index ≡ length self.old.roots)
            × (self.new ≡ with_root self.old self.old.heap false (i31_word (number % i31_numbers)))) }
        ensures can { OnOk result (length self.old.roots < max_roots) }
        ensures why { IfErr result (RefusesRoot self.old.roots) }
        ensures err { OnErr result (self.new ≡ self.old) }
    {
        match make_room(&mut self.roots) {
            Ok(()) => {}
            Err(fault) => return Err(fault),
        }
        let at = self.roots.len();
        self.roots
            .add_vmgcref_root(OBJECT, VMGcRef::from_i31(I31::wrapping_u32(number)));
        Ok(at)
    }

    /// Gives a root up that is no frame slot; `NoRoot` exactly where it is none. The other roots keep their
    /// indexes: in its place stands a 31-bit number from then on.
    pub fn drop_root(&mut self, index: usize) -> Result<(), MutatorFault>
        ensures dropped { OnOk result (self.new ≡ without_root self.old (dropped self.old.heap (word_at_root self.old index)) index) }
        ensures no_root { IsErrOf result MutatorFault.NoRoot ↔ (¬ IsRoot false self.old index) }
        ensures why { IsOkUnless result MutatorFault.NoRoot }
        ensures err { OnErr result (self.new ≡ self.old) }
    {
        if index >= self.roots.len() || self.roots.is_on_wasm_stack_at(index) {
            return Err(MutatorFault::NoRoot);
        }
        let word = self.roots.word_at(index);
        let _present = word.as_raw_u32();
        self.heap.drop_gc_ref(word);
        self.roots.set_word_at(index, gone());
        Ok(())
    }

    /// Shows the word of a root to a new frame slot, and answers the index of the slot among the roots. It
    /// is refused where `copy_root` is.
    pub fn show_root(&mut self, index: usize) -> Result<usize, MutatorFault>
        ensures shown { IfOk result (λ slot. (slot ≡ length self.old.roots)
            × (self.new ≡ with_root self.old (exposed (cloned self.old.heap (word_at_root self.old index)) (word_at_root self.old index)) true
            (word_at_root self.old index))) }
        ensures no_root { IsErrOf result MutatorFault.NoRoot ↔ (length self.old.roots ≤ index) }
        ensures can { OnOk result (CanCopy self.old.roots index) }
        ensures why { IfErr result (RefusesCopy self.old.roots index) }
        ensures err { OnErr result (self.new ≡ self.old) }
    {
        match word_to_copy(&mut self.roots, index) {
            Ok(word) => {
                let copy = self.heap.clone_gc_ref(&word);
                self.heap.expose_gc_ref_to_wasm(copy);
                let at = self.roots.len();
                self.roots.add_wasm_stack_root(OBJECT, word);
                Ok(at)
            }
            Err(fault) => Err(fault),
        }
    }

    /// Leaves a frame slot: it holds nothing from then on. The heap is not told. `NoRoot` exactly where
    /// the root is no frame slot.
    pub fn leave_slot(&mut self, index: usize) -> Result<(), MutatorFault>
        ensures left { OnOk result (self.new ≡ without_root self.old self.old.heap index) }
        ensures no_root { IsErrOf result MutatorFault.NoRoot ↔ (¬ IsRoot true self.old index) }
        ensures why { IsOkUnless result MutatorFault.NoRoot }
        ensures err { OnErr result (self.new ≡ self.old) }
    {
        if index >= self.roots.len() || !self.roots.is_on_wasm_stack_at(index) {
            return Err(MutatorFault::NoRoot);
        }
        self.roots.set_word_at(index, gone());
        Ok(())
    }
}
