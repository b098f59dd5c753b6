//! What a mutator reads: roots, fields, and how much there is.

ghost use Rattle.std.specs.Prelude.{◌≡◌, ◌≢◌, ◌≤◌, ◌<◌, ◌%◌, Some, None, SomeIff, IfSome, IfNone, OnSome, IfOk, IfErr, OnOk, length, ℕ};
ghost use Rattle.std.specs.FinMap as finite;
ghost use Rattle.std.specs.Int.{w32};
ghost use Rattle.gc_refs.specs.LittleEndian.{unsigned_at};
ghost use Rattle.gc_heap.specs.Content.{IsHeld};
ghost use Rattle.gc_types.specs.declared.kind.VMGcKind.TheVariants.{ExternRef};
ghost use Rattle.gc_view.specs.Heaps.{HeapObject};
ghost use Rattle.gc_heap.specs.Objects.{host_id};
ghost use Rattle.gc_heap.specs.References.{word_in};
ghost use Rattle.gc_heap.specs.Access.{ReadsData};
ghost use Rattle.test_mutator.specs.Mutators.{word_at_root, NamesObject, NamesSuch};
ghost use Rattle.test_mutator.specs.Fields.{HasWord, Leads};
ghost use Rattle.test_mutator.specs.Refusals.{RefusesObject};

use crate::fault::MutatorFault;
use crate::fields::has_words;
use crate::mutator::Mutator;
use gc_heap::access::read_u32;
use gc_heap::{GcHeap, RefKinds};
use gc_refs::{VMExternRef, VMGcRef};

/// The word that lies at an offset of the struct, array or exception that a word names, in the part that
/// its holder may write, if there is one and it isn't null.
fn reference_at<H: GcHeap>(heap: &H, holder: &VMGcRef, offset: u32) -> Option<VMGcRef>
    requires { H.sound heap.now }
    ensures held { (o : HeapObject) → finite.get (H.seen heap.now).content holder.now ≡ Some o
        → SomeIff result (HasWord H.KIND o offset × (0 < word_in H.KIND o offset)) (word_in H.KIND o offset) }
    ensures number { holder.now % 2 ≡ 1 → result ≡ None }
{
    if !has_words(heap, holder, offset) {
        return None;
    }
    match heap.gc_object_data(holder) {
        Ok(data) => match data.read_u32(offset) {
            Ok(word) => VMGcRef::from_raw_u32(word),
            Err(_) => None,
        },
        Err(_) => None,
    }
}

impl<H: GcHeap> Mutator<H> {
    /// The heap, to be read through its interface.
    pub fn heap(&self) -> &H
        ensures sound { H.sound result.now }
        ensures seen { H.seen result.now ≡ self.now.heap }
    {
        &self.heap
    }

    /// The word of a root.
    pub fn root(&self, index: usize) -> Option<VMGcRef>
        ensures some { IfSome result (λ word. (index < length self.now.roots) × (word ≡ word_at_root self.now index)) }
        ensures none { IfNone result (length self.now.roots ≤ index) }
    {
        let _heap = &self.heap;
        if index < self.roots.len() {
            Some(self.roots.word_at(index))
        } else {
            None
        }
    }

    /// The word of a root that names an object.
    pub(crate) fn object(&self, index: usize) -> Option<VMGcRef>
        ensures some { IfSome result (λ word. (word ≡ word_at_root self.now index) × IsHeld self.now.heap word) }
        ensures stands { OnSome result (index < length self.now.roots) }
        ensures none { IfNone result (¬ NamesObject self.now index) }
    {
        let _heap = &self.heap;
        if index >= self.roots.len() {
            return None;
        }
        let word = self.roots.word_at(index);
        let _present = word.as_raw_u32();
        if word.is_i31() { None } else { Some(word) }
    }

    /// The word that a path of offsets leads to from a root. What lies at an offset is taken for a
    /// reference. None where there is no such root, where null lies at an offset of the path, and where
    /// the path goes on from a 31-bit number or from an object with no word at the next offset.
    pub fn follow(&self, root: usize, path: &[u32]) -> Option<VMGcRef>
        ensures no_root { length self.now.roots ≤ root → result ≡ None }
        ensures leads { root < length self.now.roots → Leads H.KIND self.now.heap (word_at_root self.now root) path.now result }
    {
        let mut word = self.root(root)?;
        for offset in path {
            word = reference_at(&self.heap, &word, *offset)?;
        }
        Some(word)
    }

    /// The 32-bit number at an offset of the struct, array or exception that a root names. `NoRoot` exactly
    /// where the root names no object, and else `NoField` exactly where no word lies at that offset in the
    /// part that the object's holder may write.
    pub fn number(&self, index: usize, offset: u32) -> Result<u32, MutatorFault>
        ensures number { IfOk result (λ number. ReadsData H.KIND self.now.heap (word_at_root self.now index) offset 4 (unsigned_at w32) number) }
        ensures field { OnOk result (NamesSuch self.now index (λ o. HasWord H.KIND o offset)) }
        ensures why { IfErr result (RefusesObject self.now index (λ o. HasWord H.KIND o offset)) }
    {
        let Some(object) = self.object(index) else {
            return Err(MutatorFault::NoRoot);
        };
        if !has_words(&self.heap, &object, offset) {
            return Err(MutatorFault::NoField);
        }
        Ok(read_u32(&self.heap, &object, offset))
    }

    /// The host value of the external object that a word names; None for a 31-bit number and for an object
    /// that is none. Of a word that names no held object nothing is promised.
    pub fn host(&self, word: VMGcRef) -> Option<u8>
        ensures external { (o : HeapObject) → finite.get self.now.heap.content word ≡ Some o → o.kind ≡ ExternRef
            → result ≡ finite.get self.now.hosts (host_id o) }
        ensures other { (o : HeapObject) → finite.get self.now.heap.content word ≡ Some o → o.kind ≢ ExternRef → result ≡ None }
        ensures number { word % 2 ≡ 1 → result ≡ None }
    {
        if !word.is_externref(&self.heap) {
            return None;
        }
        let external = VMExternRef::new_unchecked(word);
        match self.heap.externref_host_data(&external) {
            Ok(id) => match self.hosts.get(id) {
                Ok(value) => Some(*value),
                Err(_) => None,
            },
            Err(_) => None,
        }
    }

    /// How many objects the heap holds, garbage among them.
    pub fn objects(&self) -> u64
        ensures { result ≡ finite.len self.now.heap.content }
    {
        self.heap.object_count()
    }

    /// How many bytes are allocated.
    pub fn allocated_bytes(&self) -> usize
        ensures { result ≡ self.now.heap.allocated }
    {
        self.heap.allocated_bytes()
    }

    /// How many host values there are.
    pub fn host_values(&self) -> u64
        ensures { result ≡ finite.len self.now.hosts }
    {
        let _heap = &self.heap;
        self.hosts.len()
    }
}
