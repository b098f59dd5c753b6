//! Fields of held objects, written by the heap's barrier.

ghost use Rattle.std.specs.Prelude.{◌≡◌, ◌⊎◌, ◌-◌, ◌≤◌, ◌<◌, ◌^◌, ◌%◌, ◌↔◌, ℕ, false, List, [], Option, Some, None, IfSome, IfOk, IfErr, OnOk, OnErr};
ghost use Rattle.std.specs.Prelude.{MatchOption, IsTrue, length};
ghost use Rattle.std.specs.List.{Contains};
ghost use Rattle.std.specs.FinMap as finite;
ghost use Rattle.std.specs.Option.{option_copied};
ghost use Rattle.gc_types.specs.declared.kind.Layouts.{Layouts};
ghost use Rattle.gc_types.specs.declared.kind.Layouts.TheVariants.{Counting};
ghost use Rattle.gc_types.specs.Declarations.{Declaration};
ghost use Rattle.gc_types.specs.Layouts.{struct_base, array_base};
ghost use Rattle.gc_view.specs.Heaps.{HeapObject};
ghost use Rattle.gc_heap.specs.Objects.{HasFields, writable_offset, array_length};
ghost use Rattle.gc_refs.specs.Trace.{form_unit};
ghost use Rattle.gc_heap.specs.References.{word_offsets, info_offsets, word_in};
ghost use Rattle.gc_heap.specs.Content.{IsHeld};
ghost use Rattle.gc_heap.specs.Access.{IsReadable};
ghost use Rattle.gc_heap.specs.Barriers.{CanNameSlot};
ghost use Rattle.gc_heap.specs.Collection.{IsWordOf};
ghost use Rattle.test_mutator.specs.Mutators.{word_at_root, source_word};
ghost use Rattle.test_mutator.specs.Fields.{HasWord, HasReference, HasNumberWord, HasOnlyNumbers, NamesNone, word_or_null, WritesReference, WritesNumber};
ghost use Rattle.test_mutator.specs.Refusals.{CanBeSource, RefusesSource, RefusesReference, RefusesObject};

use crate::fault::MutatorFault;
use crate::mutator::Mutator;
use crate::rooting::MOST_ROOTS;
use gc_heap::access::{read_u32, write_u32};
use gc_heap::{GcHeap, RefKinds};
use gc_refs::VMGcRef;
use gc_types::{Layouts, TraceInfo, Types};

/// Where the part of a struct, an array or an exception begins that its holder may write.
fn first_offset<H: GcHeap>(heap: &H, holder: &VMGcRef) -> Option<u32>
    requires { H.sound heap.now }
    ensures held { (o : HeapObject) → finite.get (H.seen heap.now).content holder.now ≡ Some o
        → MatchOption result (¬ HasFields o.kind) (λ n. HasFields o.kind × (writable_offset H.KIND o.kind ≡ n)) }
    ensures number { holder.now % 2 ≡ 1 → result ≡ None }
{
    if holder.is_structref(heap) {
        return Some(H::KIND.struct_base());
    }
    if holder.is_exnref(heap) {
        return Some(H::KIND.struct_base());
    }
    if holder.is_arrayref(heap) {
        return Some(H::KIND.array_base());
    }
    None
}

/// Whether a word at that offset lies in the part of a held object that its holder may write.
pub(crate) fn has_words<H: GcHeap>(heap: &H, holder: &VMGcRef, offset: u32) -> bool
    requires { H.sound heap.now }
    ensures held { (o : HeapObject) → finite.get (H.seen heap.now).content holder.now ≡ Some o → IsTrue result ↔ HasWord H.KIND o offset }
    ensures number { holder.now % 2 ≡ 1 → result ≡ false }
{
    let Some(first) = first_offset(heap, holder) else {
        return false;
    };
    let Ok(size) = heap.object_size(holder) else {
        return false;
    };
    if offset < first {
        return false;
    }
    offset as usize + 4 <= size
}

/// Whether an element of an array of so many references lies at that offset.
fn is_element(layouts: Layouts, length: u32, offset: u32) -> bool
    ensures { IsTrue result ↔ Contains (word_offsets (array_base layouts) length) offset }
{
    let base = layouts.array_base();
    if offset < base {
        return false;
    }
    let behind = offset - base;
    if behind % 4 != 0 {
        return false;
    }
    behind / 4 < length
}

/// Whether a reference lies at that offset of an object with that trace info, whose length, if it is an
/// array, is that.
fn is_reference(layouts: Layouts, info: Option<&TraceInfo>, length: u32, offset: u32) -> bool
    ensures { (o : HeapObject) → array_length o ≡ length → (IsTrue result ↔ Contains (info_offsets layouts o (option_copied info.entry)) offset) }
{
    match info {
        Some(TraceInfo::Struct { gc_ref_offsets }) => gc_ref_offsets.as_slice().contains(&offset),
        Some(TraceInfo::Array { gc_ref_elems }) => {
            *gc_ref_elems && is_element(layouts, length, offset)
        }
        None => false,
    }
}

/// Whether a reference lies at that offset of a held object, by its type.
fn has_reference<H: GcHeap>(heap: &H, types: &Types, holder: &VMGcRef, offset: u32) -> bool
    requires sound { H.sound heap.now }
    requires held { IsHeld (H.seen heap.now) holder.now }
    ensures { (o : HeapObject) → finite.get (H.seen heap.now).content holder.now ≡ Some o
        → IsTrue result ↔ HasReference H.KIND types.now.declarations o offset }
{
    if offset % 4 != 0 {
        return false;
    }
    if !has_words(heap, holder, offset) {
        return false;
    }
    let Ok(header) = heap.header(holder) else {
        return false;
    };
    let length = read_u32(heap, holder, H::KIND.struct_base());
    let info = types.trace_info(H::KIND, header.type_index());
    is_reference(H::KIND, info, length, offset)
}

/// What the barrier of a write is told of the word that is overwritten: only a heap that counts gives a
/// name up, the others look at nothing.
fn overwritten_word<H: GcHeap>(heap: &H, holder: &VMGcRef, offset: u32) -> Option<VMGcRef>
    requires sound { H.sound heap.now }
    requires inside { IsReadable H.KIND (H.seen heap.now) holder.now offset 4 }
    ensures counting { (o : HeapObject) → finite.get (H.seen heap.now).content holder.now ≡ Some o → H.KIND ≡ Counting
        → word_or_null result ≡ word_in H.KIND o offset }
    ensures present { IfSome result (λ word. 0 < word) }
    ensures others { (H.KIND ≡ Counting → ⊥) → result ≡ None }
{
    match H::KIND {
        Layouts::Counting => VMGcRef::from_raw_u32(read_u32(heap, holder, offset)),
        Layouts::Null | Layouts::Copying => None,
    }
}

/// The number that stands for a slot.
fn raw_word(slot: &Option<VMGcRef>) -> u32
    ensures { result ≡ word_or_null slot.now }
{
    match slot {
        Some(word) => word.as_raw_u32(),
        None => 0,
    }
}

/// The trace word of an array without references.
const PLAIN_ARRAY: u32 = 0x0080_0000;

/// Whether objects with that trace info have no references.
fn names_nothing(info: Option<&TraceInfo>) -> bool
    ensures { IsTrue result ↔ NamesNone (option_copied info.entry) }
{
    match info {
        Some(TraceInfo::Struct { gc_ref_offsets }) => gc_ref_offsets.as_slice().is_empty(),
        Some(TraceInfo::Array { gc_ref_elems }) => !*gc_ref_elems,
        None => false,
    }
}

/// Whether objects with that trace word have no references.
fn traces_nothing(word: u32) -> bool
    ensures { IsTrue result ↔ ((word ≡ 0) ⊎ (word ≡ form_unit)) }
{
    if word == 0 {
        return true;
    }
    word == PLAIN_ARRAY
}

/// Whether a held object is of numbers alone, by what its heap traces it by.
fn is_plain<H: GcHeap>(heap: &H, types: &Types, holder: &VMGcRef) -> bool
    requires sound { H.sound heap.now }
    requires held { IsHeld (H.seen heap.now) holder.now }
    ensures { (o : HeapObject) → finite.get (H.seen heap.now).content holder.now ≡ Some o → IsTrue result ↔ HasOnlyNumbers H.KIND types.now.declarations o }
{
    let Ok(header) = heap.header(holder) else {
        return false;
    };
    match H::KIND {
        Layouts::Copying => traces_nothing(header.reserved_u26()),
        Layouts::Null | Layouts::Counting => {
            names_nothing(types.trace_info(H::KIND, header.type_index()))
        }
    }
}

impl<H: GcHeap> Mutator<H> {
    /// What is to be written for that root, or for none.
    fn source(&self, source: Option<usize>) -> Result<Option<VMGcRef>, MutatorFault>
        ensures word { IfOk result (λ word. word ≡ source_word self.now source) }
        ensures can { IfOk result (λ word. CanNameSlot self.now.heap word) }
        ensures names { IfOk result (λ word. IsWordOf self.now.heap (word_or_null word)) }
        ensures present { IfOk result (λ word. IfSome word (λ w. 0 < w)) }
        ensures writes { OnOk result (CanBeSource self.now source) }
        ensures why { IfErr result (RefusesSource self.now source) }
    {
        let _heap = &self.heap;
        let Some(index) = source else {
            return Ok(None);
        };
        if index >= self.roots.len() {
            return Err(MutatorFault::NoRoot);
        }
        if self.roots.len() >= MOST_ROOTS {
            return Err(MutatorFault::Full);
        }
        let word = self.roots.word_at(index);
        let _present = word.as_raw_u32();
        Ok(Some(word))
    }

    /// Writes the word of a root, or null, to a reference of the object that another root names. `NoRoot`
    /// exactly where the holder is no root that names an object, or the source is no root; then `Full`
    /// exactly where a root is written and there are 2^31 roots, and `NoField` exactly where the object has no
    /// reference at that offset, by its type.
    pub fn write_reference(
        &mut self,
        holder: usize,
        offset: u32,
        source: Option<usize>,
    ) -> Result<(), MutatorFault>
        ensures written { OnOk result (WritesReference H.KIND self.old self.new holder offset (source_word self.old source)) }
        ensures can { OnOk result (CanBeSource self.old source) }
        ensures why { IfErr result (RefusesReference H.KIND self.old holder offset source) }
        ensures err { OnErr result (self.new ≡ self.old) }
    {
        let Some(object) = self.object(holder) else {
            return Err(MutatorFault::NoRoot);
        };
        let word = match self.source(source) {
            Ok(word) => word,
            Err(fault) => return Err(fault),
        };
        if !has_reference(&self.heap, &self.types, &object, offset) {
            return Err(MutatorFault::NoField);
        }
        let mut slot = overwritten_word(&self.heap, &object, offset);
        self.heap.write_gc_ref(&mut slot, word.as_ref());
        write_u32(&mut self.heap, &object, offset, raw_word(&word));
        Ok(())
    }

    /// Writes a number to a struct, an array or an exception that has no references. `NoRoot` exactly where
    /// the holder is no root that names an object, and else `NoField` exactly where no word lies at that
    /// offset in the part that the object's holder may write, or the object may have references.
    pub fn write_number(
        &mut self,
        holder: usize,
        offset: u32,
        number: u32,
    ) -> Result<(), MutatorFault>
        ensures written { OnOk result (WritesNumber H.KIND self.old self.new holder offset number) }
        ensures why { IfErr result (RefusesObject self.old holder (λ o. HasNumberWord H.KIND self.old.types o offset)) }
        ensures err { OnErr result (self.new ≡ self.old) }
    {
        let Some(object) = self.object(holder) else {
            return Err(MutatorFault::NoRoot);
        };
        if !has_words(&self.heap, &object, offset) {
            return Err(MutatorFault::NoField);
        }
        if !is_plain(&self.heap, &self.types, &object) {
            return Err(MutatorFault::NoField);
        }
        write_u32(&mut self.heap, &object, offset, number);
        Ok(())
    }
}
