//! The interface of a heap.

use crate::collection::{GcProgress, GcStoreTraceState};
use crate::fault::HeapFault;
use crate::layouts::array_bytes;
use crate::new_object::{FirstWord, array_header, struct_header};
use crate::{read, sizes};
use gc_memory::HeapMemory;
use gc_memory::offsets::external_size;
use gc_refs::{RefFault, VMArrayRef, VMExternRef, VMGcHeader, VMGcObjectData, VMGcRef};
use gc_roots::GcRootsList;
use gc_steps::Steps;
use gc_tables::ExternRefHostDataId;
use gc_types::{GcArrayLayout, GcStructLayout, Layouts, VMSharedTypeIndex};
use std::alloc::Global;
use std::ops::Range;
use std::sync::ledger::Ledger;

/// The kind of a heap. It decides how the heap's objects are laid out, so it is the same as their
/// layouts.
pub type HeapKind = Layouts;

/// A heap of garbage-collected objects.
///
/// What contracts see of it is `seen`: its content (a finite map from places to objects), its
/// capacity and its counts (`HeapView` of `gc_view`). Most calls want a heap that is `sound`, as it is
/// outside a collection and while its memory is not taken; of a sound heap `IsHeap` is true, by the
/// law `is_heap`. `memory` and `is_attached` want nothing, `replace_memory` a heap whose memory is
/// taken, and `step` and `step_counted` a collection that is under way.
///
/// A word is an `i31` where it is odd, and else the place of an object. Reads are safe for every
/// word, and answer `BadRef` always for an i31 and else only for a word that names no held object of
/// the kind that is asked for. Barriers and `set_header` want an i31 or a word of a held object, all
/// other calls a word of a held object.
///
/// Times of the heaps here, which no clause says: reads and barriers are constant. An allocation is
/// linear in the object's size, and so is a write in its bytes; a counting heap also searches its free
/// runs for an allocation and for an object that is given back, in a logarithm of their number, and
/// moves entries of two vectors. A collection is linear in the roots, and in what a copying heap keeps
/// and the external objects that it held, or in what a counting heap holds, beside giving back what
/// that one frees; in a null heap it is constant.
pub trait GcHeap {
    ghost use Rattle.std.specs.Prelude.{ℕ, ◌≡◌, ◌≤◌, ◌<◌, ◌⊎◌, ◌%◌, ◌-◌, ◌+◌, ◌^◌, ◌++◌, Bool, true, false, List, length, take, drop, replicate, OnOk, OnErr};
    ghost use Rattle.std.specs.Prelude.{IfErr, IsOkAnd, IsErr, IsOk, MatchOption, Some};
    ghost use Rattle.std.specs.Ordering.{nat_cmp};
    ghost use Rattle.std.specs.Option.{option_copied};
    ghost use Rattle.std.specs.FinMap as finite;
    ghost use Rattle.std.specs.FinSet as finset;
    ghost use Rattle.gc_types.specs.declared.kind.Layouts.{Layouts};
    ghost use Rattle.gc_types.specs.declared.kind.VMGcKind.{VMGcKind};
    ghost use Rattle.gc_types.specs.declared.kind.VMGcKind.TheVariants.{ExternRef, StructRef, ArrayRef, ExnRef};
    ghost use Rattle.gc_types.specs.Declarations.{Declaration};
    ghost use Rattle.gc_types.specs.Layouts.{array_base};
    ghost use Rattle.gc_refs.specs.Header.{IsOfKind, spare_bits};
    ghost use Rattle.gc_roots.specs.Roots.{Root};
    ghost use Rattle.gc_memory.specs.Offsets.{external_size};
    ghost use Rattle.gc_view.specs.Bytes.{u32_at};
    ghost use Rattle.gc_view.specs.Sizes.{too_large, need_of};
    ghost use Rattle.gc_view.specs.Heaps.{HeapView, HeapObject, detached_in};
    ghost use Rattle.gc_heap.specs.declared.collection.GcProgress.{GcProgress};
    ghost use Rattle.gc_heap.specs.Objects.{held_size, first_offset, array_length, external, zeroed, HasFields, IsHeaderOf, IsObjectData};
    ghost use Rattle.gc_heap.specs.Rules.{SpareFits, LayoutTraces, ArrayTraces};
    ghost use Rattle.gc_heap.specs.Content.{IsHeld, IsHeap};
    ghost use Rattle.gc_heap.specs.LentMemory.{IsMemoryOf};
    ghost use Rattle.gc_heap.specs.Making.{CanMake, made};
    ghost use Rattle.gc_heap.specs.Heap.{empty_heap, grown, Allocated, layout_kind, new_struct, new_array, array_size, given_back, IsWritable, with_data};
    ghost use Rattle.gc_heap.specs.Heap.{put_object, with_spare_of, CanAllocate, CanGiveBack, IsStructOrExn, IsArrayKind, IsSameHeader};
    ghost use Rattle.gc_heap.specs.Barriers.{ShowsCount, CanName, CanUnname, CanNameSlot, CanUnnameSlot, IsNamed, cloned, dropped, exposed, overwritten};
    ghost use Rattle.gc_heap.specs.Collection.{Start, Stage, stage, IsUnderWay, has_host, IsPartOf, CanCollect, Collected, Stepped, IsStepCount};

    /// What a collection knows between two increments.
    type State: Drop;

    /// What contracts see of the heap.
    ghost seen: { Self → HeapView };

    /// The heap is as it is outside a collection, and has its memory or none.
    ghost sound: { Self → Type 0 };

    /// The memory of the heap is taken; the heap was seen so before, with a memory of these bytes.
    ghost taken: { Self → HeapView → List ℕ → Type 0 };

    /// A state of `begin`, of which no increment was done.
    ghost begun: { Self.State → Type 0 };

    /// How many steps the counted increments of a state took.
    ghost ticks: { Self.State → ℕ };

    /// A collection that began there has done so many increments, each of them counted or not, and
    /// stands so now.
    ghost under_way: { Start → ℕ → Bool → Stage Self Self.State → Type 0 };

    /// What is left of a collection; each increment makes it less.
    ghost left: { Self → Self.State → ℕ };

    /// The kind of the heap.
    ghost KIND: { Layouts };

    const KIND: HeapKind;

    /// A heap with no memory and no scope. It takes no memory until some is attached.
    fn unattached(alloc: Global) -> Self
        ensures sound { sound result }
        ensures seen { seen result ≡ detached_in 0 };

    // Sizes

    /// Whether no heap of this kind can hold an object of `size` bytes, whatever memory it has.
    final fn is_too_large(size: u32) -> bool
        ensures { result ≡ too_large KIND size }
    {
        sizes::is_too_large(Self::KIND, size)
    }

    /// The bytes that a heap of this kind without room for an object of `size` bytes has to grow by, so
    /// that the object fits.
    final fn need(size: u32) -> u64
        ensures { result ≡ need_of KIND size }
    {
        sizes::need(Self::KIND, u64::from(size))
    }

    // Attaching

    /// Lends the memory, in which all lies that the heap holds. None where the heap isn't attached.
    fn memory(&self) -> Option<&HeapMemory>
        ensures attached { MatchOption result ((seen self.now).attached ≡ false) (λ _. (seen self.now).attached ≡ true) }
        ensures lent { sound self.now → MatchOption result (seen self.now ≡ detached_in (seen self.now).scopes)
            (λ memory. IsMemoryOf KIND (seen self.now) memory.now) };

    /// Whether the heap has a memory.
    final fn is_attached(&self) -> bool
        ensures { result ≡ (seen self.now).attached }
    {
        self.memory().is_some()
    }

    /// Gives the heap its memory. It holds no objects then. An Err is want of memory and hands the
    /// memory back.
    fn attach(&mut self, memory: HeapMemory) -> Result<(), HeapMemory>
        requires sound { sound self.old }
        requires detached { (seen self.old).attached ≡ false }
        ensures sound { sound self.new }
        ensures ok { OnOk result (seen self.new ≡ empty_heap KIND (length memory) (seen self.old).scopes) }
        ensures err { OnErr result (seen self.new ≡ seen self.old) }
        ensures back { IfErr result (λ given. given ≡ memory) };

    /// Takes the memory away. All objects are forgotten, and no scope is open.
    fn detach(&mut self) -> HeapMemory
        requires sound { sound self.old }
        requires attached { (seen self.old).attached ≡ true }
        ensures sound { sound self.new }
        ensures seen { seen self.new ≡ detached_in 0 }
        ensures size { length result ≡ (seen self.old).capacity };

    /// Hands the memory out, so that it can grow. Until it is replaced only `memory` and `is_attached`
    /// may be called, which answer None and false.
    fn take_memory(&mut self) -> HeapMemory
        requires sound { sound self.old }
        requires attached { (seen self.old).attached ≡ true }
        ensures taken { taken self.new (seen self.old) result }
        ensures size { length result ≡ (seen self.old).capacity }
        ensures none { (seen self.new).attached ≡ false };

    /// Gives the memory back that was taken, with that many new bytes behind its old ones. All
    /// objects stay.
    fn replace_memory(&mut self, memory: HeapMemory, delta_bytes_grown: u64)
        requires taken { (view : HeapView) × ((bytes : List ℕ) × (taken self.old view bytes × (memory ≡ bytes ++ replicate delta_bytes_grown 0)
            × ((delta_bytes_grown ≡ 0) ⊎ (view.needs_gc ≡ false)))) }
        ensures sound { sound self.new }
        ensures seen { (view : HeapView) (bytes : List ℕ) → taken self.old view bytes → memory ≡ bytes ++ replicate delta_bytes_grown 0
            → seen self.new ≡ grown KIND view delta_bytes_grown };

    // Scopes in which no collection may begin

    /// Opens a scope in which no collection may begin.
    fn enter_no_gc_scope(&mut self)
        requires sound { sound self.old }
        requires below { (seen self.old).scopes < 2 ^ 64 - 1 }
        ensures sound { sound self.new }
        ensures seen { seen self.new ≡ record (seen self.old) { scopes = (seen self.old).scopes + 1 } };

    /// Closes such a scope.
    fn exit_no_gc_scope(&mut self)
        requires sound { sound self.old }
        requires open { 0 < (seen self.old).scopes }
        ensures sound { sound self.new }
        ensures seen { seen self.new ≡ record (seen self.old) { scopes = (seen self.old).scopes - 1 } };

    // Barriers

    /// A word is to be there once more. A heap that counts references counts it.
    fn count_gc_ref(&mut self, gc_ref: &VMGcRef)
        requires sound { sound self.old }
        requires named { CanName (seen self.old) gc_ref.now }
        ensures sound { sound self.new }
        ensures seen { seen self.new ≡ cloned (seen self.old) gc_ref.now };

    /// The same word once more, which is counted.
    final fn clone_gc_ref(&mut self, gc_ref: &VMGcRef) -> VMGcRef
        requires sound { sound self.old }
        requires named { CanName (seen self.old) gc_ref.now }
        ensures sound { sound self.new }
        ensures value { result ≡ gc_ref.now }
        ensures seen { seen self.new ≡ cloned (seen self.old) gc_ref.now }
    {
        self.count_gc_ref(gc_ref);
        gc_ref.unchecked_copy()
    }

    /// A word is given up. A heap that counts references takes it off.
    fn drop_gc_ref(&mut self, gc_ref: VMGcRef)
        requires sound { sound self.old }
        requires named { CanUnname (seen self.old) gc_ref }
        ensures sound { sound self.new }
        ensures seen { seen self.new ≡ dropped (seen self.old) gc_ref };

    /// Overwrites a slot with a copy of a word, or with null. A heap that counts references counts
    /// the copy before it takes off what the slot held.
    fn write_gc_ref(&mut self, destination: &mut Option<VMGcRef>, source: Option<&VMGcRef>)
        requires sound { sound self.old }
        requires source { CanNameSlot (seen self.old) (option_copied source) }
        requires destination { CanUnnameSlot (seen self.old) destination.old }
        ensures sound { sound self.new }
        ensures value { destination.new ≡ option_copied source.entry }
        ensures seen { seen self.new ≡ overwritten (seen self.old) destination.old (option_copied source.entry) };

    /// A word is shown to a frame slot, which holds it from then on. A heap that counts references
    /// puts its object on the list of shown words, in the place of the name that is given up.
    fn expose_gc_ref_to_wasm(&mut self, gc_ref: VMGcRef)
        requires sound { sound self.old }
        requires named { CanUnname (seen self.old) gc_ref }
        ensures sound { sound self.new }
        ensures seen { seen self.new ≡ exposed (seen self.old) gc_ref };

    // Allocation

    /// Allocates an object of `size` bytes with that header, whose data begins with that word and is 0
    /// behind it. The inner Err is the number of bytes that the heap would have to grow by.
    fn alloc_object(
        &mut self,
        header: VMGcHeader,
        first: FirstWord,
        size: u64,
    ) -> Result<Result<VMGcRef, u64>, HeapFault>
        requires sound { sound self.old }
        requires attached { (seen self.old).attached ≡ true }
        requires can { CanMake KIND header first size }
        ensures sound { sound self.new }
        ensures allocated { (kind : VMGcKind) → IsOfKind kind header.kind_word
            → Allocated KIND (seen self.old) (seen self.new) (made KIND kind header first size) size result };

    /// Allocates an object of `size` bytes with that header, whose data is 0. The inner Err is the
    /// number of bytes that the heap would have to grow by.
    final fn alloc_raw(
        &mut self,
        header: VMGcHeader,
        size: u32,
    ) -> Result<Result<VMGcRef, u64>, HeapFault>
        requires sound { sound self.old }
        requires attached { (seen self.old).attached ≡ true }
        requires fits { CanAllocate KIND header size }
        ensures sound { sound self.new }
        ensures allocated { (kind : VMGcKind) → IsOfKind kind header.kind_word
            → Allocated KIND (seen self.old) (seen self.new) (zeroed KIND kind header.type_word (header.kind_word % spare_bits) size) size result }
    {
        self.alloc_object(header, FirstWord::Zero, u64::from(size))
    }

    /// Allocates an external object for that host value.
    final fn alloc_externref(
        &mut self,
        host_data: ExternRefHostDataId,
    ) -> Result<Result<VMExternRef, u64>, HeapFault>
        requires sound { sound self.old }
        requires attached { (seen self.old).attached ≡ true }
        ensures sound { sound self.new }
        ensures allocated { Allocated KIND (seen self.old) (seen self.new) (external host_data) (external_size KIND) result }
    {
        let size = u64::from(external_size(Self::KIND));
        match self.alloc_object(VMGcHeader::externref(), FirstWord::Host(host_data), size) {
            Ok(Ok(object)) => Ok(Ok(VMExternRef::new_unchecked(object))),
            Ok(Err(need)) => Ok(Err(need)),
            Err(fault) => Err(fault),
        }
    }

    /// Allocates a struct or an exception, whose data is 0.
    #[inline(always)]
    final fn alloc_uninit_struct_or_exn(
        &mut self,
        ty: VMSharedTypeIndex,
        layout: &GcStructLayout,
    ) -> Result<Result<VMGcRef, u64>, HeapFault>
        requires sound { sound self.old }
        requires attached { (seen self.old).attached ≡ true }
        requires size { first_offset KIND (layout_kind layout.now) ≤ layout.now.size }
        requires traces { LayoutTraces KIND layout.now (first_offset KIND (layout_kind layout.now)) }
        ensures sound { sound self.new }
        ensures allocated { Allocated KIND (seen self.old) (seen self.new) (new_struct KIND ty layout.now) layout.now.size result }
    {
        self.alloc_raw(struct_header(Self::KIND, ty, layout), layout.size)
    }

    /// Allocates an array of that length, whose elements are 0.
    final fn alloc_uninit_array(
        &mut self,
        ty: VMSharedTypeIndex,
        length: u32,
        layout: &GcArrayLayout,
    ) -> Result<Result<VMArrayRef, u64>, HeapFault>
        requires sound { sound self.old }
        requires attached { (seen self.old).attached ≡ true }
        requires size { array_base KIND ≤ layout.now.base_size }
        requires traces { ArrayTraces KIND layout.now }
        ensures sound { sound self.new }
        ensures allocated { Allocated KIND (seen self.old) (seen self.new) (new_array KIND ty length layout.now) (array_size layout.now length) result }
    {
        let header = array_header(Self::KIND, ty, layout);
        let size = array_bytes(layout, length);
        match self.alloc_object(header, FirstWord::Length(length), size) {
            Ok(Ok(object)) => Ok(Ok(VMArrayRef::new_unchecked(object))),
            Ok(Err(need)) => Ok(Err(need)),
            Err(fault) => Err(fault),
        }
    }

    /// Gives back a struct or an exception that nothing names, as one that was just allocated and
    /// will not be used. A heap that counts references frees it; what its fields name is not told.
    fn dealloc_uninit_struct_or_exn(&mut self, gc_ref: VMGcRef)
        requires sound { sound self.old }
        requires held { CanGiveBack (seen self.old) gc_ref IsStructOrExn }
        ensures sound { sound self.new }
        ensures seen { (object : HeapObject) → finite.get (seen self.old).content gc_ref ≡ Some object
            → seen self.new ≡ given_back KIND (seen self.old) gc_ref object };

    /// Gives back an array that nothing names.
    fn dealloc_uninit_array(&mut self, array: VMArrayRef)
        requires sound { sound self.old }
        requires held { CanGiveBack (seen self.old) array IsArrayKind }
        ensures sound { sound self.new }
        ensures seen { (object : HeapObject) → finite.get (seen self.old).content array ≡ Some object
            → seen self.new ≡ given_back KIND (seen self.old) array object };

    // Reading and writing

    /// The id of the host value of an external object.
    final fn externref_host_data(&self, r: &VMExternRef) -> Result<ExternRefHostDataId, RefFault>
        requires { sound self.now }
        ensures held { (object : HeapObject) → finite.get (seen self.now).content r.now ≡ Some object → object.kind ≡ ExternRef
            → IsOkAnd result (λ id. id + 1 ≡ u32_at object.bytes 0) }
        ensures number { r.now % 2 ≡ 1 → IsErr result }
    {
        match self.memory() {
            Some(memory) => read::host_data(memory, Self::KIND, r),
            None => Err(RefFault::BadRef),
        }
    }

    /// The header of an object.
    final fn header(&self, r: &VMGcRef) -> Result<VMGcHeader, RefFault>
        requires { sound self.now }
        ensures held { (object : HeapObject) → finite.get (seen self.now).content r.now ≡ Some object → IsOkAnd result (IsHeaderOf KIND object) }
        ensures number { r.now % 2 ≡ 1 → IsErr result }
    {
        match self.memory() {
            Some(memory) => read::header(memory, Self::KIND, r),
            None => Err(RefFault::BadRef),
        }
    }

    /// Sets the header of an object, whose kind and type stay. The heap keeps the spare bits that it
    /// uses itself: all of them in a null and a copying heap, the lowest three in a counting heap.
    fn set_header(&mut self, r: &VMGcRef, header: VMGcHeader) -> Result<(), RefFault>
        requires sound { sound self.old }
        requires named { IsNamed (seen self.old) r.now }
        requires same { (object : HeapObject) → finite.get (seen self.old).content r.now ≡ Some object → IsSameHeader object header }
        ensures sound { sound self.new }
        ensures held { (object : HeapObject) → finite.get (seen self.old).content r.now ≡ Some object
            → IsOk result × (seen self.new ≡ put_object (seen self.old) r.now (with_spare_of KIND object (header.kind_word % spare_bits))) }
        ensures number { r.now % 2 ≡ 1 → IsErr result × (seen self.new ≡ seen self.old) };

    /// The bytes of an object, its header and the heap's own words among them; in a copying heap
    /// they are a multiple of 16.
    final fn object_size(&self, r: &VMGcRef) -> Result<usize, RefFault>
        requires { sound self.now }
        ensures held { (object : HeapObject) → finite.get (seen self.now).content r.now ≡ Some object → IsOkAnd result (λ size. size ≡ held_size KIND object) }
        ensures number { r.now % 2 ≡ 1 → IsErr result }
    {
        match self.memory() {
            Some(memory) => read::object_size(memory, Self::KIND, r),
            None => Err(RefFault::BadRef),
        }
    }

    /// Where the bytes of an object lie in the heap's bytes.
    final fn object_range(&self, r: &VMGcRef) -> Result<Range<usize>, RefFault>
        requires { sound self.now }
        ensures held { (object : HeapObject) → finite.get (seen self.now).content r.now ≡ Some object
            → IsOkAnd result (λ range. (range.start ≡ r.now) × (range.end ≡ r.now + held_size KIND object)) }
        ensures number { r.now % 2 ≡ 1 → IsErr result }
    {
        match self.memory() {
            Some(memory) => read::object_range(memory, Self::KIND, r),
            None => Err(RefFault::BadRef),
        }
    }

    /// The length of an array.
    final fn array_len(&self, r: &VMArrayRef) -> Result<u32, RefFault>
        requires { sound self.now }
        ensures held { (object : HeapObject) → finite.get (seen self.now).content r.now ≡ Some object → object.kind ≡ ArrayRef
            → IsOkAnd result (λ count. count ≡ array_length object) }
        ensures number { r.now % 2 ≡ 1 → IsErr result }
    {
        match self.memory() {
            Some(memory) => read::array_len(memory, Self::KIND, r),
            None => Err(RefFault::BadRef),
        }
    }

    /// Lends the bytes of an object for reading.
    final fn gc_object_data(&self, r: &VMGcRef) -> Result<VMGcObjectData<'_>, RefFault>
        requires { sound self.now }
        ensures held { (object : HeapObject) → finite.get (seen self.now).content r.now ≡ Some object → IsOkAnd result (IsObjectData KIND object) }
        ensures number { r.now % 2 ≡ 1 → IsErr result }
    {
        match self.memory() {
            Some(memory) => read::object_data(memory, Self::KIND, r),
            None => Err(RefFault::BadRef),
        }
    }

    /// Writes bytes at an offset of an object, in the part of it that its holder may write: from the
    /// first free offset of a struct, the instance word of an exception or the element base of an
    /// array on.
    fn write_object_data(&mut self, r: &VMGcRef, offset: u32, bytes: &[u8])
        requires sound { sound self.old }
        requires inside { IsWritable KIND (seen self.old) r.now offset (length bytes.now) }
        ensures sound { sound self.new }
        ensures seen { (object : HeapObject) → finite.get (seen self.old).content r.now ≡ Some object
            → seen self.new ≡ put_object (seen self.old) r.now (with_data KIND object offset bytes.now) };

    /// All bytes of the heap's memory; none where it isn't attached. Not final, as what the bytes are
    /// follows from each heap's own invariant.
    fn heap_slice(&self) -> &[u8]
        requires { sound self.now }
        ensures size { length result.now ≡ (seen self.now).capacity }
        ensures objects { (place : ℕ) (object : HeapObject) → finite.get (seen self.now).content place ≡ Some object
            → IsObjectData KIND object (take (held_size KIND object) (drop place result.now)) }
        ensures counts { (place n : ℕ) → finite.get (seen self.now).counts.counted place ≡ Some n → ShowsCount (seen self.now) result.now place n }
    {
        match self.memory() {
            Some(memory) => memory.bytes(),
            None => &[],
        }
    }

    // Numbers

    /// How many objects the heap holds.
    fn object_count(&self) -> u64
        requires { sound self.now }
        ensures { result ≡ finite.len (seen self.now).content };

    /// How many bytes are allocated.
    fn allocated_bytes(&self) -> usize
        requires { sound self.now }
        ensures { result ≡ (seen self.now).allocated };

    /// Whether a collection must come before the heap may grow.
    fn needs_gc_before_next_growth(&self) -> bool
        requires { sound self.now }
        ensures { result ≡ (seen self.now).needs_gc };

    // Collection

    /// A collection that is to be stepped.
    fn begin(&self) -> Self::State
        requires sound { sound self.now }
        requires attached { (seen self.now).attached ≡ true }
        requires open { (seen self.now).scopes ≡ 0 }
        ensures begun { begun result }
        ensures ticks { ticks result ≡ 0 };

    /// Does one increment of a collection. From the first one until it answers `Complete` no other
    /// call on the heap is allowed. It takes no memory.
    fn step<D: Drop>(
        &mut self,
        state: &mut Self::State,
        roots: &mut GcRootsList,
        trace: &mut GcStoreTraceState<'_, D>,
    ) -> GcProgress
        requires { IsUnderWay under_way (stage self.old state.old roots.old.roots trace.old.types.now.declarations trace.old.host_data_table.now.entries) }
        ensures step { (s : Start) (n : ℕ) (c : Bool)
            → under_way s n c (stage self.old state.old roots.old.roots trace.old.types.now.declarations trace.old.host_data_table.now.entries)
            → Stepped KIND s (n + 1) result
            (under_way s (n + 1) false (stage self.new state.new roots.new.roots trace.old.types.now.declarations trace.new.host_data_table.now.entries))
            (sound self.new × Collected KIND s (seen self.new) roots.new.roots (has_host trace.new.host_data_table.now.entries)) }
        ensures less { result ≡ GcProgress.Continue → left self.new state.new < left self.old state.old }
        ensures ticks { ticks state.new ≡ ticks state.old }
        ensures spare { roots.new.spare ≡ roots.old.spare }
        ensures host_spare { trace.old.host_data_table.now.spare ≤ trace.new.host_data_table.now.spare }
        ensures values { IsPartOf trace.new.host_data_table.now.entries trace.old.host_data_table.now.entries }
        ensures hosts { trace.new.host_data_table.ghost_name ≡ trace.old.host_data_table.ghost_name }
        ensures types { trace.new.types ≡ trace.old.types };

    /// Does one increment as `step` does, and counts its steps: a copying heap one for each object that
    /// it copies, each reference that it looks at, and each root word that isn't null; the others may
    /// count none.
    fn step_counted<D: Drop, G: Ledger>(
        &mut self,
        state: &mut Self::State,
        roots: &mut GcRootsList,
        trace: &mut GcStoreTraceState<'_, D>,
        steps: &mut Steps<G>,
    ) -> GcProgress
        requires { IsUnderWay under_way (stage self.old state.old roots.old.roots trace.old.types.now.declarations trace.old.host_data_table.now.entries) }
        ensures step { (s : Start) (n : ℕ) (c : Bool)
            → under_way s n c (stage self.old state.old roots.old.roots trace.old.types.now.declarations trace.old.host_data_table.now.entries)
            → Stepped KIND s (n + 1) result
            (under_way s (n + 1) c (stage self.new state.new roots.new.roots trace.old.types.now.declarations trace.new.host_data_table.now.entries))
            (sound self.new × (c ≡ true → IsStepCount KIND s (ticks state.new))
            × Collected KIND s (seen self.new) roots.new.roots (has_host trace.new.host_data_table.now.entries)) }
        ensures less { result ≡ GcProgress.Continue → left self.new state.new < left self.old state.old }
        ensures ticks { ticks state.new + steps.old ≡ ticks state.old + steps.new }
        ensures rises { steps.old ≤ steps.new }
        ensures spare { roots.new.spare ≡ roots.old.spare }
        ensures host_spare { trace.old.host_data_table.now.spare ≤ trace.new.host_data_table.now.spare }
        ensures values { IsPartOf trace.new.host_data_table.now.entries trace.old.host_data_table.now.entries }
        ensures hosts { trace.new.host_data_table.ghost_name ≡ trace.old.host_data_table.ghost_name }
        ensures types { trace.new.types ≡ trace.old.types };

    /// What is always true of a sound heap.
    ghost is_heap: { (heap : Self) → sound heap → IsHeap KIND (seen heap) };

    /// A collection is under way with no increment done, where it may begin.
    ghost starts: { (s : Start) (heap : Self) (state : Self.State) → sound heap → begun state → seen heap ≡ s.heap → CanCollect KIND s
        → under_way s 0 true (record { heap = heap; state = state; roots = s.roots; types = s.types; hosts = s.hosts }) };
}
