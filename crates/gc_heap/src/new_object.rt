//! What an allocation makes: the header of a new object, and what its data begins with.

ghost use Rattle.std.specs.Prelude.{ℕ, ◌≡◌, ◌<◌, ◌≤◌, ◌+◌, ◌%◌, length};
ghost use Rattle.gc_types.specs.Layouts.{ref_offsets};
ghost use Rattle.gc_refs.specs.Header.{IsOfKind, spare_bits};
ghost use Rattle.gc_tables.specs.SideTables.{max_entries};
ghost use Rattle.gc_heap.specs.Extents.{first_offset};
ghost use Rattle.gc_heap.specs.Heap.{layout_kind};
ghost use Rattle.gc_heap.specs.Making.{first_word, with_first_word, word_end};
ghost use Rattle.gc_heap.specs.Rules.{LayoutTraces, array_spare, struct_spare};

use crate::layouts::kind_of_layout;
use crate::trace::struct_trace;
use gc_memory::HeapMemory;
use gc_memory::offsets::{array_length, host_id};
use gc_refs::{InlineTraceInfo, VMGcHeader};
use gc_tables::ExternRefHostDataId;
use gc_types::{GcArrayLayout, GcStructLayout, Layouts, VMGcKind, VMSharedTypeIndex};

/// What the data of a new object begins with. The rest of it is 0.
#[derive(Clone, Copy, Debug, PartialEq, Eq)]
pub enum FirstWord {
    /// 0, as the rest is.
    Zero,
    /// The length of an array.
    Length(u32),
    /// The number of the host value of an external object.
    Host(ExternRefHostDataId),
}

impl FirstWord {
    /// The number that is written; None where the word is 0 as the rest is.
    pub(crate) fn number(self) -> Option<u32>
        ensures number { result ≡ first_word self }
        ensures host { (id : ℕ) → self ≡ FirstWord.Host id → id + 1 ≤ max_entries }
    {
        match self {
            FirstWord::Zero => None,
            FirstWord::Length(length) => Some(length),
            FirstWord::Host(id) => Some(id.into_raw()),
        }
    }

    /// Writes the word where the object at a place has it, as its kind of heap lays it out.
    pub fn write(&self, memory: &mut HeapMemory, layouts: Layouts, place: u32)
        requires { place + word_end layouts self.now ≤ length memory.old }
        ensures written { memory.new ≡ with_first_word layouts memory.old place self.now }
        ensures host { (id : ℕ) → self.now ≡ FirstWord.Host id → id + 1 ≤ max_entries }
    {
        let at = place as usize;
        match self {
            FirstWord::Zero => {}
            FirstWord::Length(length) => {
                memory.write_u32(at + array_length(layouts) as usize, *length);
            }
            FirstWord::Host(id) => {
                memory.write_u32(at + host_id(layouts) as usize, id.into_raw());
            }
        }
    }
}

/// The header of an object of that kind and type with these spare bits.
fn header_with(kind: VMGcKind, ty: VMSharedTypeIndex, spare: u32) -> VMGcHeader
    requires { spare < spare_bits }
    ensures kind { IsOfKind kind result.kind_word }
    ensures ty { result.type_word ≡ ty }
    ensures spare { result.kind_word % spare_bits ≡ spare }
{
    let mut header = VMGcHeader::from_kind_and_index(kind, ty);
    header.set_reserved_u26(spare);
    header
}

/// The spare bits that a struct or an exception is made with: its trace word in a copying heap.
fn spare_of_struct(layouts: Layouts, layout: &GcStructLayout) -> u32
    requires { LayoutTraces layouts layout.now (first_offset layouts (layout_kind layout.now)) }
    ensures word { result ≡ struct_spare layouts (ref_offsets layout.now.fields) }
    ensures fits { result < spare_bits }
{
    match layouts {
        Layouts::Null | Layouts::Counting => 0,
        Layouts::Copying => struct_trace(layout.fields.as_slice()).encode(),
    }
}

/// The spare bits that an array is made with: its trace word in a copying heap.
fn spare_of_array(layouts: Layouts, elements_are_references: bool) -> u32
    ensures word { result ≡ array_spare layouts elements_are_references }
    ensures fits { result < spare_bits }
{
    match layouts {
        Layouts::Null | Layouts::Counting => 0,
        Layouts::Copying => InlineTraceInfo::Array(elements_are_references).encode(),
    }
}

/// The header of a new struct or exception.
pub(crate) fn struct_header(
    layouts: Layouts,
    ty: VMSharedTypeIndex,
    layout: &GcStructLayout,
) -> VMGcHeader
    requires { LayoutTraces layouts layout.now (first_offset layouts (layout_kind layout.now)) }
    ensures kind { IsOfKind (layout_kind layout.now) result.kind_word }
    ensures ty { result.type_word ≡ ty }
    ensures spare { result.kind_word % spare_bits ≡ struct_spare layouts (ref_offsets layout.now.fields) }
{
    header_with(kind_of_layout(layout), ty, spare_of_struct(layouts, layout))
}

/// The header of a new array.
pub(crate) fn array_header(
    layouts: Layouts,
    ty: VMSharedTypeIndex,
    layout: &GcArrayLayout,
) -> VMGcHeader
    ensures kind { IsOfKind VMGcKind.ArrayRef result.kind_word }
    ensures ty { result.type_word ≡ ty }
    ensures spare { result.kind_word % spare_bits ≡ array_spare layouts layout.now.elems_are_gc_refs }
{
    let spare = spare_of_array(layouts, layout.elems_are_gc_refs);
    header_with(VMGcKind::ArrayRef, ty, spare)
}
