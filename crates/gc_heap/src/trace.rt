//! The trace word of a new struct or exception.

ghost use Rattle.std.specs.Prelude.{◌≡◌, ◌≤◌, ◌<◌, ◌+◌, ◌-◌, ◌/◌, ◌^◌, true, All, bit_or};
ghost use Rattle.gc_types.specs.declared.layout.FieldLayout.{FieldLayout};
ghost use Rattle.gc_types.specs.declared.kind.Layouts.TheVariants.{Copying};
ghost use Rattle.gc_types.specs.Layouts.{ref_offsets};
ghost use Rattle.gc_refs.specs.Trace.{trace_word, form_unit, HasTraceWord};
ghost use Rattle.gc_heap.specs.Rules.{struct_spare};

use gc_refs::InlineTraceInfo;
use gc_types::FieldLayout;

/// The offset that bit 0 of a bitmap names.
const FIRST_IN_BITMAP: u32 = 12;

/// The last offset that a bitmap can name, by its bit 22.
const LAST_IN_BITMAP: u32 = 100;

/// The bitmap with the bit of a reference at that offset.
fn with_reference(bits: u32, offset: u32) -> u32
    requires from { FIRST_IN_BITMAP ≤ offset }
    requires to { offset ≤ LAST_IN_BITMAP }
    requires bits { bits < form_unit }
    ensures bits { result ≡ bit_or bits (2 ^ ((offset - FIRST_IN_BITMAP) / 4)) }
    ensures fits { result < form_unit }
{
    bits | 1 << ((offset - FIRST_IN_BITMAP) / 4)
}

/// Where the references of a struct or an exception with these fields lie: in a bitmap, or out of line
/// where one lies past the last offset that a bitmap can name. Its time is linear in the fields.
pub(crate) fn struct_trace(fields: &[FieldLayout]) -> InlineTraceInfo
    requires { All (λ (field : FieldLayout). field.is_gc_ref ≡ true → FIRST_IN_BITMAP ≤ field.offset) fields.now }
    ensures word { trace_word result ≡ struct_spare Copying (ref_offsets fields.now) }
    ensures fits { HasTraceWord result }
{
    let mut bits = 0;
    for field in fields {
        if field.is_gc_ref {
            if field.offset > LAST_IN_BITMAP {
                return InlineTraceInfo::OutOfLine;
            }
            bits = with_reference(bits, field.offset);
        }
    }
    InlineTraceInfo::Bitmap(bits)
}
