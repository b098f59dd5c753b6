//! Where the references of a type's objects lie in each of the three heaps.

ghost use Rattle.std.specs.Prelude.{◌≡◌, IfOk, option_copied};
ghost use Rattle.gc_types.specs.Entries.{shape_traces, trace_in};
ghost use Rattle.gc_types.specs.Layouts.{ref_offsets, shape_trace};

use crate::entry::{Body, TypeShape};
use crate::kind::Layouts;
use crate::layout::{FieldLayout, Offsets, TraceInfo};
use std::alloc::{AllocError, Global};

/// The offsets of the references among the fields.
fn references(alloc: Global, fields: &[FieldLayout]) -> Result<Vec<u32>, AllocError>
    ensures { IfOk result (λ offsets. offsets.items ≡ ref_offsets fields.now) }
{
    fields
        .iter()
        .filter(|field| field.is_gc_ref)
        .map(|field| field.offset)
        .collect(alloc)
}

/// Where the references lie in a struct or an exception with these fields.
fn trace_fields(alloc: Global, fields: &[FieldLayout]) -> Result<TraceInfo, AllocError>
    ensures { IfOk result (λ trace. trace ≡ TraceInfo.Struct (ref_offsets fields.now)) }
{
    let offsets = references(alloc, fields)?;
    Ok(TraceInfo::Struct {
        gc_ref_offsets: Offsets::from(offsets),
    })
}

/// Where the references of an object lie in that heap; functions are no objects.
fn trace_of(
    alloc: Global,
    heap: Layouts,
    shape: &TypeShape,
) -> Result<Option<TraceInfo>, AllocError>
    ensures { IfOk result (λ trace. trace ≡ shape_trace heap shape.now) }
{
    let trace = match shape.body() {
        Body::Struct(fields) => trace_fields(alloc, fields.layout(heap).fields.as_slice())?,
        Body::Exn(params) => trace_fields(alloc, params.layout(heap).fields.as_slice())?,
        Body::Array(array) => TraceInfo::Array {
            gc_ref_elems: array.elem().element_type.is_gc_ref(),
        },
        Body::Func(_) => return Ok(None),
    };
    Ok(Some(trace))
}

/// Where the references of a type's objects lie in each heap.
#[derive(Drop)]
pub(crate) struct Traces {
    null: Option<TraceInfo>,
    counting: Option<TraceInfo>,
    copying: Option<TraceInfo>,
}

impl Traces {
    /// Its time is linear in the fields.
    pub(crate) fn new(alloc: Global, shape: &TypeShape) -> Result<Traces, AllocError>
        ensures { IfOk result (λ traces. traces ≡ shape_traces shape.now) }
    {
        Ok(Traces {
            null: trace_of(alloc, Layouts::Null, shape)?,
            counting: trace_of(alloc, Layouts::Counting, shape)?,
            copying: trace_of(alloc, Layouts::Copying, shape)?,
        })
    }

    /// Where they lie in that heap.
    #[inline(always)]
    pub(crate) fn get(&self, heap: Layouts) -> Option<&TraceInfo>
        ensures { option_copied result ≡ trace_in heap self.now }
    {
        match heap {
            Layouts::Null => self.null.as_ref(),
            Layouts::Counting => self.counting.as_ref(),
            Layouts::Copying => self.copying.as_ref(),
        }
    }
}
