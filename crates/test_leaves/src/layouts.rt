//! Where values lie in each heap.

use gc_types::{GcArrayLayout, GcStructLayout, Layouts, TraceInfo, Types, VMSharedTypeIndex};
use std::alloc::AllocError;

/// The kinds of heap, and their names.
pub(crate) const HEAPS: [(Layouts, &str); 3] = [
    (Layouts::Null, "null"),
    (Layouts::Counting, "counting"),
    (Layouts::Copying, "copying"),
];
/// Writes where the values of an object lie in each heap, and which places are traced.
pub(crate) fn show_layouts(
    types: &Types,
    ty: VMSharedTypeIndex,
    out: &mut String,
) -> Result<(), AllocError> {
    for (heap, name) in HEAPS {
        out.push_str(name)?;
        match (types.struct_layout(heap, ty), types.array_layout(heap, ty)) {
            (Some(layout), _) => show_layout(layout, out)?,
            (_, Some(layout)) => show_array(layout, out)?,
            _ => out.push_str(" no layout")?,
        }
        show_trace(types.trace_info(heap, ty), out)?;
        out.push_str("; ")?;
    }
    Ok(())
}

/// Writes the size of an object, and where its fields lie; a reference has a star behind it.
fn show_layout(layout: &GcStructLayout, out: &mut String) -> Result<(), AllocError> {
    let kind = if layout.is_exception {
        " exception"
    } else {
        ""
    };
    write!(out, " {}{kind} at", layout.size)?;
    for field in layout.fields.as_slice() {
        let star = if field.is_gc_ref { "*" } else { "" };
        write!(out, " {}{star}", field.offset)?;
    }
    Ok(())
}

/// Writes which places are traced, if any are known.
fn show_trace(trace: Option<&TraceInfo>, out: &mut String) -> Result<(), AllocError> {
    match trace {
        Some(TraceInfo::Struct { gc_ref_offsets }) => {
            show_offsets(gc_ref_offsets.as_slice(), out)
        }
        Some(TraceInfo::Array { gc_ref_elems }) => write!(out, " traced {gc_ref_elems}"),
        None => out.push_str(" never traced"),
    }
}

/// Writes the offsets that are traced.
fn show_offsets(offsets: &[u32], out: &mut String) -> Result<(), AllocError> {
    out.push_str(" traced")?;
    for offset in offsets {
        write!(out, " {offset}")?;
    }
    Ok(())
}

/// Writes where elements begin, their width, where the third one lies, and whether they are references.
fn show_array(layout: &GcArrayLayout, out: &mut String) -> Result<(), AllocError> {
    let third = layout.elem_offset(3);
    let empty = layout.size(0);
    let kind = if layout.elems_are_gc_refs {
        " references"
    } else {
        ""
    };
    let (base_size, elem_size) = (layout.base_size, layout.elem_size);
    write!(
        out,
        " {base_size} by {elem_size} third {third:?} empty {empty:?}{kind}"
    )
}
