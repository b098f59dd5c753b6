//! Where the values of an object lie.

ghost use Rattle.std.specs.Prelude.{◌≡◌, ◌+◌, ◌*◌, ◌≤◌, ◌^◌, IfSome, IfNone};

use std::marker::Model;

/// Where one field lies.
#[derive(Clone, Copy, Debug, PartialEq, Eq)]
pub struct FieldLayout {
    /// Bytes from the object's first byte.
    pub offset: u32,
    /// Whether the field holds a reference that a collection follows.
    pub is_gc_ref: bool,
}

/// Where the fields lie, in order.
#[derive(Debug, Drop)]
pub struct FieldLayouts {
    fields: Vec<FieldLayout>,
}

impl Model for FieldLayouts {
    ghost use Rattle.std.specs.Prelude.{List};
    ghost use Rattle.gc_types.specs.declared.layout.FieldLayout.{FieldLayout};

    ghost Value = { List FieldLayout };

    ghost view = { λ f. f.fields.items };
}

impl FieldLayouts {
    /// The fields' layouts.
    pub fn as_slice(&self) -> &[FieldLayout]
        ensures { result.now ≡ self.now }
    {
        self.fields.as_slice()
    }
}

impl FieldLayouts {
    /// The vector that they are kept in.
    pub fn into_vec(self) -> Vec<FieldLayout>
        ensures { result.items ≡ self }
    {
        self.fields
    }
}

impl From<Vec<FieldLayout>> for FieldLayouts {
    ghost from_gives = { λ v f. f ≡ v.items };

    fn from(fields: Vec<FieldLayout>) -> FieldLayouts {
        FieldLayouts { fields }
    }
}

/// The layout of a struct or an exception.
#[derive(Debug, Drop)]
pub struct GcStructLayout {
    /// Bytes of the object, its header included.
    pub size: u32,
    /// Whether the object is an exception.
    pub is_exception: bool,
    pub fields: FieldLayouts,
}

/// The layout of an array.
#[derive(Clone, Copy, Debug, PartialEq, Eq)]
pub struct GcArrayLayout {
    /// Bytes of an array without elements; the first element lies here.
    pub base_size: u32,
    /// Bytes of each element.
    pub elem_size: u32,
    /// Whether the elements hold references that a collection follows.
    pub elems_are_gc_refs: bool,
}

impl GcArrayLayout {
    /// Bytes from the array's first byte to that element. None exactly where they pass a `u32`.
    pub fn elem_offset(&self, i: u32) -> Option<u32>
        ensures some { IfSome result (λ offset. offset ≡ self.now.base_size + i * self.now.elem_size) }
        ensures none { IfNone result (2 ^ 32 ≤ self.now.base_size + i * self.now.elem_size) }
    {
        i.checked_mul(self.elem_size)?.checked_add(self.base_size)
    }

    /// Bytes of an array of that length. None exactly where they pass a `u32`.
    pub fn size(&self, len: u32) -> Option<u32>
        ensures some { IfSome result (λ size. size ≡ self.now.base_size + len * self.now.elem_size) }
        ensures none { IfNone result (2 ^ 32 ≤ self.now.base_size + len * self.now.elem_size) }
    {
        self.elem_offset(len)
    }
}

/// Bytes from an object's first byte to each of its references, in order.
#[derive(Debug, Drop)]
pub struct Offsets {
    offsets: Vec<u32>,
}

impl Model for Offsets {
    ghost use Rattle.std.specs.Prelude.{List, ℕ};

    ghost Value = { List ℕ };

    ghost view = { λ o. o.offsets.items };
}

impl Offsets {
    /// The offsets.
    pub fn as_slice(&self) -> &[u32]
        ensures { result.now ≡ self.now }
    {
        self.offsets.as_slice()
    }
}

impl Offsets {
    /// The vector that they are kept in.
    pub fn into_vec(self) -> Vec<u32>
        ensures { result.items ≡ self }
    {
        self.offsets
    }
}

impl From<Vec<u32>> for Offsets {
    ghost from_gives = { λ v o. o ≡ v.items };

    fn from(offsets: Vec<u32>) -> Offsets {
        Offsets { offsets }
    }
}

/// Where the references of an object lie.
#[derive(Debug, Drop)]
pub enum TraceInfo {
    /// In a struct or an exception.
    Struct { gc_ref_offsets: Offsets },
    /// In an array: in every element, or nowhere.
    Array { gc_ref_elems: bool },
}
