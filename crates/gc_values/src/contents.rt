//! The contents of new objects, wherever their values stand.

use crate::fill::{fill_each, write_bytes, write_same};
use crate::interned::{InternedValues, given_values};
use crate::request::{Contents, DeclaredType, Place};
use crate::root::RawValue;
use crate::sources::ValueSource;
use gc_heap::GcHeap;
use gc_owner::HeapOwner;
use gc_refs::VMGcRef;
use gc_types::TypeShape;

/// What a new object is given: `Contents`, or what stands elsewhere and is written from there.
pub trait ContentSource {
    ghost use Rattle.std.specs.Prelude.{◌≡◌, Some, true};
    ghost use Rattle.gc_types.specs.Declarations.{shape_at};
    ghost use Rattle.gc_values.specs.declared.request.Contents.{Contents};
    ghost use Rattle.gc_values.specs.Interning.{ids_of, request_values};
    ghost use Rattle.gc_values.specs.Filling.{CanFill, FillsAs, IsOfAskedKind, front_of, ContentsFit, ContentsStand, asked_type};
    ghost use Rattle.gc_values.specs.RawValues.{raw_side_values};

    /// The contents.
    ghost contents: { Self → Contents };

    /// Values whose function values and continuations are those that a request with these contents looks at, in the order of
    /// each kind. Numbers and references may be among them.
    fn side_values(&self, request: &Place) -> &[RawValue]
        ensures { raw_side_values result.now ≡ raw_side_values (request_values request.now (contents self.now)) };

    /// Gives a new object of that request, whose type lists `shape`, its values, and an exception its tag.
    fn fill<H: GcHeap, D: Drop>(
        &self,
        owner: &mut HeapOwner<H, D>,
        interned: &InternedValues,
        gc_ref: &VMGcRef,
        request: &Place,
        shape: &TypeShape,
    )
        requires idle { owner.old.seen.idle ≡ true }
        requires listed { shape_at owner.old.seen.types.declarations (asked_type request.now) ≡ Some shape.now }
        requires can { CanFill H.KIND owner.old.seen gc_ref.now (asked_type request.now)
            (ContentsFit (ids_of interned.now) request.now (contents self.now)) }
        requires kind { IsOfAskedKind request.now owner.old.seen.heap gc_ref.now }
        ensures { FillsAs H.KIND (front_of H.KIND request.now) owner.old.seen owner.new.seen gc_ref.now (asked_type request.now)
            (ContentsFit (ids_of interned.now) request.now (contents self.now)) (ContentsStand (ids_of interned.now) (contents self.now)) };
}

impl ContentSource for Contents<'_> {
    ghost contents = { λ contents. contents };

    #[inline(always)]
    fn fill<H: GcHeap, D: Drop>(
        &self,
        owner: &mut HeapOwner<H, D>,
        interned: &InternedValues,
        gc_ref: &VMGcRef,
        request: &Place,
        shape: &TypeShape,
    ) {
        match *self {
            Contents::Each(values) => fill_each(owner, interned, gc_ref, request, shape, &values),
            Contents::Same(value) => match *request {
                Place::Array(index, count) => {
                    let ty = DeclaredType { index, shape };
                    write_same(owner, interned, gc_ref, &ty, count, *value);
                }
                Place::Struct(_) => unreachable!(),
                Place::Exn(..) => unreachable!(),
            },
            Contents::Bytes(bytes) => match *request {
                Place::Array(index, _) => {
                    let ty = DeclaredType { index, shape };
                    write_bytes(owner, gc_ref, &ty, bytes);
                }
                Place::Struct(_) => unreachable!(),
                Place::Exn(..) => unreachable!(),
            },
        }
    }

    #[inline(always)]
    fn side_values(&self, request: &Place) -> &[RawValue] {
        given_values(request, *self)
    }
}

/// A value for each field or element, in order, written from where it stands.
#[derive(Drop)]
pub struct EachFrom<'a, V> {
    pub values: &'a V,
}

impl<V: ValueSource> ContentSource for EachFrom<'_, V> {
    ghost use Rattle.gc_values.specs.Filling.{each_of};

    ghost contents = { λ each. each_of (V.given each.values.now) };

    #[inline(always)]
    fn fill<H: GcHeap, D: Drop>(
        &self,
        owner: &mut HeapOwner<H, D>,
        interned: &InternedValues,
        gc_ref: &VMGcRef,
        request: &Place,
        shape: &TypeShape,
    ) {
        fill_each(owner, interned, gc_ref, request, shape, self.values);
    }

    #[inline(always)]
    fn side_values(&self, _request: &Place) -> &[RawValue] {
        self.values.side_values()
    }
}
