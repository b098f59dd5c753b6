//! Kinds of types, of objects and of heaps.

ghost use Rattle.std.specs.Prelude.{◌≡◌, ◌≢◌, ◌<◌, ◌↔◌, IsTrue, bit_and, IfSome, IfNone};
ghost use Rattle.gc_types.specs.Kinds.{kind_bits, IsKindOf, kind_mask, spare_mask};

/// What sort of type a declaration makes.
#[derive(Clone, Copy, Debug, PartialEq, Eq, Hash)]
pub enum TypeKind {
    Struct,
    Array,
    Exn,
    Func,
}

/// Which heap's layout of objects is meant.
#[derive(Clone, Copy, Debug, PartialEq, Eq, Hash)]
pub enum Layouts {
    Null,
    Counting,
    Copying,
}

/// What sort of object a header stands before. The upper six bits of its kind word tell it.
#[derive(Clone, Copy, Debug, PartialEq, Eq, Hash)]
pub enum VMGcKind {
    ExternRef,
    AnyRef,
    EqRef,
    StructRef,
    ArrayRef,
    ExnRef,
}

impl VMGcKind {
    /// The bits of a kind word that tell the kind.
    pub const MASK: u32 = 0xFC00_0000;

    /// The bits of a kind word that a heap may use as it likes.
    pub const UNUSED_MASK: u32 = 0x03FF_FFFF;

    /// The two masks share no bit and make up the word. This call does nothing.
    pub fn masks()
        ensures kind { VMGcKind.MASK ≡ kind_mask }
        ensures spare { VMGcKind.UNUSED_MASK ≡ spare_mask }
    {}

    /// The kind bits in place, with the other bits 0.
    pub fn as_u32(self) -> u32
        ensures { result ≡ kind_bits self }
    {
        match self {
            VMGcKind::ExternRef => 0x4000_0000,
            VMGcKind::AnyRef => 0x8000_0000,
            VMGcKind::EqRef => 0xA000_0000,
            VMGcKind::StructRef => 0xA400_0000,
            VMGcKind::ArrayRef => 0xA800_0000,
            VMGcKind::ExnRef => 0x1000_0000,
        }
    }

    /// The kind that the upper six bits of the word tell; None exactly where they tell none.
    pub fn from_high_bits_of_u32(word: u32) -> Option<VMGcKind>
        ensures some { IfSome result (λ kind. kind_bits kind ≡ bit_and word kind_mask) }
        ensures none { IfNone result ((kind : VMGcKind) → kind_bits kind ≢ bit_and word kind_mask) }
    {
        match word & VMGcKind::MASK {
            0x4000_0000 => Some(VMGcKind::ExternRef),
            0x8000_0000 => Some(VMGcKind::AnyRef),
            0xA000_0000 => Some(VMGcKind::EqRef),
            0xA400_0000 => Some(VMGcKind::StructRef),
            0xA800_0000 => Some(VMGcKind::ArrayRef),
            0x1000_0000 => Some(VMGcKind::ExnRef),
            _ => None,
        }
    }

    /// Whether each bit of the other kind is one of this kind: whether an object of this kind is one
    /// of the other.
    pub fn matches(self, other: VMGcKind) -> bool
        ensures kinds { IsTrue result ↔ IsKindOf self other }
        ensures bits { IsTrue result ↔ (bit_and (kind_bits self) (kind_bits other) ≡ kind_bits other) }
    {
        self.as_u32() & other.as_u32() == other.as_u32()
    }

    /// Whether the value fits into the bits of a kind word that a heap may use.
    pub fn value_fits_in_unused_bits(value: u32) -> bool
        ensures { IsTrue result ↔ (value < 67108864) }
    {
        value < 0x0400_0000
    }
}
