//! Sizes and alignment of blocks.
ghost use Rattle.std.specs.Prelude.{◌≡◌, ◌+◌, ◌*◌, ◌%◌, ◌^◌, ◌<◌, ◌≤◌, ◌↔◌, IsTrue, IsNone, IfSome};

use crate::free_list::FreeList;
use crate::run::ALIGN;

/// The size and the alignment of an object, in bytes.
#[derive(Clone, Copy, Debug, PartialEq, Eq)]
pub struct Layout {
    pub size: usize,
    pub align: usize,
}

impl FreeList {
    /// A size rounded up to whole places. `None` exactly where `size + 16` passes the greatest u32.
    pub fn aligned_size(size: u32) -> Option<u32>
        ensures none { IsNone result ↔ (2 ^ 32 ≤ size + ALIGN) }
        ensures whole { IfSome result (λ rounded. rounded % ALIGN ≡ 0) }
        ensures not_below { IfSome result (λ rounded. size ≤ rounded) }
        ensures nearest { IfSome result (λ rounded. rounded < size + ALIGN) }
    {
        let past = size.checked_add(ALIGN)?;
        Some((past - 1) / ALIGN * ALIGN)
    }

    /// Whether blocks lie at multiples of `align`.
    pub fn can_align_to(align: usize) -> bool
        ensures { IsTrue result ↔ (align ≤ ALIGN) }
    {
        align <= ALIGN as usize
    }

    /// The layout of a block of `size` bytes.
    pub fn layout(size: usize) -> Layout
        ensures size { result.size ≡ size }
        ensures align { result.align ≡ ALIGN }
    {
        Layout {
            size,
            align: ALIGN as usize,
        }
    }
}
