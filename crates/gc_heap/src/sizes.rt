//! How large an object may be, and what a heap without room for one wants, in each kind of heap.

ghost use Rattle.std.specs.Prelude.{◌≡◌, ◌^◌, ◌≤◌};
ghost use Rattle.gc_types.specs.Layouts.{round_up};
ghost use Rattle.gc_view.specs.Sizes.{alignment, need_of, size_rules, too_large};

use gc_memory::offsets::ALIGNMENT;
use gc_types::Layouts;

/// The least size that the spare bits of a kind word, where a null heap keeps it, can't tell.
pub(crate) const NULL_LIMIT: u32 = 0x0400_0000;

/// The least size that, 16 bytes added, is no number of 32 bits: a counting heap has none of it.
const COUNTING_LIMIT: u64 = 0xFFFF_FFF0;

/// The least size that a copying heap can't round up to a number of 32 bits.
const COPYING_LIMIT: u64 = 0xFFFF_FFF1;

/// The next multiple of 16.
pub fn round_up(size: u64) -> u64
    requires { size ≤ 2 ^ 32 }
    ensures { result ≡ round_up size alignment }
{
    let alignment = u64::from(ALIGNMENT);
    (size + (alignment - 1)) / alignment * alignment
}

/// The least size, in bytes, that no heap of the kind can hold.
pub fn size_limit(layouts: Layouts) -> u64
    ensures { result ≡ (size_rules layouts).limit }
{
    match layouts {
        Layouts::Null => u64::from(NULL_LIMIT),
        Layouts::Counting => COUNTING_LIMIT,
        Layouts::Copying => COPYING_LIMIT,
    }
}

/// Whether no heap of the kind can hold an object of `size` bytes.
pub(crate) fn is_too_large(layouts: Layouts, size: u32) -> bool
    ensures { result ≡ too_large layouts size }
{
    u64::from(size) >= size_limit(layouts)
}

/// The bytes that a heap of the kind without room for an object of `size` bytes has to grow by. A half
/// of a copying heap grows by half of them, and skips its first 16.
pub fn need(layouts: Layouts, size: u64) -> u64
    requires { size ≤ 2 ^ 32 }
    ensures { result ≡ need_of layouts size }
{
    let alignment = u64::from(ALIGNMENT);
    match layouts {
        Layouts::Null => size + alignment,
        Layouts::Counting => round_up(size) + alignment,
        Layouts::Copying => 2 * round_up(size) + 2 * alignment,
    }
}
