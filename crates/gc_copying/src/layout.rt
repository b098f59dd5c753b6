//! How the objects of a copying heap are laid out, and its memory.

ghost use Rattle.std.specs.Prelude.{◌≡◌, ◌*◌, ◌/◌, ◌-◌, ◌^◌, min};

use gc_types::Layouts;

/// The copying collector.
pub struct CopyingCollector;

impl CopyingCollector {
    /// The layout of the objects of a copying heap.
    pub fn layouts() -> Layouts
        ensures { result ≡ Layouts.Copying }
    {
        Layouts::Copying
    }
}

/// The bytes of a memory of that length that a copying heap can halve: at most as many as places can
/// name, in whole multiples of 32.
pub fn round_down_heap_capacity(len: usize) -> u32
    ensures { result ≡ min len (2 ^ 32 - 1) / 32 * 32 }
{
    len.min(u32::MAX as usize) as u32 / 32 * 32
}
