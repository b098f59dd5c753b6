//! Where the words of an object lie, counted from its first byte.
//!
//! A word that every heap has lies where the layouts of its objects leave room for it, so it depends on
//! the heap. A constant that names a heap is of that heap alone; the null heap needs none, since it keeps
//! the size of an object in the spare bits of its kind word.

ghost use Rattle.std.specs.Prelude.{◌≡◌, ◌≤◌, ◌<◌, ◌+◌, ◌^◌};
ghost use Rattle.gc_types.specs.declared.kind.Layouts.TheVariants.{Counting, Copying};
ghost use Rattle.gc_view.specs.Sizes.{alignment};
ghost use Rattle.gc_memory.specs.Offsets.{array_length_offset, exception_instance_offset, exception_tag_offset, host_id_offset, external_size, stored_size};
ghost use Rattle.gc_memory.specs.Offsets.{type_word_offset, header_size, count_offset, list_offset, counting_size_offset, link_offset, copying_size_offset};
ghost use Rattle.gc_memory.specs.Offsets.{forwarding_offset, next_external_offset};

use gc_types::Layouts;

/// Every object begins at a multiple of this many bytes.
pub const ALIGNMENT: u32 = 16;

/// The type word of a header. Its kind word is at 0.
pub const TYPE_WORD: u32 = 4;

/// The bytes of a header.
pub const HEADER_SIZE: u32 = 8;

/// The counting heap: how many references to an object are counted, in 64 bits.
pub const COUNTING_COUNT: u32 = 8;

/// The counting heap: the next object of the list of those that were shown to the program.
pub const COUNTING_LIST: u32 = 16;

/// The counting heap: the size of an object, in bytes.
pub const COUNTING_SIZE: u32 = 20;

/// The counting heap: the next object of those that wait to be freed.
pub const COUNTING_LINK: u32 = 24;

/// The counting heap: the id of an external object's host value.
pub const COUNTING_HOST: u32 = 28;

/// The copying heap: the size of an object, in bytes.
pub const COPYING_SIZE: u32 = 8;

/// The copying heap: where an object went, once a collection has copied it; until then its first field.
pub const COPYING_FORWARDING: u32 = 12;

/// The copying heap: the id of an external object's host value.
pub const COPYING_HOST: u32 = 16;

/// The copying heap: the next external object.
pub const COPYING_NEXT_EXTERNAL: u32 = 20;

/// The constants are those that contracts speak of. This call does nothing.
pub fn constants()
    ensures alignment { ALIGNMENT ≡ alignment }
    ensures type_word { TYPE_WORD ≡ type_word_offset }
    ensures header_size { HEADER_SIZE ≡ header_size }
    ensures count { COUNTING_COUNT ≡ count_offset }
    ensures list { COUNTING_LIST ≡ list_offset }
    ensures counting_size { COUNTING_SIZE ≡ counting_size_offset }
    ensures link { COUNTING_LINK ≡ link_offset }
    ensures counting_host { COUNTING_HOST ≡ host_id_offset Counting }
    ensures copying_size { COPYING_SIZE ≡ copying_size_offset }
    ensures forwarding { COPYING_FORWARDING ≡ forwarding_offset }
    ensures copying_host { COPYING_HOST ≡ host_id_offset Copying }
    ensures next_external { COPYING_NEXT_EXTERNAL ≡ next_external_offset }
{}

/// The number of elements of an array.
pub fn array_length(layouts: Layouts) -> u32
    ensures { result ≡ array_length_offset layouts }
{
    layouts.struct_base()
}

/// The instance that an exception's tag is of.
pub fn exception_instance(layouts: Layouts) -> u32
    ensures { result ≡ exception_instance_offset layouts }
{
    layouts.struct_base()
}

/// The number of an exception's tag in its instance.
pub fn exception_tag(layouts: Layouts) -> u32
    ensures { result ≡ exception_tag_offset layouts }
{
    layouts.struct_base() + 4
}

/// The id of an external object's host value.
pub fn host_id(layouts: Layouts) -> u32
    ensures { result ≡ host_id_offset layouts }
{
    match layouts {
        Layouts::Null => 8,
        Layouts::Counting => COUNTING_HOST,
        Layouts::Copying => COPYING_HOST,
    }
}

/// The bytes of an external object.
pub fn external_size(layouts: Layouts) -> u32
    ensures { result ≡ external_size layouts }
{
    match layouts {
        Layouts::Null => 12,
        Layouts::Counting => 32,
        Layouts::Copying => 24,
    }
}

/// What an object of that many bytes keeps as its size: the copying heap rounds it up to a multiple of 16.
pub fn stored_size(layouts: Layouts, size: u32) -> u64
    ensures { result ≡ stored_size layouts size }
{
    let size = u64::from(size);
    let alignment = u64::from(ALIGNMENT);
    match layouts {
        Layouts::Null | Layouts::Counting => size,
        Layouts::Copying => (size + (alignment - 1)) / alignment * alignment,
    }
}
