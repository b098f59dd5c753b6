//! Making objects, each with a root of its own.

ghost use Rattle.std.specs.Prelude.{◌≡◌, ◌≤◌, ◌<◌, ◌^◌, ◌↔◌, OnOk, OnErr, IfErr, IsErrOf, None, length};
ghost use Rattle.gc_types.specs.Layouts.{layout_at, array_layout_at};
ghost use Rattle.test_mutator.specs.Makes.{RootsMade, MakesStruct, MakesArray, MakesExternal};

use crate::fault::MutatorFault;
use crate::mutator::Mutator;
use crate::rooting::{OBJECT, make_room};
use gc_heap::words::{array_word, external_word};
use gc_heap::{GcHeap, HeapFault};
use gc_refs::VMGcRef;
use gc_roots::GcRootsList;
use gc_tables::SlabFault;
use gc_types::VMSharedTypeIndex;

/// Gives a new object its root, which is the last one, or tells why there is none.
fn root_new(
    roots: &mut GcRootsList,
    made: Result<Result<VMGcRef, u64>, HeapFault>,
) -> Result<usize, MutatorFault>
    requires { 0 < roots.old.spare }
    ensures { RootsMade made roots.old.roots roots.new.roots result }
{
    match made {
        Ok(Ok(object)) => {
            let index = roots.len();
            roots.add_vmgcref_root(OBJECT, object);
            Ok(index)
        }
        Ok(Err(need)) => Err(MutatorFault::NoRoom(need)),
        Err(HeapFault::TooLarge) => Err(MutatorFault::TooLarge),
        Err(HeapFault::Memory) => Err(MutatorFault::Memory),
    }
}

impl<H: GcHeap> Mutator<H> {
    /// Makes a struct or an exception of a declared type, whose fields are 0 or null, and answers the
    /// index of its root. `NoType` exactly where the index names no such type, and then `Full` exactly
    /// where there are 2^31 roots, `TooLarge` where no heap of the kind holds so many bytes, and `NoRoom`
    /// where this heap doesn't, with the bytes that it wants.
    pub fn make_struct(&mut self, ty: VMSharedTypeIndex) -> Result<usize, MutatorFault>
        ensures made { MakesStruct H.KIND self.old self.new ty result }
        ensures no_type { IsErrOf result MutatorFault.NoType ↔ (layout_at H.KIND self.old.types ty ≡ None) }
        ensures err { OnErr result (self.new ≡ self.old) }
    {
        let Some(layout) = self.types.struct_layout(H::KIND, ty) else {
            return Err(MutatorFault::NoType);
        };
        match make_room(&mut self.roots) {
            Ok(()) => {}
            Err(fault) => return Err(fault),
        }
        let made = self.heap.alloc_uninit_struct_or_exn(ty, layout);
        root_new(&mut self.roots, made)
    }

    /// Makes an array of a declared type, whose elements are 0 or null, and answers the index of its root.
    /// It is refused as a struct is.
    pub fn make_array(&mut self, ty: VMSharedTypeIndex, length: u32) -> Result<usize, MutatorFault>
        ensures made { MakesArray H.KIND self.old self.new ty length result }
        ensures no_type { IsErrOf result MutatorFault.NoType ↔ (array_layout_at H.KIND self.old.types ty ≡ None) }
        ensures err { OnErr result (self.new ≡ self.old) }
    {
        let Some(layout) = self.types.array_layout(H::KIND, ty) else {
            return Err(MutatorFault::NoType);
        };
        match make_room(&mut self.roots) {
            Ok(()) => {}
            Err(fault) => return Err(fault),
        }
        let made = array_word(self.heap.alloc_uninit_array(ty, length, layout));
        root_new(&mut self.roots, made)
    }

    /// Makes an external object with a new host value, and answers the index of its root. A host value
    /// whose object found no room is taken back. `Full` where there are 2^31 roots, and else, but for want
    /// of memory, where there are 2^31 host values; after that it is refused as a struct is.
    pub fn make_host(&mut self, value: u8) -> Result<usize, MutatorFault>
        ensures { MakesExternal H.KIND self.old self.new value result }
    {
        match make_room(&mut self.roots) {
            Ok(()) => {}
            Err(fault) => return Err(fault),
        }
        let id = match self.hosts.alloc(value) {
            Ok(id) => id,
            Err(SlabFault::Full(_)) => return Err(MutatorFault::Full),
            Err(SlabFault::Memory(_)) => return Err(MutatorFault::Memory),
        };
        let _bounded = id.into_raw();
        let made = external_word(self.heap.alloc_externref(id));
        let rooted = root_new(&mut self.roots, made);
        if rooted.is_err() {
            let _taken_back = self.hosts.dealloc(id);
        }
        rooted
    }
}
