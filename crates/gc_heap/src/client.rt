//! A client of any heap: what it proves, it proves of each heap, by the contract of `GcHeap` alone.

ghost use Rattle.std.specs.Prelude.{List, true, ◌≡◌, ◌<◌};
ghost use Rattle.gc_types.specs.Declarations.{Declaration};
ghost use Rattle.gc_heap.specs.Collection.{CanCollect};
ghost use Rattle.gc_heap.specs.Run.{start_at};
ghost use Rattle.gc_heap.specs.Client.{IsNumberStruct, MakesNumber, GivesOrRefuses};

use crate::access::{read_u32, write_u32};
use crate::collect::run;
use crate::collection::GcStoreTraceState;
use crate::fault::HeapFault;
use crate::heap::GcHeap;
use gc_refs::VMGcRef;
use gc_roots::{GcRootsList, RootPlace};
use gc_types::{GcStructLayout, VMSharedTypeIndex};

/// Makes a struct that holds a number at an offset. It refuses as the allocation does, and then
/// changes nothing.
fn make_number<H: GcHeap>(
    heap: &mut H,
    ty: VMSharedTypeIndex,
    layout: &GcStructLayout,
    offset: u32,
    number: u32,
) -> Result<Result<VMGcRef, u64>, HeapFault>
    requires sound { H.sound heap.old }
    requires attached { (H.seen heap.old).attached ≡ true }
    requires layout { (types : List Declaration) × IsNumberStruct H.KIND types ty layout.now offset }
    ensures sound { H.sound heap.new }
    ensures made { (types : List Declaration) → IsNumberStruct H.KIND types ty layout.now offset
        → GivesOrRefuses H.KIND (H.seen heap.old) (H.seen heap.new) layout.now.size
        (MakesNumber H.KIND types layout.now offset number (H.seen heap.old) (H.seen heap.new)) result }
{
    match heap.alloc_uninit_struct_or_exn(ty, layout) {
        Ok(Ok(object)) => {
            write_u32(heap, &object, offset, number);
            Ok(Ok(object))
        }
        Ok(Err(need)) => Ok(Err(need)),
        Err(fault) => Err(fault),
    }
}

/// Makes a struct that holds a number, roots it, collects, and reads the number through the root,
/// whose word the collection may have changed. It refuses as the allocation does, and then changes
/// nothing.
pub fn keep_number<H: GcHeap, D: Drop>(
    heap: &mut H,
    ty: VMSharedTypeIndex,
    layout: &GcStructLayout,
    offset: u32,
    number: u32,
    roots: &mut GcRootsList,
    trace: &mut GcStoreTraceState<'_, D>,
) -> Result<Result<u32, u64>, HeapFault>
    requires sound { H.sound heap.old }
    requires can { CanCollect H.KIND (start_at (H.seen heap.old) roots.old.roots trace.old.types.now.declarations trace.old.host_data_table.now.entries) }
    requires room { 0 < roots.old.spare }
    requires layout { IsNumberStruct H.KIND trace.old.types.now.declarations ty layout.now offset }
    ensures sound { H.sound heap.new }
    ensures kept { GivesOrRefuses H.KIND (H.seen heap.old) (H.seen heap.new) layout.now.size (λ n. n ≡ number) result }
{
    let object = match make_number(heap, ty, layout, offset, number) {
        Ok(Ok(object)) => object,
        Ok(Err(need)) => return Ok(Err(need)),
        Err(fault) => return Err(fault),
    };
    let index = roots.len();
    roots.add_vmgcref_root(RootPlace { number: 0 }, object);
    run(heap, roots, trace);
    let moved = roots.word_at(index);
    Ok(Ok(read_u32(heap, &moved, offset)))
}
