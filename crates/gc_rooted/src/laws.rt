//! Laws of handles, of what is written, and of growth.

ghost use Rattle.std.specs.Prelude.{◌≡◌, ◌<◌, ◌≤◌, ◌*◌, ◌-◌, ◌^◌, ℕ, None, Some, true, length, min, slice_get};
ghost use Rattle.gc_types.specs.declared.kind.Layouts.{Layouts};
ghost use Rattle.gc_model.specs.Values.{Reference, Object, Value};
ghost use Rattle.gc_model.specs.Reach.{object_values};
ghost use Rattle.gc_model.specs.Table.{Table, Scoped, push, make, leave, with_value};
ghost use Rattle.gc_model.specs.Live.{rooted};
ghost use Rattle.gc_view.specs.Sizes.{need_of};
ghost use Rattle.gc_view.specs.Pages.{page};
ghost use Rattle.gc_model.specs.Allocation.{asked};
ghost use Rattle.gc_view.specs.Heaps.{HeapView};
ghost use Rattle.gc_model.specs.Holds.{HoldsTable};
ghost use Rattle.gc_heap.specs.Content.{IsHeap};
ghost use Rattle.gc_heap.specs.Heap.{HasRoom, grown};
ghost use Rattle.gc_owner.specs.Growing.{pages_of};
ghost use Rattle.gc_model.specs.Stores.{StoreView};
ghost use Rattle.gc_store.specs.Roots.{NamesSerial, NamesReference, NamesSame};
ghost use Rattle.gc_owner.specs.Owners.{heap_kind};
ghost use Rattle.gc_store.specs.Collectings.{IsOpen, IsClosed, IsCollected, IsTrimmedStore, TakesAsMany};
ghost use Rattle.gc_store.specs.Stores.{IsSameStore};
ghost use Rattle.gc_values.specs.declared.root.GcRootIndex.{GcRootIndex};

use gc_heap::{GcHeap, GcProgress};
use gc_store::{Collecting, Store};

/// A handle names one push for ever: no two pushes of a store have the same index and generation.
pub fn handles_name_one_root<H: GcHeap, D: Drop>(store: &Store<H, D>)
    ensures { (t : Table D) (handle : GcRootIndex) (x y : ℕ) → HoldsTable H.KIND store.now t → NamesSerial store.now t handle x
        → NamesSerial store.now t handle y → x ≡ y }
{}

/// That two handles are live and name the same reference is an equivalence, and no collection changes it: a handle, scoped
/// or owned, names the same reference as long as its store holds the same table.
pub fn sameness_is_an_equivalence<D: Drop>()
    ensures same { (s : StoreView D) (t : Table D) (a : GcRootIndex) (r : Reference) → NamesReference s t a r → NamesSame s t a a }
    ensures turned { (s : StoreView D) (t : Table D) (a b : GcRootIndex) → NamesSame s t a b → NamesSame s t b a }
    ensures through { (layouts : Layouts) (s : StoreView D) (t : Table D) (a b c : GcRootIndex) → HoldsTable layouts s t
        → NamesSame s t a b → NamesSame s t b c → NamesSame s t a c }
    ensures kept { (old new : StoreView D) (t : Table D) (a b : GcRootIndex) → IsSameStore old new → NamesSame old t a b → NamesSame new t a b }
{}

/// When a scope is left, each root that was made in it is gone.
pub fn left_roots_are_gone<H: GcHeap, D: Drop>(store: &Store<H, D>)
    ensures { (t : Table D) (mark i : ℕ) (root : Scoped) → HoldsTable H.KIND store.now t → mark ≤ i → slice_get t.scoped i ≡ Some root
        → rooted (leave mark t) root.serial ≡ None }
{}

/// A value that was written into an object is read back, and every other value is as it was.
pub fn written_is_read<D: Drop>()
    ensures written { (o : Object D) (index : ℕ) (v : Value) → index < length (object_values o)
        → slice_get (object_values (with_value index v o)) index ≡ Some v }
    ensures others { (o : Object D) (index other : ℕ) (v : Value) → ¬ (other ≡ index)
        → slice_get (object_values (with_value index v o)) other ≡ slice_get (object_values o) other }
{}

/// A root that is gone is gone for ever: no later push, and no scope that is left, makes it live again.
pub fn roots_stay_gone<D: Drop>()
    ensures push { (t : Table D) (x : ℕ) (r : Reference) → x < length t.pushes → rooted t x ≡ None → rooted (push r t) x ≡ None }
    ensures make { (t : Table D) (x : ℕ) (o : Object D) → x < length t.pushes → rooted t x ≡ None → rooted (make o t) x ≡ None }
    ensures leave { (t : Table D) (x mark : ℕ) → rooted t x ≡ None → rooted (leave mark t) x ≡ None }
{}

/// A growth by the bytes that an object needs makes room for it, in a heap of any kind.
pub fn granted_growth_fits()
    ensures { (layouts : Layouts) (h : HeapView) (size : ℕ) → IsHeap layouts h
        → HasRoom layouts (grown layouts h (page * asked (pages_of h) (need_of layouts size))) size }
{}

/// A collection that is started and dropped after its first increment is one as `gc` does it.
pub fn a_dropped_collection_is_one<H: GcHeap + Drop, D: Drop>(store: &mut Store<H, D>)
    ensures { IsCollected H.KIND store.old store.new }
{
    let mut collecting = store.gc_start();
    collecting.collect_increment();
}

/// A collection that is started and dropped at once collects nothing: the owned roots without handles go.
pub fn a_start_only_trims<H: GcHeap + Drop, D: Drop>(store: &mut Store<H, D>)
    ensures { IsTrimmedStore H.KIND store.old store.new }
{
    let _guard = store.gc_start();
}

/// Does the increments of a collection of which none was done, and says how many there were.
fn count_increments<H: GcHeap + Drop, D: Drop>(collecting: &mut Collecting<'_, H, D>) -> u64
    ensures same_reference { collecting.new.home.ghost_name ≡ collecting.old.home.ghost_name }
    ensures closes { (old : StoreView D) → IsOpen (heap_kind H.KIND H.seen H.sound H.under_way) old 0 true collecting.old.inside
        → IsClosed (heap_kind H.KIND H.seen H.sound H.under_way) old collecting.new.inside }
    ensures counted { (old : StoreView D) → IsOpen (heap_kind H.KIND H.seen H.sound H.under_way) old 0 true collecting.old.inside
        → (n : ℕ) × (TakesAsMany H.KIND old n × (result ≡ min n (2 ^ 64 - 1))) }
{
    match collecting.collect_increment() {
        GcProgress::Continue => {}
        GcProgress::Complete => return 1,
    }
    let mut count: u64 = 1;
    'increments: loop {
        let progress = collecting.collect_increment();
        count = count.saturating_add(1);
        match progress {
            GcProgress::Continue => {}
            GcProgress::Complete => return count,
        }
    }
}

/// A collection that is started and done increment by increment is one as `gc` does it, and takes, where the heap is made, as many increments
/// as the number of objects that the roots reach asks for. How many there were is answered.
pub fn a_stepped_collection_is_one<H: GcHeap + Drop, D: Drop>(store: &mut Store<H, D>) -> u64
    ensures collected { IsCollected H.KIND store.old store.new }
    ensures counted { (n : ℕ) × (TakesAsMany H.KIND store.old n × (result ≡ min n (2 ^ 64 - 1))) }
{
    let mut collecting = store.gc_start();
    count_increments(&mut collecting)
}
