//! The objects that registers name.

ghost use Rattle.std.specs.Prelude.{◌≡◌, ℕ, Some, option_copied, IfOk, IfSome};
ghost use Rattle.gc_model.specs.Holds.{HoldsTable};
ghost use Rattle.gc_model.specs.Table.{Table};
ghost use Rattle.gc_model.specs.Values.{Reference};
ghost use Rattle.gc_store.specs.Roots.{NamesReference, IsReference, FindsRoot};
ghost use Rattle.gc_script.specs.State.{State, RegisterStands};
ghost use Rattle.gc_script.specs.Named.{takes, count_of_fields, described, type_at, IsNamedSomewhere, IsNamedEverywhere, TellsObject, FindsObject};

use gc_commands::Refusal;
use gc_heap::GcHeap;
use gc_store::{GcRootIndex, RawValue, RootedObject, Store};
use gc_types::{FieldType, VMSharedTypeIndex};

/// The objects that a command is for.
#[derive(Clone, Copy)]
pub(crate) enum Wanted {
    Struct,
    Array,
    Exception,
    /// A struct or an exception.
    WithFields,
}

/// The types of an object's values.
#[derive(Clone, Copy)]
pub(crate) enum ValueTypes {
    /// Those of the fields of a struct or exception type.
    Fields(VMSharedTypeIndex),
    /// All are elements of this type.
    Elements(FieldType),
}

/// An object that a register names: its root, and the number and the types of its values.
#[derive(Clone, Copy)]
pub(crate) struct NamedObject {
    pub(crate) root: GcRootIndex,
    pub(crate) count: u32,
    pub(crate) types: ValueTypes,
}

impl Wanted {
    /// Whether the object is one of these.
    #[inline(always)]
    fn takes(self, object: &RootedObject) -> bool
        ensures { result ≡ takes self object.now }
    {
        match self {
            Wanted::Struct => matches!(object, RootedObject::Struct(_)),
            Wanted::Array => matches!(object, RootedObject::Array(..)),
            Wanted::Exception => matches!(object, RootedObject::Exn(..)),
            Wanted::WithFields => {
                matches!(object, RootedObject::Struct(_) | RootedObject::Exn(..))
            }
        }
    }
}

/// How many fields a type has; 0 where it has none.
#[inline(always)]
fn count_of_fields<H: GcHeap>(store: &Store<H, u64>, ty: VMSharedTypeIndex) -> u32
    ensures { result ≡ count_of_fields store.now.types ty }
{
    let types = store.types();
    // A declared type has at most 10,000 fields.
    types.are_declared();
    match types.fields_len(ty) {
        Some(count) => count as u32,
        None => 0,
    }
}

/// An object by what the store says of its root; None where it has no values.
#[inline(always)]
fn describe<H: GcHeap>(
    store: &Store<H, u64>,
    root: GcRootIndex,
    object: &RootedObject,
) -> Option<NamedObject>
    ensures { result ≡ described store.now.types root object.now }
{
    match object {
        RootedObject::Struct(ty) | RootedObject::Exn(ty, _) => Some(NamedObject {
            root,
            count: count_of_fields(store, *ty),
            types: ValueTypes::Fields(*ty),
        }),
        RootedObject::Array(ty, count) => {
            let element = store.types().array_elem(*ty)?;
            Some(NamedObject {
                root,
                count: *count,
                types: ValueTypes::Elements(element),
            })
        }
        RootedObject::I31(_) => None,
        RootedObject::Host => None,
    }
}

/// The object that a root names, of which the store told this, where it is one of these.
#[inline(always)]
fn object_of<H: GcHeap>(
    store: &Store<H, u64>,
    root: GcRootIndex,
    wanted: Wanted,
    object: &RootedObject,
) -> Option<NamedObject>
    ensures named { FindsRoot ℕ H.KIND store.now root object.now → IfSome result (IsNamedSomewhere H.KIND store.now wanted) }
    ensures root { IfSome result (λ found. found.root ≡ root) }
    ensures tells { (t : Table ℕ) (r : Reference) → HoldsTable H.KIND store.now t → NamesReference store.now t root r → IsReference t r object.now
        → TellsObject store.now t wanted r result }
{
    if wanted.takes(object) {
        describe(store, root, object)
    } else {
        None
    }
}

/// The object that a register's value names: `Unrooted` where its root is gone, then `WrongKind` where it
/// isn't one of these. It is that object in each table that the store holds.
#[inline(always)]
pub(crate) fn find_object<H: GcHeap>(
    store: &Store<H, u64>,
    value: &RawValue,
    wanted: Wanted,
) -> Result<NamedObject, Refusal>
    ensures named { IfOk result (IsNamedSomewhere H.KIND store.now wanted) }
    ensures everywhere { IfOk result (IsNamedEverywhere H.KIND store.now wanted) }
    ensures finds { (s : State) (r : ℕ) → HoldsTable H.KIND store.now s.table → RegisterStands store.now s.table (Some value.now) (s.registers r)
        → FindsObject store.now s wanted r result }
{
    let root = match value.handle() {
        Some(root) => root,
        None => return Err(Refusal::WrongKind),
    };
    match &store.object(root) {
        Ok(object) => match object_of(store, root, wanted, object) {
            Some(found) => Ok(found),
            None => Err(Refusal::WrongKind),
        },
        Err(_) => Err(Refusal::Unrooted),
    }
}

/// The type of the value at that index, where there is one; of elements whatever the index is.
#[inline(always)]
pub(crate) fn type_at<'a, H: GcHeap>(
    store: &'a Store<H, u64>,
    types: &'a ValueTypes,
    index: usize,
) -> Option<&'a FieldType>
    ensures { option_copied result ≡ type_at store.now.types types.now index }
{
    match types {
        ValueTypes::Fields(ty) => {
            let fields = store.types().fields(*ty)?;
            fields.get(index)
        }
        ValueTypes::Elements(element) => Some(element),
    }
}
