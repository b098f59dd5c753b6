//! Writing into objects.

ghost use Rattle.std.specs.Prelude.{◌≡◌, ◌≤◌, [], ◌∷◌, IsOk, OnErr};
ghost use Rattle.gc_model.specs.Table.{Table};
ghost use Rattle.gc_model.specs.Accounts.{Account, HoldsAccount};
ghost use Rattle.gc_store.specs.Values.{CanWrite, WritesValue};
ghost use Rattle.gc_values.specs.RawValues.{raw_side_values};
ghost use Rattle.gc_model.specs.SideValues.{no_side_values};
ghost use Rattle.gc_store.specs.Stores.{IsSameStore};

use crate::store::Store;
use gc_heap::GcHeap;
use gc_refs::VMGcRef;
use gc_values::faults::WriteFault;
use gc_values::interned::intern_given;
use gc_values::root::{GcRootIndex, RawValue};
use gc_values::slot::slot_in;
use gc_values::stored::{stored_value, write_slot};

impl<H: GcHeap, D: Drop> Store<H, D> {
    /// Writes a value at that index into the object that the handle names: into a field of a struct or an exception, or
    /// an element of an array. It has to be one that may be changed, so none of an exception. Of a number that is wider than its slot the low bits are kept. It takes memory for a function
    /// value or a continuation that is new to the store alone. `FuncTableFull` where the store has 2^31 function values, none of
    /// them this one; `ContTableFull` where it has as many continuations.
    pub fn write_value(
        &mut self,
        handle: GcRootIndex,
        index: u32,
        value: RawValue,
    ) -> Result<(), WriteFault>
        requires { CanWrite D H.KIND self.old handle index value }
        ensures ok { raw_side_values (value ∷ []) ≡ no_side_values → IsOk result }
        ensures writes { (t : Table D) (a : Account) → HoldsAccount H.KIND self.old t a → WritesValue H.KIND self.old self.new t a handle index value result }
        ensures err { OnErr result (self.new ≡ self.old) }
        ensures same { IsSameStore self.old self.new }
        ensures spare { self.old.spare ≤ self.new.spare }
    {
        self.owner.is_ready();
        match self.word_of(handle) {
            Ok(word) => {
                intern_given(&mut self.interned, &value)?;
                let gc_ref = VMGcRef::from_raw_u32(word).unwrap();
                let slot = slot_in(self.owner.heap(), self.owner.types(), &gc_ref, index);
                let stored = stored_value(
                    &self.interned,
                    self.owner.scoped(),
                    self.owner.owned(),
                    &value,
                );
                write_slot(&mut self.owner, &gc_ref, &slot, stored);
                Ok(())
            }
            Err(_) => unreachable!(),
        }
    }
}
