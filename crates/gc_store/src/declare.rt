//! New types.

ghost use Rattle.std.specs.Prelude.{◌≡◌, ◌≤◌, OnErr};
ghost use Rattle.gc_types.specs.Declarations.{struct_type, array_type, exn_type, func_type};
ghost use Rattle.gc_model.specs.Table.{Table};
ghost use Rattle.gc_model.specs.Accounts.{Account, HoldsAccount};
ghost use Rattle.gc_store.specs.Stores.{Declares, IsSameStore};

use crate::store::Store;
use gc_heap::GcHeap;
use gc_types::{
    ArrayType, ExnType, FieldType, FuncType, StructType, TypeFault, VMSharedTypeIndex, ValType,
};

impl<H: GcHeap, D: Drop> Store<H, D> {
    /// Declares a struct type, as `Types::declare_struct` does.
    pub fn declare_struct(
        &mut self,
        fields: &[FieldType],
        supertype: Option<VMSharedTypeIndex>,
        is_final: bool,
    ) -> Result<StructType, TypeFault>
        ensures step { (t : Table D) (a : Account) → HoldsAccount H.KIND self.old t a
            → Declares H.KIND (struct_type fields.now supertype is_final) t a result self.new }
        ensures err { OnErr result (self.new ≡ self.old) }
        ensures same { IsSameStore self.old self.new }
        ensures spare { self.old.spare ≤ self.new.spare }
    {
        self.owner.declare_struct(fields, supertype, is_final)
    }

    /// Declares an array type, as `Types::declare_array` does.
    pub fn declare_array(
        &mut self,
        element: FieldType,
        supertype: Option<VMSharedTypeIndex>,
        is_final: bool,
    ) -> Result<ArrayType, TypeFault>
        ensures step { (t : Table D) (a : Account) → HoldsAccount H.KIND self.old t a
            → Declares H.KIND (array_type element supertype is_final) t a result self.new }
        ensures err { OnErr result (self.new ≡ self.old) }
        ensures same { IsSameStore self.old self.new }
        ensures spare { self.old.spare ≤ self.new.spare }
    {
        self.owner.declare_array(element, supertype, is_final)
    }

    /// Declares an exception type, as `Types::declare_exn` does.
    pub fn declare_exn(&mut self, params: &[ValType]) -> Result<ExnType, TypeFault>
        ensures step { (t : Table D) (a : Account) → HoldsAccount H.KIND self.old t a → Declares H.KIND (exn_type params.now) t a result self.new }
        ensures err { OnErr result (self.new ≡ self.old) }
        ensures same { IsSameStore self.old self.new }
        ensures spare { self.old.spare ≤ self.new.spare }
    {
        self.owner.declare_exn(params)
    }

    /// Declares a function type, as `Types::declare_func` does.
    pub fn declare_func(
        &mut self,
        params: &[ValType],
        results: &[ValType],
        supertype: Option<VMSharedTypeIndex>,
        is_final: bool,
    ) -> Result<FuncType, TypeFault>
        ensures step { (t : Table D) (a : Account) → HoldsAccount H.KIND self.old t a
            → Declares H.KIND (func_type params.now results.now supertype is_final) t a result self.new }
        ensures err { OnErr result (self.new ≡ self.old) }
        ensures same { IsSameStore self.old self.new }
        ensures spare { self.old.spare ≤ self.new.spare }
    {
        self.owner
            .declare_func(params, results, supertype, is_final)
    }
}
