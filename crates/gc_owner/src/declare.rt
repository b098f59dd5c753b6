//! New types.

ghost use Rattle.std.specs.Prelude.{◌≡◌, true};
ghost use Rattle.gc_types.specs.Declarations.{struct_type, array_type, exn_type, func_type};
ghost use Rattle.gc_owner.specs.Declares.{AppendsType};

use crate::owner::HeapOwner;
use gc_heap::GcHeap;
use gc_types::{
    ArrayType, ExnType, FieldType, FuncType, StructType, TypeFault, VMSharedTypeIndex, ValType,
};

impl<H: GcHeap, D: Drop> HeapOwner<H, D> {
    /// Declares a struct type, as `Types::declare_struct` does.
    pub fn declare_struct(
        &mut self,
        fields: &[FieldType],
        supertype: Option<VMSharedTypeIndex>,
        is_final: bool,
    ) -> Result<StructType, TypeFault>
        requires idle { self.old.seen.idle ≡ true }
        ensures { AppendsType self.old.seen self.new.seen (struct_type fields.now supertype is_final) result }
    {
        self.types.declare_struct(fields, supertype, is_final)
    }

    /// Declares an array type, as `Types::declare_array` does.
    pub fn declare_array(
        &mut self,
        elem: FieldType,
        supertype: Option<VMSharedTypeIndex>,
        is_final: bool,
    ) -> Result<ArrayType, TypeFault>
        requires idle { self.old.seen.idle ≡ true }
        ensures { AppendsType self.old.seen self.new.seen (array_type elem supertype is_final) result }
    {
        self.types.declare_array(elem, supertype, is_final)
    }

    /// Declares an exception type, as `Types::declare_exn` does.
    pub fn declare_exn(&mut self, params: &[ValType]) -> Result<ExnType, TypeFault>
        requires idle { self.old.seen.idle ≡ true }
        ensures { AppendsType self.old.seen self.new.seen (exn_type params.now) result }
    {
        self.types.declare_exn(params)
    }

    /// Declares a function type, as `Types::declare_func` does.
    pub fn declare_func(
        &mut self,
        params: &[ValType],
        results: &[ValType],
        supertype: Option<VMSharedTypeIndex>,
        is_final: bool,
    ) -> Result<FuncType, TypeFault>
        requires idle { self.old.seen.idle ≡ true }
        ensures { AppendsType self.old.seen self.new.seen (func_type params.now results.now supertype is_final) result }
    {
        self.types
            .declare_func(params, results, supertype, is_final)
    }
}
