//! Answers of allocations, with the word of the new object alone.

ghost use Rattle.std.specs.Prelude.{◌≡◌};

use crate::fault::HeapFault;
use gc_refs::{VMArrayRef, VMExternRef, VMGcRef};

/// The same answer of an allocation, with the word of the array alone.
pub fn array_word(
    made: Result<Result<VMArrayRef, u64>, HeapFault>,
) -> Result<Result<VMGcRef, u64>, HeapFault>
    ensures { result ≡ made }
{
    match made {
        Ok(Ok(array)) => Ok(Ok(VMGcRef::from(array))),
        Ok(Err(need)) => Ok(Err(need)),
        Err(fault) => Err(fault),
    }
}

/// The same answer of an allocation, with the word of the external object alone.
pub fn external_word(
    made: Result<Result<VMExternRef, u64>, HeapFault>,
) -> Result<Result<VMGcRef, u64>, HeapFault>
    ensures { result ≡ made }
{
    match made {
        Ok(Ok(external)) => Ok(Ok(VMGcRef::from(external))),
        Ok(Err(need)) => Ok(Err(need)),
        Err(fault) => Err(fault),
    }
}
