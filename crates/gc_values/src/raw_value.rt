//! What a value is.

ghost use Rattle.std.specs.Prelude.{◌≡◌};
ghost use Rattle.gc_values.specs.RawValues.{raw_handle};

use crate::root::{GcRootIndex, RawValue};

impl RawValue {
    /// The handle of a reference; None where that is null, and for every other value.
    pub fn handle(&self) -> Option<GcRootIndex>
        ensures { result ≡ raw_handle self.now }
    {
        match self {
            RawValue::Ref(_, handle) => *handle,
            _ => None,
        }
    }
}
