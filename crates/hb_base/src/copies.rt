ghost use Rattle.std.specs.Prelude.{◌≡◌, IfOk};

use crate::memory::Memory;
use std::alloc::Global;

/// A value whose copy may want memory.
pub trait Duplicate {
    /// A value equal to this one.
    fn copy(&self, alloc: Global) -> Result<Self, Memory>
    where
        Self: Sized,
        ensures { IfOk result (λ made. made ≡ self.now) };
}
