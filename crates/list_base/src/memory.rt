ghost use Rattle.std.specs.Prelude.{◌≡◌, IfOk};

use std::alloc::{AllocError, AllocFailed};

/// Memory ran out. No contract ties this answer to a cause.
#[derive(Clone, Copy, Debug, PartialEq, Eq)]
pub struct NoMemory;

impl From<AllocError> for NoMemory {
    fn from(_error: AllocError) -> NoMemory {
        NoMemory
    }
}

impl<T: Drop> From<AllocFailed<T>> for NoMemory {
    fn from(_error: AllocFailed<T>) -> NoMemory {
        NoMemory
    }
}

/// A copy that takes memory of its own.
pub trait TryClone {
    /// An equal value, unless memory runs out.
    fn try_clone(&self) -> Result<Self, NoMemory>
        ensures { IfOk result (λ c. c ≡ self.now) };
}

impl TryClone for u8 {
    fn try_clone(&self) -> Result<u8, NoMemory> {
        Ok(*self)
    }
}

impl TryClone for u32 {
    fn try_clone(&self) -> Result<u32, NoMemory> {
        Ok(*self)
    }
}
