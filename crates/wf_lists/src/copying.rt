//! Copies.
ghost use Rattle.std.specs.Prelude.{◌≡◌, IfOk};

use std::alloc::{AllocError, Global};

/// What can be copied where there is memory for it.
pub trait TryCopy: Sized {
    fn copy(&self, alloc: Global) -> Result<Self, AllocError>
        ensures { IfOk result (λ v. v ≡ self.now) };
}

impl TryCopy for u32 {
    fn copy(&self, _alloc: Global) -> Result<Self, AllocError> {
        Ok(*self)
    }
}

impl TryCopy for u64 {
    fn copy(&self, _alloc: Global) -> Result<Self, AllocError> {
        Ok(*self)
    }
}

// A copy of each item, in order.
pub(crate) fn copy_all<T: TryCopy + Drop>(alloc: Global, items: &[T]) -> Result<Vec<T>, AllocError>
    ensures { IfOk result (λ v. v.items ≡ items.now) }
{
    let mut copies = Vec::with_capacity(alloc, items.len())?;
    for item in items {
        copies.push(item.copy(alloc)?)?;
    }
    Ok(copies)
}
