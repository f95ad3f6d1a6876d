// Equal copies, and the number of rows of what keeps rows.
ghost use Rattle.std.specs.Prelude.{◌≡◌, ℕ, IfOk};

use crate::{NoMemory, Seq};
use std::alloc::Global;

/// What can be copied, where there is memory.
pub trait Twin: Sized + Drop {
    /// An equal value.
    ///
    /// `NoMemory` where an allocation failed; `self` stays as it is.
    fn twin(&self, alloc: Global) -> Result<Self, NoMemory>
        ensures { IfOk result (λ t. t ≡ self.now) };
}

/// What keeps rows.
pub trait Rows {
    /// How many rows it keeps.
    ghost row_count: { Self → ℕ };

    /// The number of rows. Takes no memory.
    fn rows(&self) -> u64
        ensures { result ≡ row_count self.now };
}

impl Twin for u8 {
    fn twin(&self, _alloc: Global) -> Result<Self, NoMemory> {
        Ok(*self)
    }
}

impl Twin for u32 {
    fn twin(&self, _alloc: Global) -> Result<Self, NoMemory> {
        Ok(*self)
    }
}

impl Twin for u64 {
    fn twin(&self, _alloc: Global) -> Result<Self, NoMemory> {
        Ok(*self)
    }
}

impl<T: Twin> Twin for Seq<T> {
    fn twin(&self, alloc: Global) -> Result<Self, NoMemory> {
        let mut copy = Seq::with_capacity(alloc, self.len())?;
        for item in self.as_slice() {
            copy.push(item.twin(alloc)?)?;
        }
        Ok(copy)
    }
}
