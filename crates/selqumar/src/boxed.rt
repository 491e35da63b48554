//! A box as its pointer.
ghost use Rattle.std.specs.Prelude.{◌≡◌};
ghost use Rattle.selqumar.specs.Slot.{is_boxed};

use std::alloc::Global;
use std::marker::Model;

/// The pointer of a box, which owns what the box did.
pub(crate) struct BoxPointer<T> {
    pub(crate) pointer: *mut T,
    pub(crate) ghost value: { T },
}

impl<T> Model for BoxPointer<T> {
    ghost also_owns = { λ b. is_boxed T.row b.pointer b.value };
}

impl<T: Drop> BoxPointer<T> {
    /// The pointer of this box.
    pub(crate) fn of(value: Box<T>) -> BoxPointer<T>
        ensures { result.value ≡ value.value }
    {
        BoxPointer {
            pointer: Box::into_raw(value),
        }
    }

    /// The box again.
    pub(crate) fn into_box(self, alloc: Global) -> Box<T>
        ensures { result.value ≡ self.value }
    {
        let BoxPointer { pointer } = self;
        unsafe { Box::from_raw(alloc, pointer) }
    }
}
