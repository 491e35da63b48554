//! A table or a snapshot behind a pointer that C may keep.
ghost use Rattle.std.specs.Prelude.{◌≡◌, ◌≢◌, None, Option, Some};
ghost use Rattle.std.specs.Coded.{coded_option};
ghost use Rattle.selqumar.specs.contracts.pointee.Pointee.{the_row};
ghost use Rattle.selqumar.specs.declared.pointee.Pointee.{Pointee};

use crate::boxed::BoxPointer;
use crate::pointee::Pointee;
use std::marker::{Model, Send};
use std::ptr::null_mut;

/// A pointer to a table or a snapshot, or to nothing. It has no type, since C knows none.
#[repr(C)]
#[derive(Drop)]
pub struct Slot {
    pointer: *mut u8,
    pub ghost pointee: { Option Pointee } by { coded_option the_row.coded },
}

impl Model for Slot {
    ghost use Rattle.selqumar.specs.Slot.{owned_at};

    ghost also_owns = { λ s. owned_at s.pointer s.pointee };
}

unsafe impl Send for Slot {}

impl Slot {
    ghost use types.Logic.{sem};
    ghost use Rattle.selqumar.specs.Follows.{slot_follows};

    /// A slot of nothing.
    pub(crate) fn empty() -> Slot
        ensures { result.pointee ≡ None }
    {
        Slot {
            pointer: null_mut(),
        }
    }

    /// A slot of what this pointer points to.
    pub(crate) fn of(pointer: BoxPointer<Pointee>) -> Slot
        ensures { result.pointee ≡ Some pointer.value }
    {
        let BoxPointer { pointer } = pointer;
        Slot {
            pointer: pointer as *mut u8,
        }
    }

    /// The pointer of what is there.
    pub(crate) fn into_pointer(self) -> BoxPointer<Pointee>
        requires { self.pointee ≢ None }
        ensures { self.pointee ≡ Some result.value }
    {
        let Slot { pointer } = self;
        BoxPointer {
            pointer: pointer as *mut Pointee,
        }
    }

    /// What is there, lent.
    pub(crate) fn get_mut(&mut self) -> &mut Pointee
        requires { self.old.pointee ≢ None }
        ensures* writes_back { sem 𝓛 (slot_follows self.entry result) }
        ensures value { self.old.pointee ≡ Some result.now }
    {
        let pointer = self.pointer as *mut Pointee;
        unsafe { &mut *pointer }
    }
}
