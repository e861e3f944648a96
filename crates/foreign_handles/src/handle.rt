//! The handle that crosses to C.
ghost use Rattle.std.specs.{Prelude.{◌≡◌, Option, Some, None, IsSome}, Global.{Global}};
ghost use Rattle.foreign_handles.specs.declared.held.Held.{Held};

use crate::held::Held;
use crate::loose::Loose;
use std::alloc::{Allocator, Global};
use std::marker::Model;
use std::ptr;

/// The address of a table on the heap, which it owns, or of none.
#[repr(C)]
#[derive(Drop)]
pub struct Handle {
    at: *mut u8,
    pub ghost held: { Option Held },
    pub ghost heap: { Global },
}

impl Model for Handle {
    ghost use Rattle.std.specs.Box.Ownership.{box_owns};
    ghost use Rattle.foreign_handles.specs.contracts.held.Held.{the_row};
    ghost use Rattle.foreign_handles.specs.Owned.{IfHeld};

    ghost also_owns = { λ h. IfHeld h.held (box_owns (⟦<Global as Allocator>⟧.dealloc_token h.heap) the_row h.at) };
}

impl Handle {
    ghost use Rattle.std.specs.Borrow.{sem};
    ghost use Rattle.foreign_handles.specs.Lending.{LendsHeld, RestsHandle};

    /// No table.
    pub fn empty(_alloc: Global, at: *mut u8) -> Handle
        ensures { result.held ≡ None }
    {
        Handle { at }
    }

    /// The handle of what the box holds.
    pub fn of(loose: Loose<Held, Global>) -> Handle
        ensures { result.held ≡ Some loose.value }
    {
        let Loose { at, alloc: _ } = loose;
        Handle { at: at as *mut u8 }
    }

    /// The table, in place: the handle ends with the table's last value. It costs one read.
    pub fn lend(&mut self) -> &mut Held
        requires { IsSome self.old.held }
        ensures* writes_back { sem 𝓛 (LendsHeld self.entry result) }
        ensures value { Some result.now ≡ self.old.held }
    {
        unsafe { &mut *(self.at as *mut Held) }
    }

    /// The table, to be read in place: nothing is taken out, and the handle ends as it was.
    pub fn look(&mut self) -> &Held
        requires { IsSome self.old.held }
        ensures* rests { sem 𝓛 (RestsHandle self.entry) }
        ensures value { Some result.now ≡ self.old.held }
    {
        self.lend()
    }

    /// The box of what is held.
    pub fn into_loose(self, alloc: Global) -> Loose<Held, Global>
        requires { IsSome self.held }
        ensures { Some result.value ≡ self.held }
    {
        let Handle { at } = self;
        Loose {
            at: at as *mut Held,
            alloc,
        }
    }
}

/// The pointer to nothing.
pub fn null() -> *mut u8 {
    ptr::null_mut()
}

// A handle goes to another thread with its table.
unsafe impl Send for Handle {}
