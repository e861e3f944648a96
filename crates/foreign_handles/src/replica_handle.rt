//! The handle of a replica that crosses to C.
ghost use Rattle.std.specs.{Prelude.{◌≡◌, Option, Some, None, IsSome}, Global.{Global}};
ghost use Rattle.replica.specs.Log.{Hosted};

use crate::loose::Loose;
use replica::host::Host;
use std::alloc::{Allocator, Global};
use std::marker::Model;

/// The address of a replica on the heap, which it owns, or of none.
#[repr(C)]
#[derive(Drop)]
pub struct ReplicaHandle {
    at: *mut u8,
    pub ghost held: { Option Hosted },
    pub ghost heap: { Global },
}

impl Model for ReplicaHandle {
    ghost use Rattle.std.specs.Box.Ownership.{box_owns};
    ghost use Rattle.replica.specs.contracts.host.Host.{the_row};
    ghost use Rattle.foreign_handles.specs.Owned.{IfHeld};

    ghost also_owns = { λ h. IfHeld h.held (box_owns (⟦<Global as Allocator>⟧.dealloc_token h.heap) the_row h.at) };
}

impl ReplicaHandle {
    ghost use Rattle.std.specs.Borrow.{sem};
    ghost use Rattle.foreign_handles.specs.ReplicaLending.{LendsReplica, RestsReplicaHandle};

    /// No replica.
    pub fn empty(_alloc: Global, at: *mut u8) -> ReplicaHandle
        ensures { result.held ≡ None }
    {
        ReplicaHandle { at }
    }

    /// The handle of what the box holds.
    pub fn of(loose: Loose<Host, Global>) -> ReplicaHandle
        ensures { result.held ≡ Some loose.value }
    {
        let Loose { at, alloc: _ } = loose;
        ReplicaHandle { at: at as *mut u8 }
    }

    /// The replica, in place: the handle ends with the replica's last value. It costs one read.
    pub fn lend(&mut self) -> &mut Host
        requires { IsSome self.old.held }
        ensures* writes_back { sem 𝓛 (LendsReplica self.entry result) }
        ensures value { Some result.now ≡ self.old.held }
    {
        unsafe { &mut *(self.at as *mut Host) }
    }

    /// The replica, to be read in place: nothing is taken out, and the handle ends as it was.
    pub fn look(&mut self) -> &Host
        requires { IsSome self.old.held }
        ensures* rests { sem 𝓛 (RestsReplicaHandle self.entry) }
        ensures value { Some result.now ≡ self.old.held }
    {
        self.lend()
    }

    /// The box of what is held.
    pub fn into_loose(self, alloc: Global) -> Loose<Host, Global>
        requires { IsSome self.held }
        ensures { Some result.value ≡ self.held }
    {
        let ReplicaHandle { at } = self;
        Loose {
            at: at as *mut Host,
            alloc,
        }
    }
}

// A handle goes to another thread with its replica.
unsafe impl Send for ReplicaHandle {}
