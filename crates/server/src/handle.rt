//! A server as C holds it.

ghost use Rattle.std.specs.Prelude.{◌≡◌};
ghost use Rattle.std.specs.Global.{Global};
ghost use Rattle.server.specs.declared.service.Service.{Service};

use crate::service::Service;
use std::alloc::Global;
use std::marker::Model;
use std::ptr::NonNull;

/// The address of a server, which `zone_service_create` made and `zone_service_free` did not take.
#[repr(C)]
pub struct Handle {
    at: *mut u8,
    ghost service: { Service },
    ghost heap: { Global },
}

impl Model for Handle {
    ghost use Rattle.std.specs.Box.Ownership.{box_owns};
    ghost use Rattle.std_heap.specs.contracts.GlobalAllocator.TheImpl.{ghosts};
    ghost use Rattle.server.specs.contracts.service.Service.{the_row as service_row};

    ghost also_owns = { λ h. box_owns (ghosts.dealloc_token h.heap) service_row h.at h.service };
}

impl Handle {
    ghost use Rattle.std.specs.Prelude.{◌≡◌};
    ghost use Rattle.std.specs.Borrow.{sem, follows};
    ghost use Rattle.server.specs.contracts.service.Service.{the_row as service_row};
    ghost use Rattle.server.specs.contracts.handle.Handle.{the_row as handle_row};

    /// The server.
    pub fn service(&mut self) -> &mut Service
        ensures* writes_back { sem 𝓛 (follows handle_row service_row self.entry.ghost_name result.ghost_name
            (λ w. record self.old { service = w })) }
        ensures value { result.now ≡ self.old.service }
    {
        unsafe { &mut *(self.at as *mut Service) }
    }

    /// The server, which is C's no longer.
    pub fn into_box(self, alloc: Global) -> Box<Service>
        ensures { result.value ≡ self.service }
    {
        let Handle { at } = self;
        unsafe { Box::from_raw(alloc, at as *mut Service) }
    }
}

/// The address of a server, which stays where it is.
// No clause: what is at an address is known only of a `Handle`.
pub fn address(service: Box<Service>) -> *mut u8 {
    NonNull::from_mut(Box::leak(service)).cast::<u8>().as_ptr()
}
