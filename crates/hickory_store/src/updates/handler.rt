//! The handler, and what it is set to.

ghost use Rattle.std.specs.Prelude.{◌≡◌};

use crate::updates::verifier::Verifier;
use hickory_base::zone_store::{AxfrPolicy, InMemoryZoneHandler};
use std::marker::Model;

/// A zone that is held in memory, takes dynamic updates (RFC 2136), and decides by transaction signatures who may have
/// a transfer of it and who may change it.
#[derive(Drop)]
pub struct UpdatableZoneHandler<V: Verifier> {
    pub(crate) in_memory: InMemoryZoneHandler,
    pub(crate) axfr_policy: AxfrPolicy,
    pub(crate) allow_update: bool,
    pub(crate) verifier: V,
}

impl<V: Verifier> Model for UpdatableZoneHandler<V> {
    ghost use Rattle.hickory_store.specs.updates.UpdatableZone.{UpdatableZone};

    ghost Value = { UpdatableZone V };

    ghost view = { λ handler. record {
      zone = handler.in_memory;
      axfr_policy = handler.axfr_policy;
      allow_update = handler.allow_update;
      verifier =
          handler.verifier;
    } };
}

impl<V: Verifier> UpdatableZoneHandler<V> {
    ghost use Rattle.std.specs.Borrow.{sem};
    ghost use Rattle.hickory_store.specs.representation.LendingZone.{LendsZone};

    /// A handler of this zone. Its policy for transfers stands in the place of the zone's own. It takes no memory.
    pub fn new(
        in_memory: InMemoryZoneHandler,
        axfr_policy: AxfrPolicy,
        allow_update: bool,
        verifier: V,
    ) -> UpdatableZoneHandler<V>
        ensures { result ≡ record {
          zone = in_memory;
          axfr_policy = axfr_policy;
          allow_update = allow_update;
          verifier =
              verifier;
        } }
    {
        UpdatableZoneHandler {
            in_memory,
            axfr_policy,
            allow_update,
            verifier,
        }
    }

    /// Sets who may have a transfer of the zone.
    pub fn set_axfr_policy(&mut self, axfr_policy: AxfrPolicy)
        ensures { self.new ≡ record self.old { axfr_policy = axfr_policy } }
    {
        self.axfr_policy = axfr_policy;
    }

    /// Sets whether the zone takes updates at all.
    pub fn set_allow_update(&mut self, allow_update: bool)
        ensures { self.new ≡ record self.old { allow_update = allow_update } }
    {
        self.allow_update = allow_update;
    }

    /// Sets who judges the signatures of requests.
    pub fn set_verifier(&mut self, verifier: V)
        ensures { self.new ≡ record self.old { verifier = verifier } }
    {
        self.verifier = verifier;
    }

    /// The zone in memory.
    pub fn in_memory(&self) -> &InMemoryZoneHandler
        ensures { result.now ≡ self.now.zone }
    {
        &self.in_memory
    }

    /// The zone in memory, to be changed.
    pub fn in_memory_mut(&mut self) -> &mut InMemoryZoneHandler
        ensures* writes_back { sem 𝓛 (LendsZone V.row V.Verifier self.entry result) }
        ensures value { result.now ≡ self.old.zone }
    {
        &mut self.in_memory
    }
}
