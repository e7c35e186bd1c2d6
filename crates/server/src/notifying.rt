//! Notices that zones have changed (RFC 1996): who is told, and of which zones. Sockets and the clock are the caller's.

ghost use Rattle.std.specs.Prelude.{◌≡◌, ◌++◌, ◌∷◌, [], None, OnErr, OnOk, Some, option_copied};
ghost use Rattle.std.specs.List.{slice_get};
ghost use Rattle.served_notices.specs.Notifying.{IsModeText};
ghost use Rattle.server.specs.Notices.{IsOfZones, IsSecondaryText, LooksAtNumber};
ghost use Rattle.served_notices.specs.declared.notifying.Secondary.{Secondary as Told};

use crate::service::Service;
use crate::settings::{SettingFault, secondary};
use crate::updates::is_added;
use hickory_server::proto::Name;
use served_notices::{Mode, Secondary};
use std::alloc::{AllocError, Global};

/// Sees that a zone of this name was added, if there is a name.
fn see_zone(apexes: &[Name], apex: &Option<Name>) -> Result<(), SettingFault>
    ensures { OnOk result (IsOfZones apexes.now apex.now) }
{
    let Some(name) = apex else {
        return Ok(());
    };
    if is_added(apexes, name) {
        Ok(())
    } else {
        Err(SettingFault::NoZone)
    }
}

impl Service {
    ghost use Rattle.server.specs.Settings.{zones_of};

    /// Sets who is told that a zone has changed, by a word: `no`, `explicit` or `yes`, as [`Mode`] says. Without this
    /// call it is `explicit`.
    pub fn set_notify(&mut self, text: &[u8]) -> Result<(), SettingFault>
        ensures ok { OnOk result (IsModeText text.now (Some self.new.notifying.mode) ×
            (self.new ≡ record self.old { notifying = record self.old.notifying { mode = self.new.notifying.mode } })) }
        ensures err { OnErr result (self.new ≡ self.old) }
        ensures refused { OnErr result (IsModeText text.now None) }
    {
        let Some(mode) = Mode::read(text) else {
            return Err(SettingFault::NotifyMode);
        };
        self.notifying.mode = mode;
        Ok(())
    }

    /// Tells a server, `ADDRESS[@PORT]`, of the zone of this name, which was added, or of all zones if there is no name.
    pub fn also_notify(
        &mut self,
        alloc: Global,
        zone: Option<&[u8]>,
        text: &[u8],
    ) -> Result<(), SettingFault>
        ensures ok { OnOk result ((told : Told) × IsSecondaryText (option_copied zone.entry) text.now told ×
            IsOfZones self.old.apexes.items told.apex ×
            (self.new.notifying.secondaries.items ≡ self.old.notifying.secondaries.items ++ told ∷ [])) }
        ensures err { OnErr result (self.new.notifying.secondaries.items ≡ self.old.notifying.secondaries.items) }
        ensures others { self.new ≡ record self.old {
          notifying = record self.old.notifying { secondaries = self.new.notifying.secondaries };
        } }
    {
        let told: Secondary = secondary(alloc, zone, text)?;
        see_zone(&self.apexes, &told.apex)?;
        Ok(self.notifying.secondaries.push(told)?)
    }

    /// Looks at the zone of this number, from 0 in the order in which zones were added, as
    /// [`Notifying::look`](served_notices::Notifying::look) says. If there are not so many, nothing happens.
    pub fn look(
        &mut self,
        alloc: Global,
        number: usize,
        serial: &mut u64,
        now: u64,
    ) -> Result<(), AllocError>
        ensures ok { OnOk result (LooksAtNumber (zones_of self.old) (slice_get self.old.apexes.items number) now serial.old
            self.old.notifying serial.new self.new.notifying) }
        ensures err { OnErr result ((self.new ≡ self.old) × (serial.new ≡ serial.old)) }
        ensures others { self.new ≡ record self.old { notifying = self.new.notifying } }
    {
        let Some(apex) = self.apexes.get(number) else {
            return Ok(());
        };
        let zones = &self.answering.server.server.catalog;
        self.notifying.look(alloc, zones, apex, serial, now)
    }
}
