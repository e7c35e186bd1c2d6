//! Who may update which zones, from the arguments.

ghost use Rattle.std.specs.Prelude.{IfOk, OnOk};
ghost use Rattle.std.specs.List.{AllZip};
ghost use Rattle.server.specs.Updates.{AreOfZones};
ghost use Rattle.zone_serve.specs.Catalogs.{IsGrantBy};

use crate::fault::Fault;
use hickory_server::proto::Name;
use serve_options::arguments::UpdateArgument;
use served_zones::grants::{Grant, zone_grant};
use server::settings::SettingFault;
use server::updates;
use std::alloc::Global;
use tsig::Keys;

/// The rule of an argument.
fn grant_of(alloc: Global, keys: &Keys, argument: UpdateArgument<'_>) -> Result<Grant, Fault>
    ensures { IfOk result (IsGrantBy keys.now argument.entry) }
{
    match zone_grant(alloc, keys, argument.zone, argument.rule) {
        Ok(grant) => Ok(grant),
        Err(fault) => Err(Fault::of_argument(argument.place, SettingFault::from(fault))),
    }
}

/// The rules of the arguments, in their order.
pub fn grants_of(
    alloc: Global,
    keys: &Keys,
    arguments: &[UpdateArgument<'_>],
) -> Result<Vec<Grant>, Fault>
    ensures { IfOk result (λ grants. AllZip (IsGrantBy keys.now) arguments.now grants.items) }
{
    let mut grants = Vec::new(alloc);
    for place in 0..arguments.len() {
        grants.push(grant_of(alloc, keys, arguments[place])?)?;
    }
    Ok(grants)
}

/// The place of the argument of this number among those with rules, from 1.
// No clause: the place of an argument is only reported.
fn place_of(arguments: &[UpdateArgument<'_>], number: usize) -> usize {
    arguments
        .get(number.saturating_sub(1))
        .map_or(0, |argument| argument.place)
}

/// Sees that each rule is of a zone that was loaded.
pub fn see_zones(
    grants: &[Grant],
    apexes: &[Name],
    arguments: &[UpdateArgument<'_>],
) -> Result<(), Fault>
    ensures { OnOk result (AreOfZones grants.now apexes.now) }
{
    match updates::see_zones(grants, apexes) {
        Ok(()) => Ok(()),
        Err(SettingFault::RuleWithoutZone { number }) => Err(Fault::UpdateZone {
            place: place_of(arguments, number),
        }),
        Err(fault) => Err(Fault::of_argument(0, fault)),
    }
}
