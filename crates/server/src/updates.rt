//! Rules of who may update what, each of a zone that was added.

ghost use Rattle.std.specs.Prelude.{◌≡◌, ◌↔◌, IfErr, IsTrue, OnOk};
ghost use Rattle.server.specs.Updates as spec;
ghost use Rattle.server.specs.Updates.{AreOfZones};
ghost use Rattle.server.specs.declared.settings.SettingFault.TheVariants.{RuleWithoutZone};

use crate::settings::SettingFault;
use hickory_server::proto::Name;
use served_zones::grants::Grant;

/// Whether a zone of this name was added.
pub(crate) fn is_added(apexes: &[Name], apex: &Name) -> bool
    ensures { result ≡ spec.is_added apexes.now apex.now }
{
    apexes.contains(apex)
}

/// Whether each rule is of a zone that was added.
fn are_of_zones(grants: &[Grant], apexes: &[Name]) -> bool
    ensures { IsTrue result ↔ AreOfZones grants.now apexes.now }
{
    grants.iter().all(|grant| is_added(apexes, &grant.apex))
}

/// The number of the first rule that is of no zone that was added, from 1; 0 if there is none.
fn number_of_none(grants: &[Grant], apexes: &[Name]) -> usize
    ensures { result ≡ spec.number_of_none grants.now apexes.now }
{
    for place in 0..grants.len() {
        if !is_added(apexes, &grants[place].apex) {
            return place.saturating_add(1);
        }
    }
    0
}

/// Sees that each rule is of a zone that was added.
pub fn see_zones(grants: &[Grant], apexes: &[Name]) -> Result<(), SettingFault>
    ensures ok { OnOk result (AreOfZones grants.now apexes.now) }
    ensures err { IfErr result (λ fault. fault ≡ RuleWithoutZone (spec.number_of_none grants.now apexes.now)) }
{
    if are_of_zones(grants, apexes) {
        return Ok(());
    }
    Err(SettingFault::RuleWithoutZone {
        number: number_of_none(grants, apexes),
    })
}
