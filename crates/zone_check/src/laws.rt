//! Laws of what is found, as the contract of a function with nothing to do.

ghost use Rattle.std.specs.Prelude.{List, length};
ghost use Rattle.std.specs.List.{Contains};
ghost use Rattle.zone_check.specs.ChainedZones.{FaultlessZonesAreChained, FaultlessZonesAreHashed};
ghost use Rattle.zone_check.specs.CheckedZones.{CheckedZone};
ghost use Rattle.zone_check.specs.Findings.{AreFindings, Holds, all_findings};
ghost use Rattle.zone_check.specs.declared.finding.Finding.{Finding as FindingOf};

/// What is found of a zone holds, and what could be found of it and holds is found.
pub fn findings_hold()
    ensures sound { (zone : CheckedZone) (findings : List FindingOf) (finding : FindingOf) → AreFindings zone findings →
        Contains findings finding → Holds zone finding }
    ensures complete { (zone : CheckedZone) (findings : List FindingOf) (finding : FindingOf) →
        AreFindings zone findings → Contains (all_findings (length zone.records)) finding → Holds zone finding →
        Contains findings finding }
{}

/// A signed zone without NSEC3 parameters has a complete chain of NSEC records, if nothing of seven kinds is found of
/// its records.
pub fn faultless_zones_are_chained()
    ensures { FaultlessZonesAreChained }
{}

/// A signed zone with NSEC3 parameters has a complete chain of NSEC3 records, if nothing of ten kinds is found of its
/// records.
pub fn faultless_zones_are_hashed()
    ensures { FaultlessZonesAreHashed }
{}
