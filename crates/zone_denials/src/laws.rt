//! Laws of the definitions, each the contract of a function with nothing to do.

ghost use Rattle.zone_denials.specs.NsecKeys.{LastNsecIsLast};
ghost use Rattle.zone_denials.specs.NsecLaws.{DeniedNamesAreMissing, DeniedTypesAreMissing, EmptyNamesAreDenied, MissingNamesAreDenied, UnsignedZonesAreCuts, WildcardsAreShown, WildcardsAreTrue};
ghost use Rattle.zone_denials.specs.Nsec3Laws.{DeniedNamesAreMissing3, DeniedTypesAreMissing3, MissingNamesAreDenied3, UnsignedZonesAreCuts3, UnsignedZonesAreShown3, WildTypesAreDenied3, WildcardsAreShown3, WildcardsAreTrue3};
ghost use Rattle.zone_denials.specs.SignedZone3.{CutsAreProved3, CutsLeftOutAreProved3, NamesAreDenied3, TypesAreDenied3, WildTypesAreDenied3 as WildTypesAreDeniedBy3, WildcardsAreProved3};
ghost use Rattle.zone_denials.specs.SignedZoneLaws.{CutsAreProved, EmptyNamesAreProved, NamesAreDenied, OwnersAreLinked, TypesAreDenied, WildTypesAreDenied, WildcardsAreProved};
ghost use Rattle.zone_denials.specs.TypeBits.{WorkedTypes};
ghost use Rattle.zone_denials.specs.WorkedDenials.{EmptyNoData3, NameError, NameError3, NoData, NoData3, UnsignedZone, UnsignedZone3, WildcardExpansion, WildcardExpansion3, WildcardNoData, WildcardNoData3};
ghost use Rattle.zone_denials.specs.WorkedSignedZone.{HashedZoneIsChained, SmallZoneIsChained};

/// What a server puts into a reply of a chain of NSEC records is a proof.
pub fn nsec_denials()
    ensures missing { MissingNamesAreDenied }
    ensures wildcards { WildcardsAreShown }
    ensures empty { EmptyNamesAreDenied }
{}

/// What a resolver takes for proved by records of a chain is so.
pub fn nsec_truth()
    ensures names { DeniedNamesAreMissing }
    ensures wildcards { WildcardsAreTrue }
    ensures types { DeniedTypesAreMissing }
    ensures cuts { UnsignedZonesAreCuts }
{}

/// What a resolver takes for proved by NSEC3 records of a chain is so.
pub fn nsec3_truth()
    ensures names { DeniedNamesAreMissing3 }
    ensures wildcards { WildcardsAreTrue3 }
    ensures types { DeniedTypesAreMissing3 }
    ensures cuts { UnsignedZonesAreCuts3 }
{}

/// What a server puts into a reply of a chain of NSEC3 records is a proof.
pub fn nsec3_denials()
    ensures missing { MissingNamesAreDenied3 }
    ensures wildcards { WildcardsAreShown3 }
    ensures wild_types { WildTypesAreDenied3 }
    ensures unsigned { UnsignedZonesAreShown3 }
{}

/// What a server puts into a reply of a zone that is signed with NSEC records is a proof.
pub fn signed_zone_denials()
    ensures names { NamesAreDenied }
    ensures wildcards { WildcardsAreProved }
    ensures types { TypesAreDenied }
    ensures wild_types { WildTypesAreDenied }
    ensures empty { EmptyNamesAreProved }
    ensures cuts { CutsAreProved }
    ensures owners { OwnersAreLinked }
{}

/// The last NSEC key before a name has the record that is the last before it.
pub fn last_nsec_before()
    ensures { LastNsecIsLast }
{}

/// What a server puts into a reply of a zone that is signed with NSEC3 records is a proof.
pub fn signed_zone_denials3()
    ensures names { NamesAreDenied3 }
    ensures wildcards { WildcardsAreProved3 }
    ensures types { TypesAreDenied3 }
    ensures wild_types { WildTypesAreDeniedBy3 }
    ensures cuts { CutsAreProved3 }
    ensures left_out { CutsLeftOutAreProved3 }
{}

/// The types of the record of RFC 4034 section 4.3.
pub fn worked_types()
    ensures { WorkedTypes }
{}

/// The small zones are chained: a zone can be.
pub fn worked_signed_zone()
    ensures nsec { SmallZoneIsChained }
    ensures nsec3 { HashedZoneIsChained }
{}

/// The records of the replies of RFC 4035 appendix B are proofs.
pub fn worked_denials()
    ensures name_error { NameError }
    ensures no_data { NoData }
    ensures unsigned { UnsignedZone }
    ensures expansion { WildcardExpansion }
    ensures wild_no_data { WildcardNoData }
{}

/// The records of the replies of RFC 5155 appendix B are proofs, if SHA-1 gives the hashes of its appendix A.
pub fn worked_denials3()
    ensures name_error { NameError3 }
    ensures no_data { NoData3 }
    ensures empty { EmptyNoData3 }
    ensures unsigned { UnsignedZone3 }
    ensures expansion { WildcardExpansion3 }
    ensures wild_no_data { WildcardNoData3 }
{}
