//! Laws of answers of signed zones, each the contract of a function with nothing to do.

ghost use Rattle.signed_answers.specs.ShownSets.{ShownSetsProve};
ghost use Rattle.signed_answers.specs.ZoneAnswers.{NameErrorsAreProved, NoDataIsProved, ReferralsAreProved, WildAliasesAreProved, WildAnswersAreProved};

/// What a signed zone answers is proved by the records that stand last before a name and before its wildcard.
pub fn answers_of_signed_zones()
    ensures missing { NameErrorsAreProved }
    ensures wild { WildAnswersAreProved }
    ensures aliases { WildAliasesAreProved }
    ensures no_data { NoDataIsProved }
    ensures referrals { ReferralsAreProved }
{}

/// The NSEC RRsets that `denials` gives prove what an answer of a signed zone claims.
pub fn shown_sets_prove()
    ensures { ShownSetsProve }
{}
