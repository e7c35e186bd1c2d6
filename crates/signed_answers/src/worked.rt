//! Worked examples: what replies of RFC 4035 appendix B show of the zone of its appendix A.
//!
//! The functions do nothing. Their contracts are the examples.

ghost use Rattle.std.specs.Prelude.{◌≡◌, ◌∷◌, [], None, Some};
ghost use Rattle.zone_answers.specs.Zones.{no_data, no_name, referral, wild_answer};
ghost use Rattle.signed_answers.specs.NsecSets.{chain_in, said};
ghost use Rattle.signed_answers.specs.ShownSets.{Shows};
ghost use Rattle.signed_answers.specs.Signatures.{signatures_of};
ghost use Rattle.wire_messages.specs.Numbers.{type_a, type_dnskey, type_mx, type_ns, type_nsec, type_rrsig, type_soa};
ghost use Rattle.signed_answers.specs.WorkedZone.{at_a, at_ai, at_apex, at_b, at_ns1, at_ns2, at_wild, at_xw, at_xx, at_xyw, azw, mail, mc_a, mc_b, ml, of_a, of_b, of_ns1, of_wild, of_xx, apex, records, server, signature, signed, yw, zone};

/// What is shown with the replies of appendices B.2 to B.7, and for an empty non-terminal.
pub fn worked_denials()
    ensures name_error { Shows zone ml no_name (Some at_b) (Some at_apex) }
    ensures no_data { Shows zone of_ns1 no_data (Some at_ns1) None }
    ensures signed_zone { Shows zone mc_a (referral (records of_a server)) None None }
    ensures unsigned_zone { Shows zone mc_b (referral (records of_b server)) (Some at_b) None }
    ensures expansion { Shows zone azw (wild_answer (records of_wild mail)) (Some at_xyw) None }
    ensures wild_no_data { Shows zone azw no_data (Some at_xyw) (Some at_wild) }
    ensures empty { Shows zone yw no_data (Some at_xw) None }
{}

/// The NSEC records of the zone, and what two of them say.
pub fn worked_chain()
    ensures records { chain_in zone.sets ≡ said at_apex ∷ said at_a ∷ said at_ai ∷ said at_b ∷ said at_ns1 ∷
        said at_ns2 ∷ said at_wild ∷ said at_xw ∷ said at_xyw ∷ said at_xx ∷ [] }
    ensures first { said at_apex ≡ record {
      owner = apex;
      next = of_a;
      types = type_ns ∷ type_soa ∷ type_mx ∷ type_rrsig ∷ type_nsec ∷ type_dnskey ∷ [];
    } }
    ensures last { said at_xx ≡ record { owner = of_xx; next = apex; types = type_a ∷ type_rrsig ∷ type_nsec ∷ [] } }
{}

/// Which signatures go with an RRset: those that cover its type.
pub fn worked_signatures()
    ensures nsec { signatures_of signed of_b type_nsec ≡ signature type_nsec of_b ∷ [] }
    ensures servers { signatures_of signed of_b type_ns ≡ [] }
    ensures wildcard { signatures_of signed of_wild type_mx ≡ signature type_mx of_wild ∷ [] }
{}
