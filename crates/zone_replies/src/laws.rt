//! What follows from the definitions alone: each law is what a function ensures that does nothing.

ghost use Rattle.std.specs.Prelude.{◌≡◌, ◌∷◌, []};
ghost use Rattle.wire_messages.specs.Numbers.{type_a, type_aaaa, type_any, type_cname, type_dname, type_ds, type_mx, type_ns, type_soa};
ghost use Rattle.zone_answers.specs.Chains.{OneChain};
ghost use Rattle.zone_replies.specs.Replies.{OneReply};
ghost use Rattle.zone_answers.specs.Zones.{OneAnswer};

use hickory_wire::RecordType;

/// A zone gives a name and a type at most one answer.
pub fn answers_once()
    ensures { OneAnswer }
{}

/// A chain of aliases has one answer section and one ending.
pub fn chains_once()
    ensures { OneChain }
{}

/// A zone has at most one reply to a question.
pub fn replies_once()
    ensures { OneReply }
{}

/// The types that the definitions name.
pub fn named_types() -> [RecordType; 9]
    ensures { result ≡ type_a ∷ type_ns ∷ type_cname ∷ type_soa ∷ type_mx ∷ type_aaaa ∷ type_dname ∷ type_ds ∷ type_any
        ∷ [] }
{
    [
        RecordType::A,
        RecordType::NS,
        RecordType::CNAME,
        RecordType::SOA,
        RecordType::MX,
        RecordType::AAAA,
        RecordType::new(39),
        RecordType::DS,
        RecordType::ANY,
    ]
}
