//! Worked examples of the definitions, each the contract of a function with nothing to do.

ghost use Rattle.std.specs.Prelude.{◌≡◌, ◌∷◌, [], false, true};
ghost use Rattle.wire_messages.specs.declared.op.header.MessageType.TheVariants.{Query as asks, Response as responds};
ghost use Rattle.notices.specs.Messages.{has_soa, is_answered, notice_octets};
ghost use Rattle.notices.specs.Schedule.{announced, first_notice, is_due, is_over, sent_at};
ghost use Rattle.notices.specs.Worked.{capitals, here, long_soa, message, other_port, other_zone, sent, soa, there, told, zone};

/// The octets of a notice with the id 0x1234: header, question, and the SOA record.
pub fn worked_octets()
    ensures { notice_octets 4660 zone 3600 soa ≡
        0x12 ∷ 0x34 ∷ 0x24 ∷ 0 ∷ 0 ∷ 1 ∷ 0 ∷ 1 ∷ 0 ∷ 0 ∷ 0 ∷ 0 ∷
        2 ∷ 101 ∷ 120 ∷ 0 ∷ 0 ∷ 6 ∷ 0 ∷ 1 ∷
        2 ∷ 101 ∷ 120 ∷ 0 ∷ 0 ∷ 6 ∷ 0 ∷ 1 ∷ 0 ∷ 0 ∷ 0x0e ∷ 0x10 ∷ 0 ∷ 33 ∷
        2 ∷ 110 ∷ 115 ∷ 2 ∷ 101 ∷ 120 ∷ 0 ∷ 1 ∷ 104 ∷ 2 ∷ 101 ∷ 120 ∷ 0 ∷
        0 ∷ 0 ∷ 0 ∷ 7 ∷ 0 ∷ 0 ∷ 0x0e ∷ 0x10 ∷ 0 ∷ 0 ∷ 2 ∷ 88 ∷ 0 ∷ 1 ∷ 0x51 ∷ 0x80 ∷ 0 ∷ 0 ∷ 0 ∷ 60 ∷ [] }
{}

/// A notice of 512 octets has the SOA record. If it had 513 it is the header and the question.
pub fn worked_limit()
    ensures at { has_soa 4660 zone 3600 (long_soa 9) ≡ true }
    ensures above { notice_octets 4660 zone 3600 (long_soa 10) ≡
        0x12 ∷ 0x34 ∷ 0x24 ∷ 0 ∷ 0 ∷ 1 ∷ 0 ∷ 0 ∷ 0 ∷ 0 ∷ 0 ∷ 0 ∷ 2 ∷ 101 ∷ 120 ∷ 0 ∷ 0 ∷ 6 ∷ 0 ∷ 1 ∷ [] }
{}

/// A response with the id and the question, in other letters, answers the notice.
pub fn worked_answer()
    ensures plain { is_answered here (message 4660 responds zone) sent ≡ true }
    ensures capitals { is_answered here (message 4660 responds capitals) sent ≡ true }
{}

/// A message from another address or port, of another id or zone, or one that asks, does not answer it. Nothing answers
/// a notice that was not sent.
pub fn worked_strangers()
    ensures address { is_answered there (message 4660 responds zone) sent ≡ false }
    ensures port { is_answered other_port (message 4660 responds zone) sent ≡ false }
    ensures id { is_answered here (message 4661 responds zone) sent ≡ false }
    ensures asks { is_answered here (message 4660 asks zone) sent ≡ false }
    ensures zone { is_answered here (message 4660 responds other_zone) sent ≡ false }
    ensures unsent { is_answered here (message 0 responds zone) told ≡ false }
{}

/// A notice of the moment 1000 that was sent then is due 2,000 milliseconds later, and after the next sending 4,000
/// milliseconds later.
pub fn worked_times()
    ensures at_once { is_due 1000 told ≡ true }
    ensures waits { is_due 2999 sent ≡ false }
    ensures again { is_due 3000 sent ≡ true }
    ensures longer { is_due 6999 (sent_at 3000 5 sent) ≡ false }
    ensures third { is_due 7000 (sent_at 3000 5 sent) ≡ true }
{}

/// After the sixth sending a notice is not due any more, and 64 seconds later it is given up.
pub fn worked_end()
    ensures not_due { is_due 200000
        (sent_at 63000 5 (sent_at 31000 4 (sent_at 15000 3 (sent_at 7000 2 (sent_at 3000 1 sent))))) ≡ false }
    ensures waits { is_over 126999
        (sent_at 63000 5 (sent_at 31000 4 (sent_at 15000 3 (sent_at 7000 2 (sent_at 3000 1 sent))))) ≡ false }
    ensures over { is_over 127000
        (sent_at 63000 5 (sent_at 31000 4 (sent_at 15000 3 (sent_at 7000 2 (sent_at 3000 1 sent))))) ≡ true }
{}

/// An announcement tells each target once, and replaces what waits of the zone and nothing else.
pub fn worked_announcement()
    ensures { announced (sent ∷ first_notice other_zone 60 soa 500 here ∷ []) zone 3600 soa
        (here ∷ there ∷ here ∷ []) 9000 ≡
        first_notice other_zone 60 soa 500 here ∷ first_notice zone 3600 soa 9000 here ∷
        first_notice zone 3600 soa 9000 there ∷ [] }
{}
