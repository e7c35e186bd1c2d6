//! Laws of the definitions, each the contract of a function with nothing to do.

ghost use Rattle.std.specs.Prelude.{◌≡◌, ◌↔◌, ◌≤◌, ℕ, List, IsTrue, Some, length};
ghost use Rattle.wire_names.specs.rr.domain.DomainName.{AreLabels, DomainName};
ghost use Rattle.wire_messages.specs.declared.rr.rdata.SOA.{SOA as AnySOA};
ghost use Rattle.wire_reading.specs.declared.op.message.Message.{Message};
ghost use Rattle.wire_reading.specs.serialize.layout.WholeMessage.{MessageAt};
ghost use Rattle.notices.specs.Messages.{HasForm, IsAnswer, is_answered, notice_message, notice_octets, same_target};
ghost use Rattle.notices.specs.Schedule.{Sendings, TakesOut, first_notice, most_sent};
ghost use Rattle.notices.specs.declared.notice.Notice.{Notice as AnyNotice};
ghost use Rattle.notices.specs.declared.notice.Target.{Target as AnyTarget};

use wire_names::rr::domain::name_sameness::name_comparisons;

/// The octets of a notice are read as its header, the zone as the one question, and as the answer section the SOA record,
/// or nothing if the message with it is longer than 512 octets (RFC 1996 section 3.7). No notice is longer.
pub fn notices_are_read()
    ensures read { (id ttl : ℕ) (zone : DomainName) (soa : AnySOA) → HasForm id zone ttl soa →
        MessageAt (notice_octets id zone ttl soa) (notice_message id zone ttl soa) }
    ensures short { (id ttl : ℕ) (zone : DomainName) (soa : AnySOA) → AreLabels zone.labels →
        length (notice_octets id zone ttl soa) ≤ 512 }
{}

/// Targets are the same if they have one address and one port. The test of an answer holds exactly if the message answers
/// the notice (RFC 1996 section 3.6). A datagram ends a notice only if it comes from its target with its id and its
/// question, which an error may lack.
pub fn targets_answer()
    ensures same { (a b : AnyTarget) → IsTrue (same_target a b) ↔ (a ≡ b) }
    ensures answered { (from : AnyTarget) (m : Message) (n : AnyNotice) → IsTrue (is_answered from m n) ↔
        IsAnswer from m n }
    ensures ends { (from : AnyTarget) (m : Message) (old new : List AnyNotice) (n : AnyNotice) →
        TakesOut (is_answered from m) old new (Some n) → IsAnswer from m n }
{
    name_comparisons();
}

/// A notice is sent at most six times, however often and late the clock is looked at (RFC 1996 section 3.6).
pub fn sendings_are_few()
    ensures { (zone : DomainName) (ttl : ℕ) (soa : AnySOA) (now : ℕ) (target : AnyTarget) (count : ℕ) (m : AnyNotice) →
        Sendings (first_notice zone ttl soa now target) count m → count ≤ most_sent }
{}
