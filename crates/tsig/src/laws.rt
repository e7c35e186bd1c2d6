//! Laws of signed messages, each the contract of a function with nothing to do.

ghost use Rattle.std.specs.Prelude.{◌≡◌, ◌≤◌, ◌<◌, ◌+◌, ◌^◌, ℕ, List, [], IsTrue, Some, false, length};
ghost use Rattle.wire_names.specs.serialize.layout.Bytes.{AreBytes};
ghost use Rattle.wire_messages.specs.declared.rr.record.Record.{Record as AnyRecord};
ghost use Rattle.wire_messages.specs.declared.rr.tsig.TSIG.{TSIG as Data};
ghost use Rattle.tsig.specs.Hmac.{mac_len};
ghost use Rattle.tsig.specs.Judging.{HasKey, Judged};
ghost use Rattle.tsig.specs.Keys.{key_of};
ghost use Rattle.tsig.specs.Signing.{HasRoom, Reply, next_of, reply_of, room_of};
ghost use Rattle.tsig.specs.Verifying.{IsKey, IsWholeMessage, Verifies, VerifiesNext, is_mac_right, request_record, signed_request};
ghost use Rattle.tsig.specs.declared.judgement.Judgement.{Judgement as AnyJudgement};
ghost use Rattle.tsig.specs.declared.judgement.Judgement.TheVariants.{Signed};
ghost use Rattle.tsig.specs.declared.judgement.Verdict.{Verdict as AnyVerdict};
ghost use Rattle.tsig.specs.declared.judgement.Verdict.TheVariants.{Good};
ghost use Rattle.tsig.specs.declared.keys.Key.{Key as AnyKey};

/// A reply to a request whose key and MAC are right is signed, by the request's key, and verifies by that key for the
/// MAC of the request (RFC 8945 section 5.3); so does each further message of a transfer, behind the MAC before it
/// (section 5.3.1). A reply for a wrong key or MAC has no MAC.
///
/// The premise: what is signed is a whole message, none of whose names leads into its header.
pub fn replies_verify()
    ensures first { (keys : List AnyKey) (request message : List ℕ) (now later : ℕ) (s : AnyRecord Data)
        (verdict : AnyVerdict) → AreBytes message → IsWholeMessage message →
        Judged keys request now (Signed s verdict) → IsTrue (is_mac_right verdict) →
        (key : AnyKey) × HasKey keys s key × (reply : Reply) ×
        (reply_of keys (Signed s verdict) message later ≡ Some reply) × Verifies key s.rdata.mac reply.bytes }
    ensures next { (keys : List AnyKey) (request message prior : List ℕ) (now later : ℕ) (s : AnyRecord Data) →
        AreBytes message → IsWholeMessage message → Judged keys request now (Signed s Good) →
        (key : AnyKey) × HasKey keys s key × (reply : Reply) ×
        (next_of keys (Signed s Good) prior message later ≡ Some reply) × VerifiesNext key prior reply.bytes }
    ensures wrong { (keys : List AnyKey) (s : AnyRecord Data) (verdict : AnyVerdict) (message : List ℕ) (now : ℕ)
        (reply : Reply) → is_mac_right verdict ≡ false →
        reply_of keys (Signed s verdict) message now ≡ Some reply → reply.mac ≡ [] }
{}

/// A request that a client signs by a key (RFC 8945 section 5.1) is judged good by those who have the key, while the
/// fudge around its time lasts, unless local policy demands more bytes than its MAC has.
pub fn signed_requests_are_good()
    ensures { (keys : List AnyKey) (key : AnyKey) (message : List ℕ) (time fudge now : ℕ) → AreBytes message →
        IsWholeMessage message → IsKey key → key_of keys key.name ≡ Some key →
        time < 2 ^ 48 → fudge < 2 ^ 16 → time ≤ now + fudge → now ≤ time + fudge →
        key.shortest ≤ mac_len key.algorithm →
        Judged keys (signed_request key time fudge message) now (Signed (request_record key time fudge message) Good) }
{}

/// A reply is longer than the message that is signed by the room that `room` tells, and so is each further message of a
/// transfer.
pub fn replies_take_their_room()
    ensures first { (keys : List AnyKey) (judgement : AnyJudgement) (message : List ℕ) (now : ℕ) (reply : Reply) →
        HasRoom message → reply_of keys judgement message now ≡ Some reply →
        length reply.bytes ≡ length message + room_of keys judgement }
    ensures next { (keys : List AnyKey) (s : AnyRecord Data) (prior message : List ℕ) (now : ℕ) (reply : Reply) →
        HasRoom message → next_of keys (Signed s Good) prior message now ≡ Some reply →
        length reply.bytes ≡ length message + room_of keys (Signed s Good) }
{}
