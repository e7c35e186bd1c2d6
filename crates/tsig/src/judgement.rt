//! What is made of the signature of a message.

use wire_messages::rr::record::Record;
use wire_messages::rr::tsig::TSIG;
use wire_names::values::boxed::Boxed;

/// How a signature was judged, by a TSIG record that stands where it should and has its form (RFC 8945 section 5.2).
#[derive(Clone, Copy, Debug, PartialEq, Eq)]
pub enum Verdict {
    /// The key, the MAC and the time are right.
    Good,
    /// BADKEY, 17: there is no key of its name, or that key has another algorithm (section 5.2.1).
    BadKey,
    /// BADSIG, 16: the MAC is not the one of the message (section 5.2.2).
    BadSig,
    /// BADTIME, 18: the time is too far from the server's (section 5.2.3).
    BadTime,
    /// BADTRUNC, 22: the MAC is right, but shorter than local policy demands (section 5.2.4).
    BadTrunc,
}

/// The judgement of a message.
#[derive(Debug, Drop)]
pub enum Judgement {
    /// It has no TSIG record.
    Unsigned,
    /// A format error: a TSIG record that is not the last one, or a second one; one with another class than ANY or
    /// another TTL than 0; a MAC that is longer or shorter than RFC 8945 section 5.2.2.1 allows; or a record that
    /// cannot be read.
    FormErr,
    /// It has one TSIG record, which is the last one.
    Signed {
        /// The record: the key's name, algorithm, time, fudge, MAC and original id as the message tells them.
        signature: Boxed<Record<TSIG>>,
        /// How it was judged.
        verdict: Verdict,
    },
}
