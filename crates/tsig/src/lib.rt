//! Transaction signatures (TSIG, RFC 8945) by HMAC over SHA-2: keys, how a message is judged by them, and how replies
//! are signed.
#![tactic(auto)]

mod algorithm;
mod digest;
mod judgement;
mod judging;
mod key_file;
mod key_text;
mod keys;
mod laws;
mod macs;
mod pads;
mod reading;
mod signer;
mod signing;
mod stripping;
mod verified;
mod verifier;
mod writing;

pub use algorithm::{Algorithm, HashFunction};
pub use judgement::{Judgement, Verdict};
pub use judging::{judge, one_judgement};
pub use key_file::read_keys;
pub use key_text::{KeyFault, KeyTextError, read_key};
pub use keys::{Key, Keys, Secret};
pub use laws::{replies_take_their_room, replies_verify, signed_requests_are_good};
pub use macs::{hmac, is_same_mac, mac};
pub use signer::TsigSigner;
pub use signing::{SigningError, room, sign, sign_next};
pub use stripping::stripped;
pub use verifier::TsigVerifier;
pub use writing::has_room;
