//! What the words of a line stand for.

use crate::answer::{Call, Flow, Outcome, Section};
use crate::fault::Fault;
use crate::sink::Sinking;
use hickory_base::errors::UpdateFault;
use hickory_base::zone_store::{AxfrPolicy, NxProofKind, ZoneType};
use hickory_store::blocklist::{BlocklistConfig, BlocklistConsultAction};
use hickory_wire::{CodeTextError, LowerName, Name, Octets, Proof, ResponseCode};
use record_text::read_name;
use std::alloc::Global;
use std::net::{Ipv4Addr, Ipv6Addr};

/// The bytes that the hex digits of some words spell.
pub fn octets(alloc: Global, words: &[&str]) -> Result<Vec<u8>, Fault> {
    let mut digits = String::new(alloc);
    for word in words {
        digits.push_str(word)?;
    }
    match hex::decode(alloc, digits.as_bytes()) {
        Ok(bytes) => Ok(bytes),
        Err(hex::FromHexError::OutOfMemory) => Err(Fault::Memory(std::alloc::AllocError)),
        Err(_) => Err(Fault::Line("not hex digits")),
    }
}

/// The name of a word in lower case.
pub fn lower_name(alloc: Global, word: &str) -> Result<LowerName, Fault> {
    let name = read_name(alloc, word)?;
    Ok(LowerName::new(alloc, &name)?)
}

/// The parts of a word `KEY=VALUE`; of another word the value is empty.
fn setting<'w>(word: &'w str) -> (&'w str, &'w str) {
    word.split_once('=').unwrap_or((word, ""))
}

/// What a zone or a scripted handler is begun as.
#[derive(Drop)]
pub struct Kind {
    /// What the server is to the zone.
    pub zone_type: ZoneType,
    /// Who may have a transfer.
    pub axfr_policy: AxfrPolicy,
    /// Whether it makes updates or refuses them, if it takes them.
    pub updates: Option<bool>,
    /// Whether its records come with what is known of their proofs.
    pub validates: bool,
    /// By which records it denies.
    pub proof_kind: Option<NxProofKind>,
    /// The key that its answers are to be signed with, if they are to be signed.
    pub key: Option<Name>,
}

impl Kind {
    /// What words say: without words a primary zone in memory without transfers.
    pub fn read(alloc: Global, words: &[&str]) -> Result<Kind, Fault> {
        let mut kind = Kind {
            zone_type: ZoneType::Primary,
            axfr_policy: AxfrPolicy::Deny,
            updates: None,
            validates: false,
            proof_kind: None,
            key: None,
        };
        for word in words {
            if let Err(fault) = kind.set(alloc, word) {
                drop(kind);
                return Err(fault);
            }
        }
        Ok(kind)
    }

    /// Sets what a word says. NSEC3 has the salt AB.
    fn set(&mut self, alloc: Global, word: &str) -> Result<(), Fault> {
        match setting(word) {
            ("primary", "") => self.zone_type = ZoneType::Primary,
            ("secondary", "") => self.zone_type = ZoneType::Secondary,
            ("external", "") => self.zone_type = ZoneType::External,
            ("allow-all", "") => self.axfr_policy = AxfrPolicy::AllowAll,
            ("allow-signed", "") => self.axfr_policy = AxfrPolicy::AllowSigned,
            ("updates", "made") => self.updates = Some(true),
            ("updates", "refused") => self.updates = Some(false),
            ("validates", "") => self.validates = true,
            ("nsec", "") => self.proof_kind = Some(NxProofKind::Nsec),
            ("nsec3", count) => {
                let iterations = count.parse::<u16>()?;
                self.proof_kind = Some(NxProofKind::Nsec3 {
                    algorithm: 1,
                    salt: Octets::from_slice(alloc, &[0xab])?,
                    iterations,
                    opt_out: false,
                });
            }
            ("signs", key) => self.key = Some(read_name(alloc, key)?),
            _ => return Err(Fault::Line("not a kind of handler")),
        }
        Ok(())
    }
}

/// Sets what a word says of a list of blocked names.
pub fn set_list(alloc: Global, config: &mut BlocklistConfig, word: &str) -> Result<(), Fault> {
    match setting(word) {
        ("wildcards", "no") => config.wildcard_match = false,
        ("depth", depth) => config.min_wildcard_depth = depth.parse::<u8>()?,
        ("ipv4", address) => config.sinkhole_ipv4 = Some(address.parse::<Ipv4Addr>()?),
        ("ipv6", address) => config.sinkhole_ipv6 = Some(address.parse::<Ipv6Addr>()?),
        ("ttl", seconds) => config.ttl = seconds.parse::<u32>()?,
        ("message", text) => config.block_message = Some(String::from_str(alloc, text)?),
        ("consult", "enforce") => config.consult_action = BlocklistConsultAction::Enforce,
        ("consult", "log") => config.consult_action = BlocklistConsultAction::Log,
        _ => return Err(Fault::Line("not a setting of a list")),
    }
    Ok(())
}

/// The call of a word.
pub fn call(word: &str) -> Result<Call, Fault> {
    match word {
        "search" => Ok(Call::Search),
        "consult" => Ok(Call::Consult),
        "lookup" => Ok(Call::Lookup),
        "denial" => Ok(Call::Denial),
        "transfer" => Ok(Call::Transfer),
        _ => Err(Fault::Line("not a call")),
    }
}

/// The flow of a word.
pub fn flow(word: &str) -> Result<Flow, Fault> {
    match word {
        "skip" => Ok(Flow::Skip),
        "continue" => Ok(Flow::Continue),
        "break" => Ok(Flow::Break),
        "add" => Ok(Flow::Add),
        _ => Err(Fault::Line("not a flow")),
    }
}

/// What an answer is, by the words after its flow. The last form is a response code.
pub fn outcome(words: &[&str]) -> Result<Outcome, CodeTextError> {
    Ok(match words {
        [] => Outcome::Found,
        ["resolved"] => Outcome::Resolved(Proof::Indeterminate),
        ["resolved", "secure"] => Outcome::Resolved(Proof::Secure),
        ["resolved", "insecure"] => Outcome::Resolved(Proof::Insecure),
        ["resolved", "bogus"] => Outcome::Resolved(Proof::Bogus),
        ["whole", code] => Outcome::Whole(code.parse::<ResponseCode>()?, false),
        ["whole", code, "aa"] => Outcome::Whole(code.parse::<ResponseCode>()?, true),
        ["empty"] => Outcome::Empty,
        ["no-records", code] => Outcome::NoRecords(code.parse::<ResponseCode>()?),
        ["bogus"] => Outcome::Bogus,
        ["failed"] => Outcome::Failed,
        ["unreadable"] => Outcome::Unreadable,
        ["memory"] => Outcome::Memory,
        [code, ..] => Outcome::Code(code.parse::<ResponseCode>()?),
    })
}

/// What an update answers, by a word.
pub fn updated(word: &str) -> Option<Result<bool, UpdateFault>> {
    match word {
        "changed" => Some(Ok(true)),
        "unchanged" => Some(Ok(false)),
        "memory" => Some(Err(UpdateFault::Memory)),
        code => match code.parse::<ResponseCode>() {
            Ok(code) => Some(Err(UpdateFault::Code(code))),
            Err(_) => None,
        },
    }
}

/// The section of a word.
pub fn section(word: &str) -> Option<Section> {
    match word {
        "answers" => Some(Section::Answers),
        "authorities" => Some(Section::Authorities),
        "soa" => Some(Section::Soa),
        "additionals" => Some(Section::Additionals),
        _ => None,
    }
}

/// When a sink fails, by words.
pub fn sinking(words: &[&str]) -> Result<Sinking, Fault> {
    let (keeps, count) = match words {
        ["works"] => (true, "0"),
        ["keeps", count] => (true, *count),
        ["fails", count] => (false, *count),
        _ => return Err(Fault::Line("write it as: sink works|keeps N|fails N")),
    };
    Ok(Sinking {
        fails_at: count.parse::<usize>()?,
        keeps,
    })
}
