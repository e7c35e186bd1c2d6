//! What a script said so far, and the commands that say it.

use crate::answer::{Answer, Section};
use crate::calls::CallLog;
use crate::fault::Fault;
use crate::handler::{Handler, Part, Source};
use crate::keys::KeySigner;
use crate::output::Output;
use crate::sink::{Pieces, Sinking};
use crate::words::{Kind, call, flow, lower_name, octets, outcome, set_list, updated};
use crate::zone::OpenZone;
use hickory_base::errors::UpdateFault;
use hickory_base::server::Request;
use hickory_base::zone_store::{AxfrPolicy, ZoneHandler, ZoneType};
use hickory_catalog::catalog::Catalog;
use hickory_store::blocklist::{AddError, BlocklistConfig, BlocklistZoneHandler, CountedReader};
use hickory_wire::{Items, LowerName, NSIDPayload, Octets, Protocol, Record, ResponseCode};
use record_text::{read_name, read_record};
use std::alloc::{AllocError, Global};
use std::collections::BTreeMap;
use std::mem;

/// What a script said so far.
#[derive(Drop)]
pub struct Script {
    /// The allocator of all of it.
    pub alloc: Global,
    /// The transport of the messages that follow.
    pub protocol: Protocol,
    /// When they come, in seconds since 1970.
    pub now: u64,
    /// When their sink fails.
    pub sinking: Sinking,
    /// The server of the chains.
    pub catalog: Catalog<KeySigner, Handler>,
    /// The handlers since a chain was last served, without the open zone.
    pub chain: Vec<Handler>,
    /// The zone whose records are given. It comes after the handlers of `chain`.
    zone: Option<OpenZone>,
    /// Where records of an answer go.
    pub section: Section,
    /// The calls that scripted handlers got.
    pub log: CallLog,
    /// The message that was read last.
    pub request: Option<Request>,
}

/// What is printed where no scripted handler is begun.
const NO_PART: &str = "no scripted handler is begun";

/// The bytes of words, one piece for each: of `=TEXT` those of the text, of `-` none, and else those of hex digits.
fn pieces(alloc: Global, words: &[&str]) -> Result<Items<Octets>, Fault> {
    let mut pieces = Items::new(alloc);
    for word in words {
        let piece = match word.strip_prefix('=') {
            Some(text) => Octets::from_slice(alloc, text.as_bytes())?,
            None if *word == "-" => Octets::from_slice(alloc, b"")?,
            None => Octets::from_vec(octets(alloc, &[word])?),
        };
        pieces.push(piece)?;
    }
    Ok(pieces)
}

impl Script {
    /// Nothing said.
    pub fn new(alloc: Global) -> Result<Script, Fault> {
        let log = CallLog::new(alloc)?;
        let signer = KeySigner {
            failing: read_name(alloc, "unsigned.example.")?,
            lacking: read_name(alloc, "unsigned-lacking.example.")?,
            echoing: read_name(alloc, "echo.example.")?,
            log: log.share()?,
        };
        Ok(Script {
            alloc,
            protocol: Protocol::Udp,
            now: 0,
            sinking: Sinking {
                fails_at: 0,
                keeps: true,
            },
            catalog: Catalog::new(alloc, signer),
            chain: Vec::new(alloc),
            zone: None,
            section: Section::Answers,
            log,
            request: None,
        })
    }

    /// Sets what identifies the server (RFC 5001).
    pub fn identify(&mut self, words: &[&str]) -> Result<(), Fault> {
        let payload = match words {
            ["none"] => None,
            digits => Some(NSIDPayload::new(octets(self.alloc, digits)?)?),
        };
        self.catalog.set_nsid(payload);
        Ok(())
    }

    /// Ends the zone whose records are given: it becomes the last handler of the chain.
    pub fn close(&mut self) -> Result<(), Fault> {
        let Some(zone) = mem::replace(&mut self.zone, None) else {
            return Ok(());
        };
        let handler = zone.handler(self.alloc, &self.log);
        drop(zone);
        self.chain.push(handler?)?;
        Ok(())
    }

    /// Begins a zone, whose records follow.
    pub fn begin_zone(&mut self, origin: &str, words: &[&str]) -> Result<(), Fault> {
        self.close()?;
        let origin = read_name(self.alloc, origin)?;
        let kind = Kind::read(self.alloc, words)?;
        self.zone = Some(OpenZone {
            origin,
            zone_type: kind.zone_type,
            axfr_policy: kind.axfr_policy,
            updates: kind.updates,
            sets: BTreeMap::new(self.alloc),
        });
        drop(kind);
        Ok(())
    }

    /// Begins a scripted handler.
    pub fn begin_part(&mut self, origin: &str, words: &[&str]) -> Result<(), Fault> {
        self.close()?;
        let log = self.log.share()?;
        let origin = lower_name(self.alloc, origin)?;
        let kind = Kind::read(self.alloc, words)?;
        let part = Part {
            place: self.chain.len(),
            key: kind.key,
            answers: Vec::new(self.alloc),
            update: Err(UpdateFault::Code(ResponseCode::NOT_IMP)),
            log,
        };
        let handler = Handler {
            zone_type: kind.zone_type,
            axfr_policy: AxfrPolicy::Deny,
            origin,
            validates: kind.validates,
            proof_kind: kind.proof_kind,
            source: Source::Part(part),
        };
        self.chain.push(handler)?;
        Ok(())
    }

    /// Begins a list of blocked names.
    pub fn begin_list(&mut self, origin: &str, words: &[&str]) -> Result<(), Fault> {
        self.close()?;
        let mut config = BlocklistConfig::default();
        for word in words {
            set_list(self.alloc, &mut config, word)?;
        }
        let list = BlocklistZoneHandler::new(self.alloc, read_name(self.alloc, origin)?, config)?;
        self.chain.push(Handler {
            zone_type: list.zone_type(),
            axfr_policy: list.axfr_policy(),
            origin: lower_name(self.alloc, origin)?,
            validates: list.can_validate_dnssec(),
            proof_kind: None,
            source: Source::List(list),
        })?;
        Ok(())
    }

    /// Adds pieces of bytes to the list begun last, as a reader gives them, and prints what came of it.
    pub fn add_pieces(&mut self, words: &[&str], out: &mut Output) -> Result<(), Fault> {
        let (words, fails) = match words {
            [words @ .., "fails"] => (words, true),
            words => (words, false),
        };
        let pieces = pieces(self.alloc, words)?;
        let Some(
            Handler {
                source: Source::List(list),
                ..
            },
        ) = self.chain.last_mut()
        else {
            return Err(Fault::Line("no list is begun"));
        };
        let reader = Pieces {
            pieces: pieces.as_slice(),
            next: 0,
            fails,
        };
        match list.add(&mut CountedReader::new(reader)) {
            Ok(()) => out.put("added"),
            Err(AddError::Memory) => return Err(Fault::Memory(AllocError)),
            Err(e) => out.put_value(&e),
        }
        out.put(", entries ");
        out.put_value(&list.entry_count());
        out.put("\n");
        Ok(())
    }

    /// The scripted handler begun last, if one is.
    fn last_part(&mut self) -> Option<&mut Part> {
        match self.chain.last_mut() {
            Some(
                Handler {
                    source: Source::Part(part),
                    ..
                },
            ) => Some(part),
            _ => None,
        }
    }

    /// Sets what an update of the scripted handler begun last answers.
    pub fn set_update(&mut self, word: &str) -> Result<(), Fault> {
        let Some(answer) = updated(word) else {
            return Err(Fault::Line("not what an update answers"));
        };
        let Some(part) = self.last_part() else {
            return Err(Fault::Line(NO_PART));
        };
        part.update = answer;
        Ok(())
    }

    /// Begins what a call of the scripted handler begun last answers.
    pub fn begin_answer(&mut self, words: &[&str]) -> Result<(), Fault> {
        let [call_word, flow_word, words @ ..] = words else {
            return Err(Fault::Line("write it as: on CALL FLOW [WHAT], or on update WHAT"));
        };
        let call = call(call_word)?;
        let flow = flow(flow_word)?;
        let outcome = outcome(words)?;
        let answer = Answer {
            call,
            flow,
            outcome,
            answers: Vec::new(self.alloc),
            authorities: Vec::new(self.alloc),
            soa: Vec::new(self.alloc),
            additionals: Vec::new(self.alloc),
        };
        self.section = Section::Answers;
        match self.last_part() {
            Some(part) => {
                part.answers.push(answer)?;
                Ok(())
            }
            None => {
                drop(answer);
                Err(Fault::Line(NO_PART))
            }
        }
    }

    /// Adds the record of a line to the zone or to the answer begun last.
    pub fn put_line(&mut self, line: &str) -> Result<(), Fault> {
        let (alloc, section) = (self.alloc, self.section);
        let record = read_record(alloc, line)?;
        if let Some(zone) = &mut self.zone {
            return zone.put(alloc, record);
        }
        match self.last_part() {
            Some(part) => part.put(section, record),
            None => {
                drop(record);
                Err(Fault::Line(NO_PART))
            }
        }
    }

    /// Serves the handlers begun since the last such command as the chain of a name.
    pub fn serve(&mut self, apex: &str) -> Result<(), Fault> {
        self.close()?;
        let apex = lower_name(self.alloc, apex)?;
        let chain = mem::replace(&mut self.chain, Vec::new(self.alloc));
        let served = self.catalog.upsert(apex, chain);
        let is_served = served.is_ok();
        drop(served);
        if is_served {
            Ok(())
        } else {
            Err(Fault::Memory(AllocError))
        }
    }

    /// Takes the chain of a name away.
    pub fn remove(&mut self, apex: &str) -> Result<(), Fault> {
        let apex = lower_name(self.alloc, apex)?;
        let removed = self.catalog.remove(&apex);
        drop(removed);
        Ok(())
    }
}
