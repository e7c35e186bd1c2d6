//! EDNS, the extension mechanisms for DNS (RFC 6891).

ghost use Rattle.std.specs.Prelude.{◌≡◌, ◌+◌, ◌*◌, ◌/◌, ◌%◌, ◌^◌, ◌++◌, ◌∷◌, ◌==◌, ◌≤◌, ◌<◌, [], false, length, max, find, OnOk, OnErr, IfOk, IfErr};
ghost use Rattle.std.specs.Cmp.{partial_equiv_from_equiv};
ghost use Rattle.std.specs.Option.{option_copied};
ghost use Rattle.wire_messages.specs.op.EdnsSameness.{edns_eq, edns_eq_equiv};
ghost use Rattle.wire_messages.specs.serialize.layout.HeaderLayout.{flag};
ghost use Rattle.wire_messages.specs.serialize.writing.ReplyRanges.{IsEdnsInRange};

use crate::rr::dns_class::DNSClass;
use std::alloc::{AllocError, Global};
use std::marker::Model;
use wire_names::error::ProtoError;
use wire_names::values::items::Items;
use wire_names::values::octets::Octets;

/// An option of an OPT record (RFC 6891 section 6.1.2).
#[derive(Debug, Drop, PartialEq, Eq)]
pub struct EdnsOption {
    /// The option's number.
    pub code: u16,
    /// Its data; their length has 16 bits on the wire.
    pub bytes: Octets,
}

impl EdnsOption {
    /// The number of the name server identifier (RFC 5001 section 2.3).
    pub const NSID: u16 = 3;
}

impl Clone for EdnsOption {
    ghost is_clone = { λ source copy. copy ≡ source };

    fn clone(&self) -> Result<EdnsOption, AllocError> {
        Ok(EdnsOption {
            code: self.code,
            bytes: self.bytes.clone()?,
        })
    }
}

/// What an OPT record says of its message (RFC 6891 section 6.1).
#[derive(Debug, Drop)]
pub struct Edns {
    max_payload: u16,
    rcode_high: u8,
    version: u8,
    dnssec_ok: bool,
    reserved_flags: u16,
    options: Items<EdnsOption>,
}

impl Model for Edns {
    ghost use Rattle.std.specs.Prelude.{◌<◌, ◌^◌};
    ghost use Rattle.wire_messages.specs.op.EdnsFields.{EdnsFields};

    ghost Value = { EdnsFields };

    ghost view = { λ e. record {
      max_payload = e.max_payload;
      rcode_high = e.rcode_high;
      version = e.version;
      dnssec_ok = e.dnssec_ok;
      reserved_flags = e.reserved_flags;
      options = e.options;
    } };

    ghost invariant = { λ e. e.reserved_flags < 2 ^ 15 };
}

impl Edns {
    /// Payload 512, version 0, no flag, no option. It needs no memory.
    pub fn new(alloc: Global) -> Edns
        ensures { result ≡ record {
          max_payload = 512;
          rcode_high = 0;
          version = 0;
          dnssec_ok = false;
          reserved_flags =
              0;
          options = [];
        } }
    {
        Edns {
            max_payload: 512,
            rcode_high: 0,
            version: 0,
            dnssec_ok: false,
            reserved_flags: 0,
            options: Items::new(alloc),
        }
    }

    /// What an OPT record of this class, this TTL and these options says (RFC 6891 sections 6.1.2 and 6.1.3).
    pub fn from_opt(dns_class: DNSClass, ttl: u32, options: Items<EdnsOption>) -> Edns
        ensures { result ≡ record {
          max_payload = dns_class;
          rcode_high = ttl / 2 ^ 24;
          version = ttl / 2 ^ 16 % 256;
          dnssec_ok = ttl / 2 ^ 15 % 2 == 1;
          reserved_flags = ttl % 2 ^ 15;
          options = options;
        } }
    {
        Edns {
            max_payload: dns_class.value(),
            rcode_high: (ttl >> 24) as u8,
            version: ((ttl >> 16) % 256) as u8,
            dnssec_ok: (ttl >> 15) % 2 == 1,
            reserved_flags: (ttl % 0x8000) as u16,
            options,
        }
    }

    /// How many bytes a UDP payload may have, as the OPT record says. What was read from bytes may be below 512.
    pub fn max_payload(&self) -> u16
        ensures { result ≡ self.now.max_payload }
    {
        self.max_payload
    }

    /// The high eight bits of the response code.
    pub fn rcode_high(&self) -> u8
        ensures { result ≡ self.now.rcode_high }
    {
        self.rcode_high
    }

    /// The version of EDNS.
    pub fn version(&self) -> u8
        ensures { result ≡ self.now.version }
    {
        self.version
    }

    /// The flag DO, by which DNSSEC records are asked for (RFC 3225).
    pub fn dnssec_ok(&self) -> bool
        ensures { result ≡ self.now.dnssec_ok }
    {
        self.dnssec_ok
    }

    /// The fifteen flags behind DO, which are kept as they were read. A sender leaves them zero (RFC 6891 section
    /// 6.1.4, Z).
    pub fn reserved_flags(&self) -> u16
        ensures value { result ≡ self.now.reserved_flags }
        ensures in_range { result < 2 ^ 15 }
    {
        self.reserved_flags
    }

    /// The TTL field of the OPT record: high code, version, DO, and the flags behind it (RFC 6891 section 6.1.3).
    pub fn ttl(&self) -> u32
        ensures fields { result ≡ self.now.rcode_high * 2 ^ 24 + self.now.version * 2 ^ 16 + flag self.now.dnssec_ok
            15 + self.now.reserved_flags }
        ensures in_range { IsEdnsInRange self.now }
    {
        let high = u32::from(self.rcode_high()) * 0x100_0000 + u32::from(self.version()) * 0x1_0000;
        let dnssec_ok = if self.dnssec_ok { 0x8000 } else { 0 };
        high + dnssec_ok + u32::from(self.reserved_flags)
    }

    /// The options, in their order.
    pub fn options(&self) -> &[EdnsOption]
        ensures { result.now ≡ self.now.options }
    {
        self.options.as_slice()
    }

    /// The first option of a number.
    pub fn option(&self, code: u16) -> Option<&EdnsOption>
        ensures { option_copied result ≡ find (λ option. option.code == code) self.now.options }
    {
        self.options
            .as_slice()
            .iter()
            .find(|option| option.code == code)
    }

    /// Sets the payload, to at least 512 bytes (RFC 6891 section 6.2.3).
    pub fn set_max_payload(&mut self, max_payload: u16)
        ensures { self.new ≡ record self.old { max_payload = max max_payload 512 } }
    {
        self.max_payload = max_payload.max(512);
    }

    /// Sets the high eight bits of the response code.
    pub fn set_rcode_high(&mut self, rcode_high: u8)
        ensures { self.new ≡ record self.old { rcode_high = rcode_high } }
    {
        self.rcode_high = rcode_high;
    }

    /// Sets the version of EDNS.
    pub fn set_version(&mut self, version: u8)
        ensures { self.new ≡ record self.old { version = version } }
    {
        self.version = version;
    }

    /// Sets the flag DO.
    pub fn set_dnssec_ok(&mut self, dnssec_ok: bool)
        ensures { self.new ≡ record self.old { dnssec_ok = dnssec_ok } }
    {
        self.dnssec_ok = dnssec_ok;
    }

    /// Puts an option last. Where memory is refused, nothing changes and the option is dropped.
    pub fn push_option(&mut self, option: EdnsOption) -> Result<(), AllocError>
        ensures ok { OnOk result (self.new ≡ record self.old { options = self.old.options ++ option ∷ [] }) }
        ensures err { OnErr result (self.new ≡ self.old) }
    {
        self.options.push(option)
    }
}

impl Clone for Edns {
    ghost is_clone = { λ source copy. copy ≡ source };

    fn clone(&self) -> Result<Edns, AllocError> {
        Ok(Edns {
            max_payload: self.max_payload,
            rcode_high: self.rcode_high,
            version: self.version,
            dnssec_ok: self.dnssec_ok,
            reserved_flags: self.reserved_flags,
            options: self.options.clone()?,
        })
    }
}

impl PartialEq for Edns {
    ghost eq = { edns_eq };

    ghost laws = { partial_equiv_from_equiv edns_eq_equiv };

    fn eq(&self, other: &Edns) -> bool {
        self.max_payload() == other.max_payload()
            && self.rcode_high() == other.rcode_high()
            && self.version() == other.version()
            && self.dnssec_ok() == other.dnssec_ok()
            && self.reserved_flags() == other.reserved_flags()
            && self.options() == other.options()
    }
}

impl Eq for Edns {
    ghost laws = { edns_eq_equiv };
}

/// The identifier of a name server (RFC 5001 section 3.1).
#[derive(Drop)]
pub struct NSIDPayload {
    bytes: Vec<u8>,
}

impl Model for NSIDPayload {
    ghost use Rattle.std.specs.Prelude.{List, ℕ, ◌≤◌, length};

    ghost Value = { List ℕ };

    ghost view = { λ payload. payload.bytes.items };

    ghost invariant = { λ payload. length payload.bytes.items ≤ 65531 };
}

impl NSIDPayload {
    /// The most bytes that an identifier may have, so that option and OPT record can hold it.
    pub const MAX_LEN: usize = 65531;

    /// The identifier of these bytes, or `DataTooLong` where there are more than 65,531. It needs no memory.
    pub fn new(bytes: Vec<u8>) -> Result<NSIDPayload, ProtoError>
        ensures ok { IfOk result (λ payload. (payload ≡ bytes.items) × (length bytes.items ≤ 65531)) }
        ensures err { IfErr result (λ e. (e ≡ ProtoError.DataTooLong) × (65531 < length bytes.items)) }
    {
        if bytes.len() > Self::MAX_LEN {
            return Err(ProtoError::DataTooLong);
        }
        Ok(NSIDPayload { bytes })
    }

    /// The bytes, of which there are at most 65,531.
    pub fn as_slice(&self) -> &[u8]
        ensures value { result.now ≡ self.now }
        ensures len { length self.now ≤ 65531 }
    {
        self.bytes.as_slice()
    }
}
