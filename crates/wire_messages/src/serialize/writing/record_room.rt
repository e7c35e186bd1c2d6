//! How much room records take with every name in full.

ghost use Rattle.std.specs.Prelude.{◌≡◌, ◌↔◌, ◌+◌, ◌≤◌, ◌<◌, ℕ, List, length, IsTrue, Option};
ghost use Rattle.wire_messages.specs.serialize.writing.RecordSize.{Leaves, data_len, full_size};
ghost use Rattle.wire_messages.specs.serialize.writing.Reply.{opt_record};
ghost use Rattle.wire_messages.specs.declared.rr.rdata.RData.TheVariants as rdata_form;

use crate::op::edns::{Edns, EdnsOption};
use crate::rr::rdata::{RData, SOA};
use crate::rr::record::Record;
use crate::rr::tsig::TSIG;
use crate::serialize::writing::full_form::full_name_len;
use wire_names::rr::domain::name::Name;
use wire_names::values::octets::Octets;

/// What is left of a room behind so many bytes, if they fit.
fn left_by(room: usize, size: usize) -> Option<usize>
    ensures { Leaves room size result }
{
    if size > room {
        return None;
    }
    Some(room - size)
}

fn left_by_name(room: usize, name: &Name) -> Option<usize>
    ensures { Leaves room (data_len (rdata_form.NS name.now)) result }
{
    left_by(room, usize::from(full_name_len(name)))
}

fn left_by_strings(room: usize, strings: &[Octets]) -> Option<usize>
    ensures { Leaves room (data_len (rdata_form.TXT strings.now)) result }
{
    let mut left = room;
    for text in strings {
        let Some(behind) = left_by(left, 1) else {
            return None;
        };
        let Some(next) = left_by(behind, text.len()) else {
            return None;
        };
        left = next;
    }
    Some(left)
}

fn left_by_options(room: usize, options: &[EdnsOption]) -> Option<usize>
    ensures { Leaves room (data_len (rdata_form.OPT options.now)) result }
{
    let mut left = room;
    for option in options {
        let Some(behind) = left_by(left, 4) else {
            return None;
        };
        let Some(next) = left_by(behind, option.bytes.len()) else {
            return None;
        };
        left = next;
    }
    Some(left)
}

fn left_by_soa(room: usize, soa: &SOA) -> Option<usize>
    ensures { Leaves room (data_len (rdata_form.SOA soa.now)) result }
{
    let left = left_by_name(room, &soa.mname)?;
    let left = left_by_name(left, &soa.rname)?;
    left_by(left, 20)
}

fn left_by_signature(room: usize, signature: &TSIG) -> Option<usize>
    ensures { Leaves room (data_len (rdata_form.TSIG signature.now)) result }
{
    let left = left_by_name(room, &signature.algorithm)?;
    let left = left_by(left, 16)?;
    let left = left_by(left, signature.mac.len())?;
    left_by(left, signature.other.len())
}

fn left_by_data(room: usize, rdata: &RData) -> Option<usize>
    ensures { Leaves room (data_len rdata.now) result }
{
    match rdata {
        RData::A(address) => left_by(room, address.octets().len()),
        RData::AAAA(address) => left_by(room, address.octets().len()),
        RData::NS(name) => left_by_name(room, name),
        RData::CNAME(name) => left_by_name(room, name),
        RData::PTR(name) => left_by_name(room, name),
        RData::MX(mx) => left_by_name(left_by(room, 2)?, &mx.exchange),
        RData::SOA(soa) => left_by_soa(room, soa.get()),
        RData::TXT(strings) => left_by_strings(room, strings.as_slice()),
        RData::OPT(options) => left_by_options(room, options.as_slice()),
        RData::TSIG(signature) => left_by_signature(room, signature.get()),
        RData::NULL(octets) => left_by(room, octets.len()),
        RData::Update0(_) => Some(room),
        RData::Unknown { bytes, .. } => left_by(room, bytes.len()),
    }
}

fn left_by_owner(room: usize, name: &Name) -> Option<usize>
    ensures { Leaves room (data_len (rdata_form.NS name.now) + 10) result }
{
    left_by(left_by_name(room, name)?, 10)
}

impl Record {
    /// What is left of so many bytes behind the record with every name in full (RFC 1035 section 4.1.3), or `None`
    /// where it does not fit, be it that it has a form or not.
    pub fn room_behind(&self, room: usize) -> Option<usize>
        ensures { Leaves room (full_size self.now) result }
    {
        left_by_data(left_by_owner(room, &self.name)?, &self.rdata)
    }

    /// Whether the record with every name in full takes at most so many bytes (RFC 1035 section 4.1.3), be it that it
    /// has a form or not.
    pub fn fits(&self, room: usize) -> bool
        ensures { IsTrue result ↔ (full_size self.now ≤ room) }
    {
        self.room_behind(room).is_some()
    }
}

impl Edns {
    /// What is left of so many bytes behind the OPT record that says this (RFC 6891 section 6.1.2), or `None` where it
    /// does not fit.
    pub fn room_behind(&self, room: usize) -> Option<usize>
        ensures { Leaves room (full_size (opt_record self.now)) result }
    {
        left_by_options(left_by(room, 11)?, self.options())
    }

    /// Whether the OPT record that says this takes at most so many bytes (RFC 6891 section 6.1.2).
    pub fn fits(&self, room: usize) -> bool
        ensures { IsTrue result ↔ (full_size (opt_record self.now) ≤ room) }
    {
        self.room_behind(room).is_some()
    }
}
