//! Where the TSIG record of a message begins, and what it says.

ghost use Rattle.std.specs.Prelude.{◌≡◌, ◌<◌, ◌+◌, Ok, MatchResult};
ghost use Rattle.wire_messages.specs.serialize.reading.Reading.{Fails, Gives};
ghost use Rattle.wire_messages.specs.serialize.reading.RecordReading.{question};
ghost use Rattle.wire_reading.specs.serialize.reading.MessageReading.{front_of};
ghost use Rattle.tsig.specs.Reading.{last_of, none_of, other, placed, signature_behind, signature_of, skip};

use std::alloc::Global;
use wire_messages::op::header::HeaderCounts;
use wire_messages::rr::rdata::RData;
use wire_messages::rr::record::Record;
use wire_messages::rr::tsig::TSIG;
use wire_names::error::DecodeError;
use wire_reading::serialize::reading::decoder::BinDecoder;

/// The TSIG record of a message.
#[derive(Drop)]
pub(crate) struct PlacedSignature {
    /// How many records the additional section has.
    pub additionals: u16,
    /// Where it begins.
    pub place: usize,
    /// The record.
    pub signature: Record<TSIG>,
}

/// Goes behind so many questions.
fn skip_queries(alloc: Global, decoder: &mut BinDecoder<'_>, count: u16) -> Result<(), DecodeError>
    ensures { MatchResult result (λ _. skip question count decoder.old ≡ Ok decoder.new)
        (λ e. Fails e (skip question count decoder.old)) }
{
    let mut left = count;
    while left > 0 {
        decoder.read_query(alloc)?;
        left -= 1;
    }
    Ok(())
}

/// A record that is no TSIG.
#[tactic(auto, unfolding(crate::specs::Reading::other))]
fn read_other(alloc: Global, decoder: &mut BinDecoder<'_>) -> Result<Record, DecodeError>
    ensures { Gives result decoder.old decoder.new other }
{
    let next = decoder.read_record(alloc)?;
    if let RData::TSIG(_) = &next.rdata {
        return Err(DecodeError::RecordAfterSignature);
    }
    Ok(next)
}

/// Goes behind so many records, none of which is a TSIG.
fn skip_others(alloc: Global, decoder: &mut BinDecoder<'_>, count: u32) -> Result<(), DecodeError>
    ensures { MatchResult result (λ _. skip other count decoder.old ≡ Ok decoder.new)
        (λ e. Fails e (skip other count decoder.old)) }
{
    let mut left = count;
    while left > 0 {
        read_other(alloc, decoder)?;
        left -= 1;
    }
    Ok(())
}

/// The last record, where it is a TSIG.
fn placed(additionals: u16, place: usize, last: Record) -> Option<PlacedSignature>
    ensures { result ≡ placed additionals place last last.rdata }
{
    let Record {
        name,
        dns_class,
        ttl,
        rdata,
        proof,
    } = last;
    let RData::TSIG(signature) = rdata else {
        return None;
    };
    Some(PlacedSignature {
        additionals,
        place,
        signature: Record {
            name,
            dns_class,
            ttl,
            rdata: signature.into_inner(),
            proof,
        },
    })
}

/// The last of some additional records, behind all others.
#[tactic(auto, unfolding(crate::specs::Reading::last_of))]
fn last_of(
    alloc: Global,
    decoder: &mut BinDecoder<'_>,
    counts: HeaderCounts,
) -> Result<Option<PlacedSignature>, DecodeError>
    requires { 0 < counts.additionals }
    ensures { MatchResult result (λ last. last_of counts decoder.old ≡ Ok last)
        (λ e. Fails e (last_of counts decoder.old)) }
{
    let others = u32::from(counts.answers) + u32::from(counts.authorities);
    skip_others(alloc, decoder, others + u32::from(counts.additionals - 1))?;
    let place = decoder.index();
    let last = decoder.read_record(alloc)?;
    Ok(placed(counts.additionals, place, last))
}

/// No record of these counts is a TSIG, where there is no additional one.
#[tactic(auto, unfolding(crate::specs::Reading::none_of))]
fn none_of(
    alloc: Global,
    decoder: &mut BinDecoder<'_>,
    counts: HeaderCounts,
) -> Result<Option<PlacedSignature>, DecodeError>
    ensures { MatchResult result (λ last. none_of counts decoder.old ≡ Ok last)
        (λ e. Fails e (none_of counts decoder.old)) }
{
    let others = u32::from(counts.answers) + u32::from(counts.authorities);
    skip_others(alloc, decoder, others)?;
    Ok(None)
}

/// The TSIG record behind a header with these counts.
#[tactic(auto, unfolding(crate::specs::Reading::signature_behind))]
fn signature_behind(
    alloc: Global,
    decoder: &mut BinDecoder<'_>,
    counts: HeaderCounts,
) -> Result<Option<PlacedSignature>, DecodeError>
    ensures { MatchResult result (λ last. signature_behind counts decoder.old ≡ Ok last)
        (λ e. Fails e (signature_behind counts decoder.old)) }
{
    skip_queries(alloc, decoder, counts.queries)?;
    if counts.additionals == 0 {
        return none_of(alloc, decoder, counts);
    }
    last_of(alloc, decoder, counts)
}

/// The TSIG record of a message, if it has one. An error is the first fault of its records from left to right, where a
/// TSIG that is not the last record is one; or memory was refused.
#[tactic(auto, unfolding(crate::specs::Reading::signature_of))]
pub(crate) fn signature_of(
    alloc: Global,
    bytes: &[u8],
) -> Result<Option<PlacedSignature>, DecodeError>
    ensures { MatchResult result (λ last. signature_of (front_of bytes.now) ≡ Ok last)
        (λ e. Fails e (signature_of (front_of bytes.now))) }
{
    let mut decoder = BinDecoder::new(bytes);
    let header = decoder.read_header()?;
    signature_behind(alloc, &mut decoder, header.counts)
}
