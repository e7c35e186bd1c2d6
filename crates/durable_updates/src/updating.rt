//! Updates, on the disk before they are made.

ghost use Rattle.std.specs.Prelude.{◌≡◌, IfErr, IfOk, None, OnErr, OnOk, false, true};
ghost use Rattle.hickory_base.specs.requests.Updates.{update_of};
ghost use Rattle.hickory_store.specs.updates.Prescan.{prescan_refusal};
ghost use Rattle.hickory_store.specs.updates.UpdateAnswers.{told_context};
ghost use Rattle.durable_updates.specs.DurableUpdates.{AnswersDurably, DoesDurably, IsAccepted, IsWriteFault, MakesDurably, PassesChecks};
ghost use Rattle.durable_updates.specs.Journalling.{Journals, RefusesRequest};
ghost use Rattle.durable_updates.specs.ReadRequests.{IsRead};
ghost use Rattle.durable_updates.specs.Redone.{Makes};

use hickory_base::errors::UpdateFault;
use hickory_base::server::Request;
use hickory_base::update_request::UpdateRequest;
use hickory_store::updates::{UpdatableZoneHandler, Verifier};
use hickory_wire::{ResponseCode, TSigResponseContext};
use journal::{Journal, JournalError};
use sqlite_disk::Disk;
use std::alloc::Global;

/// Why an update is not made that a journal refuses since it takes no entry: ServFail. The journal is shut from then on.
pub(crate) fn refused_by<D: Disk>(refusing: &mut Journal<D>) -> UpdateFault
    ensures fault { result ≡ UpdateFault.Code 2 }
    ensures shut { refusing.new ≡ record refusing.old { is_open = false } }
{
    refusing.shut();
    UpdateFault::Code(ResponseCode::SERV_FAIL)
}

/// Adds a request to the journal. If the journal refuses it, or its message was not read from its bytes, that is
/// ServFail, and `Memory` if memory was refused. A journal that cannot take it is shut from then on, unless the entry is
/// too long.
fn write<D: Disk>(
    journal: &mut Journal<D>,
    alloc: Global,
    request: &Request,
) -> Result<(), UpdateFault>
    ensures accepted { OnOk result (request.now.was_read ≡ true) }
    ensures unread { request.now.was_read ≡ false → journal.new ≡ journal.old }
    ensures journals { Journals D.seen D.may_leave result request.now.bytes journal.old journal.new }
    ensures clean { D.is_clean journal.new.disk ≡ D.is_clean journal.old.disk }
    ensures err { IfErr result (IsWriteFault (RefusesRequest journal.new.is_open request.now)) }
{
    if !request.was_read() {
        return Err(UpdateFault::Code(ResponseCode::SERV_FAIL));
    }
    match journal.append(alloc, request.as_slice()) {
        Ok(()) => Ok(()),
        Err(JournalError::Memory) => Err(UpdateFault::Memory),
        Err(JournalError::Shut) => Err(refused_by(journal)),
        Err(JournalError::TooLong) => Err(UpdateFault::Code(ResponseCode::SERV_FAIL)),
        Err(JournalError::Disk(_)) => Err(UpdateFault::Code(ResponseCode::SERV_FAIL)),
    }
}

/// Writes the request to the journal, and then does its update section. Where that fails, for want of memory or of an
/// SOA, the request stands in the journal, which is shut.
fn write_and_do<V: Verifier, D: Disk>(
    zone: &mut UpdatableZoneHandler<V>,
    journal: &mut Journal<D>,
    alloc: Global,
    request: &Request,
) -> Result<bool, UpdateFault>
    requires { prescan_refusal zone.old.zone.origin (update_of request.now.message).updates ≡ None }
    ensures done { DoesDurably (RefusesRequest journal.new.is_open request.now)
        (update_of request.now.message) result zone.old zone.new }
    ensures made { OnOk result (Makes (update_of request.now.message).updates zone.old.zone zone.new.zone) }
    ensures untouched { IfOk result (λ changed. changed ≡ false → zone.new ≡ zone.old) }
    ensures accepted { OnOk result (request.now.was_read ≡ true) }
    ensures unread { request.now.was_read ≡ false → journal.new ≡ journal.old }
    ensures journals { Journals D.seen D.may_leave result request.now.bytes journal.old journal.new }
    ensures clean { D.is_clean journal.new.disk ≡ D.is_clean journal.old.disk }
{
    write(journal, alloc, request)?;
    match zone.update_records_by(alloc, request.message().updates(), true, true) {
        Ok(changed) => Ok(changed),
        Err(fault) => {
            journal.shut();
            Err(fault)
        }
    }
}

/// Makes the update of a request that may be made.
fn make<V: Verifier, D: Disk>(
    zone: &mut UpdatableZoneHandler<V>,
    journal: &mut Journal<D>,
    alloc: Global,
    request: &Request,
) -> Result<bool, UpdateFault>
    ensures done { MakesDurably (PassesChecks zone.old.zone (update_of request.now.message) ×
        RefusesRequest journal.new.is_open request.now) (update_of request.now.message) result zone.old zone.new }
    ensures made { OnOk result (Makes (update_of request.now.message).updates zone.old.zone zone.new.zone) }
    ensures untouched { IfOk result (λ changed. changed ≡ false → zone.new ≡ zone.old) }
    ensures accepted { OnOk result (request.now.was_read ≡ true) }
    ensures unread { request.now.was_read ≡ false → journal.new ≡ journal.old }
    ensures journals { Journals D.seen D.may_leave result request.now.bytes journal.old journal.new }
    ensures clean { D.is_clean journal.new.disk ≡ D.is_clean journal.old.disk }
{
    match zone.verify_prerequisites(alloc, request.message().prerequisites()) {
        Err(fault) => Err(fault),
        Ok(()) => match zone.pre_scan(request.message().updates()) {
            Err(code) => Err(UpdateFault::Code(code)),
            Ok(()) => write_and_do(zone, journal, alloc, request),
        },
    }
}

/// What goes with an answer for the signer of the reply: nothing where memory was refused.
pub(crate) fn told_context(
    answer: &Result<bool, UpdateFault>,
    context: Option<TSigResponseContext>,
) -> Option<TSigResponseContext>
    ensures { result ≡ told_context context answer.now }
{
    match answer {
        Err(UpdateFault::Memory) => None,
        _ => context,
    }
}

/// Makes the update that a request asks for (RFC 2136 section 3), once its bytes are on the disk. `now` is in seconds
/// since 1970.
///
/// First it is judged as `UpdatableZoneHandler::update_by` judges it by the RFCs; a request that is refused is not written. With an
/// answer of `Ok` its bytes are an entry of the journal. Where the journal refuses them, as it takes no entry or they
/// are 2^32 or more, or where the message was not read from them, the answer is ServFail, and the zone is as before: so
/// it is only of a request whose signature is good, whose prerequisites hold, and whose records pass the prescan. A
/// journal in which a write has failed, or whose last entry was not done for want of memory, is shut: every update is
/// ServFail until the zone is recovered from the file. Whatever the answer, a crash leaves the entries from before,
/// with this one or without. Two syncs.
pub fn update_durably<V: Verifier, D: Disk>(
    zone: &mut UpdatableZoneHandler<V>,
    journal: &mut Journal<D>,
    alloc: Global,
    request: &Request,
    now: u64,
) -> (Result<bool, UpdateFault>, Option<TSigResponseContext>)
    ensures answers { AnswersDurably (IsAccepted V.Verifier zone.old (request.now, now) ×
        RefusesRequest journal.new.is_open request.now) V.Verifier zone.old (request.now, now) result zone.new }
    ensures made { OnOk result.0 (Makes (update_of request.now.message).updates zone.old.zone zone.new.zone) }
    ensures kept { OnErr result.0 (zone.new ≡ zone.old) }
    ensures read { request.now.was_read ≡ true → IsRead request.now }
    ensures accepted { OnOk result.0 (request.now.was_read ≡ true) }
    ensures unread { request.now.was_read ≡ false → journal.new ≡ journal.old }
    ensures journals { Journals D.seen D.may_leave result.0 request.now.bytes journal.old journal.new }
    ensures clean { D.is_clean journal.new.disk ≡ D.is_clean journal.old.disk }
{
    // That its message is the one of its bytes is known of a request that was asked.
    let _ = request.was_read();
    let (permission, context) = zone.authorize_update(alloc, request, now);
    match permission {
        Err(fault) => (Err(fault), context),
        Ok(()) => {
            let answer = make(zone, journal, alloc, request);
            let told = told_context(&answer, context);
            (answer, told)
        }
    }
}
