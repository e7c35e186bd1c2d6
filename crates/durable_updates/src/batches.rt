//! Updates of several requests, on the disk before any of them is answered.

ghost use Rattle.std.specs.Prelude.{◌≡◌, ◌++◌, [], IfErr, IfOk, map};
ghost use Rattle.hickory_base.specs.zone_store.ZoneSets.{IsZone, sets_of};
ghost use Rattle.journal.specs.Read.{contents};
ghost use Rattle.durable_updates.specs.Batches.{AnswersEach, AnswersRead, accepted, bytes_of, if_accepted, told_unwritten, unwritten};
ghost use Rattle.durable_updates.specs.DurableUpdates.{IsWriteFault};
ghost use Rattle.durable_updates.specs.Journalling.{JournalsAll, RefusesEntries};
ghost use Rattle.durable_updates.specs.Commits.{Commits};
ghost use Rattle.durable_updates.specs.Runs.{ServesAll};

use crate::updating::{refused_by, told_context};
use hickory_base::errors::UpdateFault;
use hickory_base::server::Request;
use hickory_base::zone_store::RecordSet;
use hickory_store::updates::{UpdatableZoneHandler, Verifier};
use hickory_wire::{ResponseCode, RrKey, TSigResponseContext};
use journal::{Journal, JournalError};
use sqlite_disk::Disk;
use std::alloc::{AllocError, Global};
use std::collections::BTreeMap;
use std::rc::Rc;

/// What a request is answered, and what goes with that for the signer of the reply.
pub type UpdateAnswer = (Result<bool, UpdateFault>, Option<TSigResponseContext>);

/// The sets of a zone by name and type.
pub(crate) type Sets = BTreeMap<RrKey, Rc<RecordSet>>;

/// What requests are answered once they are written, and the entries of those that are to be written.
#[derive(Drop)]
struct Batch {
    answers: Vec<UpdateAnswer>,
    entries: Vec<Vec<u8>>,
}

/// A copy of the zone's sets, which shares their records.
pub(crate) fn copied_sets<V: Verifier>(zone: &UpdatableZoneHandler<V>) -> Result<Sets, AllocError>
    ensures sets { IfOk result (λ sets. sets_of sets ≡ zone.now.zone.sets) }
    ensures zone { IsZone zone.now.zone.sets }
{
    match zone.in_memory().records().clone() {
        Ok(sets) => Ok(sets),
        Err(e) => Err(e),
    }
}

/// Puts sets in the place of the zone's. It needs no memory.
fn restore<V: Verifier>(zone: &mut UpdatableZoneHandler<V>, sets: Sets)
    requires { IsZone (sets_of sets) }
    ensures { zone.new ≡ record zone.old { zone = record zone.old.zone { sets = sets_of sets } } }
{
    zone.in_memory_mut().replace_records(sets);
}

/// Makes the update of a request in memory, and puts its bytes last among the entries where it is made. One whose
/// message was not read from its bytes is ServFail.
fn judge<V: Verifier>(
    zone: &mut UpdatableZoneHandler<V>,
    alloc: Global,
    timed: &(Request, u64),
    entries: &mut Vec<Vec<u8>>,
) -> Result<UpdateAnswer, AllocError>
    ensures answers { IfOk result (λ told. AnswersRead V.Verifier zone.old timed.now told zone.new) }
    ensures entries { IfOk result (λ told. contents entries.new.items ≡ contents entries.old.items ++ bytes_of
        (if_accepted told.0 timed.now.0 [])) }
    ensures others { zone.new ≡ record zone.old { zone = record zone.old.zone { sets = zone.new.zone.sets } } }
{
    let (request, now) = timed;
    if !request.was_read() {
        return Ok((Err(UpdateFault::Code(ResponseCode::SERV_FAIL)), None));
    }
    let (answer, context) = zone.update_by(alloc, request, *now, true);
    if answer.is_ok() {
        entries.push(Vec::from_slice(alloc, request.as_slice())?)?;
    }
    Ok((answer, context))
}

/// Makes the updates of requests in memory, one after another. After an error those of a front may be made.
fn judge_all<V: Verifier>(
    zone: &mut UpdatableZoneHandler<V>,
    alloc: Global,
    requests: &[(Request, u64)],
) -> Result<Batch, AllocError>
    ensures answers { IfOk result (λ batch. AnswersEach V.Verifier requests.now batch.answers.items zone.old zone.new) }
    ensures entries { IfOk result (λ batch. contents batch.entries.items ≡ bytes_of
        (accepted requests.now batch.answers.items)) }
    ensures others { zone.new ≡ record zone.old { zone = record zone.old.zone { sets = zone.new.zone.sets } } }
{
    let mut answers = Vec::new(alloc);
    let mut entries = Vec::new(alloc);
    let mut rest = requests;
    while let [first, others @ ..] = rest {
        let told = judge(zone, alloc, first, &mut entries)?;
        answers.push(told)?;
        rest = others;
    }
    Ok(Batch { answers, entries })
}

/// Adds the entries of updates that were made in memory to the journal, all or none, with two syncs; none where there
/// are none. If the journal refuses them, that is ServFail, and `Memory` if memory was refused: then none of these
/// updates is to be acknowledged, and the zone in memory is ahead of its journal. A journal that cannot take them is
/// shut from then on, unless they are too long.
pub fn write_held<D: Disk>(
    journal: &mut Journal<D>,
    alloc: Global,
    entries: &[Vec<u8>],
) -> Result<(), UpdateFault>
    ensures journals { JournalsAll D.seen D.may_leave result (contents entries.now) journal.old journal.new }
    ensures clean { D.is_clean journal.new.disk ≡ D.is_clean journal.old.disk }
    ensures err { IfErr result (IsWriteFault (RefusesEntries journal.new.is_open (contents entries.now))) }
{
    if entries.is_empty() {
        return Ok(());
    }
    match journal.append_all(alloc, entries) {
        Ok(()) => Ok(()),
        Err(JournalError::Memory) => Err(UpdateFault::Memory),
        Err(JournalError::Shut) => Err(refused_by(journal)),
        Err(JournalError::TooLong) => Err(UpdateFault::Code(ResponseCode::SERV_FAIL)),
        Err(JournalError::Disk(_)) => Err(UpdateFault::Code(ResponseCode::SERV_FAIL)),
    }
}

/// The answer in the place of another one, where nothing was written.
fn unwritten(answer: &Result<bool, UpdateFault>, fault: &UpdateFault) -> Result<bool, UpdateFault>
    ensures { result ≡ unwritten fault.now answer.now }
{
    match answer {
        Err(UpdateFault::Memory) => Err(UpdateFault::Memory),
        _ => Err(*fault),
    }
}

/// Takes back what was to be answered to one request.
fn take_back_one(told: &mut UpdateAnswer, fault: &UpdateFault)
    ensures { told.new ≡ told_unwritten fault.now told.old }
{
    let answer = unwritten(&told.0, fault);
    let context = told.1.take();
    let context = told_context(&answer, context);
    *told = (answer, context);
}

/// Takes back what was to be answered, since nothing was written.
fn take_back(answers: &mut [UpdateAnswer], fault: &UpdateFault)
    ensures { answers.new ≡ map (told_unwritten fault.now) answers.old }
{
    for told in answers.iter_mut() {
        take_back_one(told, fault);
    }
}

/// Writes what was judged. Where that is not written, takes it back, and puts the sets of before in the place of the
/// zone's.
fn commit<V: Verifier, D: Disk>(
    zone: &mut UpdatableZoneHandler<V>,
    journal: &mut Journal<D>,
    alloc: Global,
    before: Sets,
    batch: Batch,
) -> Vec<UpdateAnswer>
    requires { IsZone (sets_of before) }
    ensures commits { Commits D.Disk (sets_of before) (contents batch.entries.items) batch.answers.items result.items
        (record { zone = zone.old; journal = journal.old }) (record { zone = zone.new; journal = journal.new }) }
    ensures clean { D.is_clean journal.new.disk ≡ D.is_clean journal.old.disk }
{
    let Batch {
        mut answers,
        entries,
    } = batch;
    match write_held(journal, alloc, &entries) {
        Ok(()) => answers,
        Err(fault) => {
            restore(zone, before);
            take_back(&mut answers, &fault);
            answers
        }
    }
}

/// Makes the updates that requests ask for (RFC 2136 section 3), once the bytes of all that are accepted are on the
/// disk. Each comes with its moment in seconds since 1970.
///
/// They are judged one after another as `UpdatableZoneHandler::update_by` judges them by the RFCs, each over the zone
/// that those before it leave; one whose message was not read from its bytes is ServFail. Those that are answered `Ok`
/// are written as one batch, of which a crash at any moment leaves all entries or none; then the
/// answers are given, in the order of the requests. Two syncs for all; none where no request is accepted.
///
/// Where the batch is not written, none is acknowledged: every answer is ServFail (`Memory` where the memory for that
/// was refused, or that of this request), and the zone is as before. After a failed write the journal is shut, as after
/// `update_durably`. With an error memory was refused, and nothing happened.
///
/// While it is at it, it keeps a copy of the zone's keys: time and memory by the sets of the zone. For one request take
/// `update_durably`.
pub fn update_all_durably<V: Verifier, D: Disk>(
    zone: &mut UpdatableZoneHandler<V>,
    journal: &mut Journal<D>,
    alloc: Global,
    requests: &[(Request, u64)],
) -> Result<Vec<UpdateAnswer>, AllocError>
    ensures served { IfOk result (λ told. ServesAll V.Verifier D.Disk requests.now told.items
        (record { zone = zone.old; journal = journal.old }) (record { zone = zone.new; journal = journal.new })) }
    ensures memory { IfErr result (λ _. (zone.new ≡ zone.old) × (journal.new ≡ journal.old)) }
    ensures clean { D.is_clean journal.new.disk ≡ D.is_clean journal.old.disk }
{
    let before = copied_sets(zone)?;
    match judge_all(zone, alloc, requests) {
        Err(e) => {
            restore(zone, before);
            Err(e)
        }
        Ok(batch) => Ok(commit(zone, journal, alloc, before, batch)),
    }
}
