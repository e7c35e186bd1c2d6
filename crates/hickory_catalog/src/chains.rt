//! Asking and consulting the handlers of a zone.

ghost use Rattle.std.specs.Prelude.{◌≡◌, ◌<◌, [], length, false, IsTrue, IsFalse, IsSome, Option, Some, None};
ghost use Rattle.std.specs.List.{remove};
ghost use Rattle.std.specs.Option.{option_or};
ghost use Rattle.wire_names.specs.rr.domain.NameOrder.{lower_name};
ghost use Rattle.wire_messages.specs.Numbers.{code_refused};
ghost use Rattle.wire_messages.specs.declared.rr.tsig.TSigResponseContext.{TSigResponseContext};
ghost use Rattle.hickory_base.specs.zone_store.Lookups.{Flow, result_of};
ghost use Rattle.hickory_base.specs.requests.Requests.{information_of};
ghost use Rattle.hickory_base.specs.declared.zone_store.lookup.LookupControlFlow.TheVariants.{Skip};
ghost use Rattle.hickory_catalog.specs.queries.Transcripts.{Asked, ChainAnswers, Consulted, IsAnswer, is_memory, options_of, wants_memory};

use hickory_base::errors::LookupError;
use hickory_base::server::{Request, RequestInfo};
use hickory_base::zone_store::{
    AuthLookup, LookupControlFlow, LookupOptions, RecordList, WholeReply, ZoneHandler,
};
use hickory_wire::{ResponseCode, TSigResponseContext};
use std::alloc::Global;
use std::mem;

/// What a handler gives: its answer, and what a signer of the reply has to know.
pub(crate) type Given<'z> = (
    LookupControlFlow<AuthLookup<'z>>,
    Option<TSigResponseContext>,
);

/// What the handlers of a chain answer.
#[derive(Drop)]
pub(crate) struct ChainAnswer<'z> {
    /// The place of the handler that was asked, or how many there are where all skip.
    pub place: usize,
    /// The answer, and what a signer of the reply has to know, kept as handlers give them.
    pub given: Given<'z>,
}

/// A reply in whose place a handler puts another: Refused, and no records.
pub(crate) fn unanswered<'z>() -> WholeReply<'z>
    ensures { result ≡ record {
      response_code = code_refused;
      authoritative = false;
      answers = [];
      authorities = [];
      additionals =
          [];
    } }
{
    WholeReply {
        response_code: ResponseCode::REFUSED,
        authoritative: false,
        answers: RecordList::empty(),
        authorities: RecordList::empty(),
        additionals: RecordList::empty(),
    }
}

/// What stands where a handler puts what it gives: a whole reply, in whose place it may put another, and nothing for a
/// signer.
fn ungiven<'z>() -> Given<'z>
    ensures { result.1 ≡ None }
{
    let whole = AuthLookup::Whole(unanswered());
    (LookupControlFlow::Continue(Ok(whole)), None)
}

impl<'z> ChainAnswer<'z> {
    /// What stands where a chain puts its answer.
    pub fn unasked() -> ChainAnswer<'z>
        ensures { result.given.1 ≡ None }
    {
        ChainAnswer {
            place: 0,
            given: ungiven(),
        }
    }
}

/// Whether memory was refused.
pub(crate) fn is_memory(e: &LookupError) -> bool
    ensures { result ≡ is_memory e.now }
{
    matches!(e, LookupError::Memory)
}

/// Whether an answer says that memory was refused.
pub(crate) fn wants_memory(answer: &LookupControlFlow<AuthLookup<'_>>) -> bool
    ensures { result ≡ wants_memory answer.now }
{
    match answer {
        LookupControlFlow::Continue(Err(e)) => is_memory(e),
        LookupControlFlow::Break(Err(e)) => is_memory(e),
        _ => false,
    }
}

/// What the handlers are told to take care of, as the EDNS of the request has it.
pub(crate) fn options_of(request: &Request) -> LookupOptions
    ensures { result ≡ options_of request.now }
{
    LookupOptions::from_edns(request.message().edns.as_ref())
}

/// Lets a handler put its whole reply in the place of one that stands there. Returns whether it did.
#[inline(always)]
fn put_whole<'z, H: ZoneHandler>(
    handler: &'z H,
    alloc: Global,
    request: &Request,
    options: LookupOptions,
    given: &mut Given<'z>,
) -> bool
    ensures gives { IsTrue result → H.search_gives handler.now request.now options given.new.0 None ×
        IsAnswer given.new.0 }
    ensures unsigned { given.new.1 ≡ given.old.1 }
{
    match &mut given.0 {
        LookupControlFlow::Continue(Ok(AuthLookup::Whole(reply))) => {
            handler.search_whole(alloc, request, options, reply)
        }
        _ => false,
    }
}

/// Puts what a handler finds in the place of what stands there. Returns whether it answers. A `Skip` is not kept, nor
/// its context.
#[inline(never)]
fn put_found<'z, H: ZoneHandler>(
    handler: &'z H,
    alloc: Global,
    request: &Request,
    options: LookupOptions,
    given: &mut Given<'z>,
) -> bool
    ensures answered { IsTrue result → H.search_gives handler.now request.now options given.new.0 given.new.1 ×
        IsAnswer given.new.0 }
    ensures skipped { IsFalse result → (dropped : Option TSigResponseContext) ×
        H.search_gives handler.now request.now options Skip dropped × (given.new.1 ≡ None) }
{
    *given = handler.search(alloc, request, options);
    match &given.0 {
        LookupControlFlow::Skip => {
            *given = ungiven();
            false
        }
        _ => true,
    }
}

/// Asks a handler, and puts what it gives in the place of what stands there. Returns whether it answers. A `Skip` is
/// not kept, nor its context.
#[inline(always)]
fn put_answer<'z, H: ZoneHandler>(
    handler: &'z H,
    alloc: Global,
    request: &Request,
    options: LookupOptions,
    given: &mut Given<'z>,
) -> bool
    requires unsigned { given.old.1 ≡ None }
    ensures answered { IsTrue result → H.search_gives handler.now request.now options given.new.0 given.new.1 ×
        IsAnswer given.new.0 }
    ensures skipped { IsFalse result → (dropped : Option TSigResponseContext) ×
        H.search_gives handler.now request.now options Skip dropped × (given.new.1 ≡ None) }
{
    // speed: served, an address past a block list. A whole reply stays where it is put.
    if put_whole(handler, alloc, request, options, given) {
        return true;
    }
    put_found(handler, alloc, request, options, given)
}

/// Asks the handlers of a chain from left to right, and puts the answer in this place. A `Skip` goes on with the rest
/// and drops its context.
fn ask<'z, H: ZoneHandler>(
    chain: &'z [H],
    alloc: Global,
    request: &Request,
    answer: &mut ChainAnswer<'z>,
)
    requires { answer.old.given.1 ≡ None }
    ensures asked { Asked H.ZoneHandler request.now (options_of request.now) chain.now answer.new.place
        answer.new.given }
    ensures place { IsAnswer answer.new.given.0 → answer.new.place < length chain.now }
{
    let options = options_of(request);
    for place in 0..chain.len() {
        if put_answer(&chain[place], alloc, request, options, &mut answer.given) {
            answer.place = place;
            return;
        }
    }
    answer.place = chain.len();
    answer.given = (LookupControlFlow::Skip, None);
}

/// Puts what a handler that was consulted gave in the place of what it was consulted about. A context that it gave
/// takes the place of the one before.
#[inline(always)]
fn put_consulted<'z>(given: &mut Given<'z>, fresh: &mut Given<'z>)
    ensures { (given.new.0 ≡ fresh.old.0) × (given.new.1 ≡ option_or fresh.old.1 given.old.1) }
{
    given.0 = mem::replace(&mut fresh.0, LookupControlFlow::Skip);
    if fresh.1.is_some() {
        given.1 = fresh.1.take();
    }
}

/// Consults a handler about an answer, and puts what it answers in its place. A context that it gives takes the place
/// of the one before.
#[inline(never)]
fn consult_one<'z, H: ZoneHandler>(
    handler: &'z H,
    alloc: Global,
    info: &RequestInfo<'_>,
    options: LookupOptions,
    given: &mut Given<'z>,
)
    ensures { (fresh : Option TSigResponseContext) ×
        H.consult_gives handler.now (lower_name info.now.query.now.name) info.now.query.now.query_type
        (Some (information_of info.now)) options given.old.0 given.new.0 fresh ×
        (given.new.1 ≡ option_or fresh given.old.1) }
{
    let name = info.query.name();
    let query_type = info.query.query_type();
    let last = mem::replace(&mut given.0, LookupControlFlow::Skip);
    // speed: served, an address past a block list. What is lent is made where it stays.
    put_consulted(
        given,
        &mut handler.consult(alloc, name, query_type, Some(info), options, last),
    );
}

/// Consults handlers from left to right about an answer, each about what the one before it left. Want of memory ends
/// it.
fn consult<'z, H: ZoneHandler>(
    handlers: &'z [H],
    alloc: Global,
    info: &RequestInfo<'_>,
    options: LookupOptions,
    given: &mut Given<'z>,
)
    ensures { Consulted H.ZoneHandler (information_of info.now) options handlers.now given.old given.new }
{
    for i in 0..handlers.len() {
        if wants_memory(&given.0) {
            return;
        }
        consult_one(&handlers[i], alloc, info, options, given);
    }
}

/// Whether a handler leaves any answer as it is, where it is consulted about it.
#[inline(always)]
fn leaves<H: ZoneHandler>(handler: &H, info: &RequestInfo<'_>, options: LookupOptions) -> bool
    ensures { IsTrue result → (last : Flow) →
        H.consult_gives handler.now (lower_name info.now.query.now.name) info.now.query.now.query_type
        (Some (information_of info.now)) options last last None }
{
    let name = info.query.name();
    handler.leaves(name, info.query.query_type(), Some(info), options)
}

/// Whether handlers leave any answer as it is, where they are consulted about it.
pub(crate) fn all_leave<H: ZoneHandler>(
    handlers: &[H],
    info: &RequestInfo<'_>,
    options: LookupOptions,
) -> bool
    ensures { IsTrue result → (given : Flow × Option TSigResponseContext) → wants_memory given.0 ≡ false →
        Consulted H.ZoneHandler (information_of info.now) options handlers.now given given }
{
    for i in 0..handlers.len() {
        if !leaves(&handlers[i], info, options) {
            return false;
        }
    }
    true
}

/// Consults each handler but the one that was asked about its answer, and puts what they answer in its place.
fn consult_others<'z, H: ZoneHandler>(
    chain: &'z [H],
    alloc: Global,
    info: &RequestInfo<'_>,
    options: LookupOptions,
    asked: &mut ChainAnswer<'z>,
)
    requires { asked.old.place < length chain.now }
    ensures place { asked.new.place ≡ asked.old.place }
    ensures consulted { Consulted H.ZoneHandler (information_of info.now) options
        (remove chain.now asked.old.place) asked.old.given asked.new.given }
{
    let place = asked.place;
    consult(&chain[..place], alloc, info, options, &mut asked.given);
    consult(&chain[place + 1..], alloc, info, options, &mut asked.given);
}

/// What a chain of handlers answers: one is asked, and after its `Continue` each other one is consulted.
pub(crate) fn chain_answer<'z, H: ZoneHandler>(
    chain: &'z [H],
    alloc: Global,
    request: &Request,
    info: &RequestInfo<'_>,
    options: LookupOptions,
    answer: &mut ChainAnswer<'z>,
)
    requires { answer.old.given.1 ≡ None }
    ensures answers { ChainAnswers H.ZoneHandler request.now (information_of info.now) options chain.now answer.new }
    ensures place { IsSome (result_of answer.new.given.0) → answer.new.place < length chain.now }
{
    ask(chain, alloc, request, answer);
    // Mostly there is nobody else to consult.
    if answer.given.0.is_continue() && chain.len() > 1 {
        consult_others(chain, alloc, info, options, answer);
    }
}
