//! Updates as requests ask for them: who may, what is required, what may be said, and then what is done.

ghost use Rattle.std.specs.Prelude.{◌≡◌, ◌<◌, IfErr, IfOk, MatchResult, None, false, length, take};
ghost use Rattle.hickory_base.specs.requests.Updates.{update_of};
ghost use Rattle.hickory_store.specs.updates.UpdateAnswers.{AnswersUpdate, Updates, UpdatesAll, UpdatesOne, message_outcome, told_context};

use crate::updates::handler::UpdatableZoneHandler;
use crate::updates::verifier::Verifier;
use hickory_base::errors::UpdateFault;
use hickory_base::message_request::MessageRequest;
use hickory_base::server::Request;
use hickory_base::update_request::UpdateRequest;
use hickory_wire::TSigResponseContext;
use std::alloc::{AllocError, Global};

/// What goes with an answer for the signer of the reply: nothing where memory was refused.
fn told_context(
    answer: &Result<bool, UpdateFault>,
    context: Option<TSigResponseContext>,
) -> Option<TSigResponseContext>
    ensures { result ≡ told_context context answer.now }
{
    match answer {
        Err(UpdateFault::Memory) => None,
        _ => context,
    }
}

impl<V: Verifier> UpdatableZoneHandler<V> {
    /// Makes the update of a message that may be made.
    fn update_message(
        &mut self,
        alloc: Global,
        message: &MessageRequest,
        by_rfc: bool,
    ) -> Result<bool, UpdateFault>
        ensures zone { Updates (message_outcome by_rfc None self.old.zone (update_of message.now)) result self.old.zone
            self.new.zone }
        ensures others { self.new ≡ record self.old { zone = self.new.zone } }
        ensures untouched { IfOk result (λ changed. changed ≡ false → self.new ≡ self.old) }
    {
        match self.verify_prerequisites(alloc, message.prerequisites()) {
            Err(fault) => Err(fault),
            Ok(()) => match self.pre_scan(message.updates()) {
                Err(code) => Err(UpdateFault::Code(code)),
                Ok(()) => self.update_records_by(alloc, message.updates(), true, by_rfc),
            },
        }
    }

    /// Makes the update that a request asks for (RFC 2136 section 3), with what the signer of the reply has to know.
    /// `now` is in seconds since 1970. What `by_rfc` says, `update_records_by` has.
    pub fn update_by(
        &mut self,
        alloc: Global,
        request: &Request,
        now: u64,
        by_rfc: bool,
    ) -> (Result<bool, UpdateFault>, Option<TSigResponseContext>)
        ensures { AnswersUpdate by_rfc V.Verifier self.old (request.now, now) result.0 result.1 self.new }
    {
        let (permission, context) = self.authorize_update(alloc, request, now);
        match permission {
            Err(fault) => (Err(fault), context),
            Ok(()) => {
                let answer = self.update_message(alloc, request.message(), by_rfc);
                let told = told_context(&answer, context);
                (answer, told)
            }
        }
    }

    /// Makes the update that a request asks for. An error is want of memory, after which the handler is as it was.
    fn update_one(&mut self, alloc: Global, request: &Request, now: u64) -> Result<(), AllocError>
        ensures { MatchResult result (λ _. UpdatesOne false V.Verifier (request.now, now) self.old self.new)
            (λ _. self.new ≡ self.old) }
    {
        let (answer, _) = self.update_by(alloc, request, now, false);
        match answer {
            Err(UpdateFault::Memory) => Err(AllocError),
            _ => Ok(()),
        }
    }

    /// Makes the updates that requests ask for, each at its moment in seconds since 1970, one after another. A request
    /// that is refused with a code leaves the zone as it was, and the next has its turn. Each takes time by its own
    /// records and the sets of their names, and not by the zone.
    ///
    /// # Errors
    ///
    /// Where memory is refused, the error is how many requests had their turn before: what they made is done, and the
    /// request that wanted the memory and those behind it made nothing.
    pub fn update_all(&mut self, alloc: Global, requests: &[(Request, u64)]) -> Result<(), usize>
        ensures all { IfOk result (λ _. UpdatesAll false V.Verifier requests.now self.old self.new) }
        ensures some { IfErr result (λ n. (n < length requests.now) ×
            UpdatesAll false V.Verifier (take n requests.now) self.old self.new) }
    {
        for (n, (request, now)) in requests.iter().enumerate() {
            let Ok(()) = self.update_one(alloc, request, *now) else {
                return Err(n);
            };
        }
        Ok(())
    }
}
