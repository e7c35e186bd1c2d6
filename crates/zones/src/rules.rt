//! Whether the rules of a zone grant an update, and the answer if they do not.

ghost use Rattle.std.specs.Prelude.{◌≡◌, ◌↔◌, IsTrue, unwrap_or};
ghost use Rattle.wire_messages.specs.Numbers.{code_refused};
ghost use Rattle.hickory_store.specs.updates.Permission.{update_permission};
ghost use Rattle.hickory_store.specs.updates.Prescan.{prescan_refusal};
ghost use Rattle.zones.specs.ZoneUpdates.{IsGrantedTo, IsRefusedByRules};

use crate::zone::Zone;
use durable_updates::UpdateAnswer;
use hickory_base::errors::UpdateFault;
use hickory_base::server::Request;
use hickory_base::update_request::UpdateRequest;
use hickory_base::zone_store::ZoneHandler;
use hickory_store::updates::Verifier;
use hickory_wire::ResponseCode;
use sqlite_disk::Disk;
use std::alloc::Global;

impl<V: Verifier, D: Disk + Drop> Zone<V, D> {
    /// Whether the rules grant each change that a request asks for to the key of its signature.
    pub(crate) fn is_granted(&self, request: &Request) -> bool
        ensures { IsTrue result ↔ IsGrantedTo self.now request.now }
    {
        let Some(signature) = &request.message().signature else {
            return false;
        };
        let key = &signature.get().name;
        let zone = self.updatable().origin().as_name();
        self.policy
            .grants_all(key, zone, request.message().updates())
    }

    /// The code of an update whose signature is good, and which the rules do not grant: that of the first record that no
    /// zone takes, as one whose owner name is outside of the zone (RFC 2136 section 3.4.1.3), else REFUSED.
    fn ungranted(&self, request: &Request) -> ResponseCode
        ensures { result ≡ unwrap_or
            (prescan_refusal self.now.updatable.zone.origin request.now.message.authorities) code_refused }
    {
        match self.updatable().pre_scan(request.message().updates()) {
            Ok(()) => ResponseCode::REFUSED,
            Err(code) => code,
        }
    }

    /// The answer to an update that the rules do not grant: the refusal of its signature, if that is refused, else the
    /// code of the first record that no zone takes, else REFUSED (RFC 2136 section 3.3). It takes memory for what the
    /// signer of the reply has to know.
    pub(crate) fn refusal(&self, alloc: Global, request: &Request, now: u64) -> UpdateAnswer
        ensures { IsRefusedByRules self.now.updatable.zone.origin request.now (update_permission V.Verifier
            self.now.updatable.verifier self.now.updatable.allow_update request.now now) result.0 result.1 }
    {
        let (permission, context) = self.updatable().authorize_update(alloc, request, now);
        match permission {
            Ok(()) => {
                let code = self.ungranted(request);
                (Err(UpdateFault::Code(code)), context)
            }
            Err(fault) => (Err(fault), context),
        }
    }
}
