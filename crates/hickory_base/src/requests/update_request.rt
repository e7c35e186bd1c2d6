//! Requests as dynamic updates (RFC 2136 section 2).

ghost use Rattle.std.specs.Prelude.{◌≡◌};

use crate::errors::LookupError;
use crate::requests::message_request::MessageRequest;
use crate::responses::message_response::borrowed;
use hickory_wire::{LowerQuery, Record, TSIG};

/// A message whose sections are those of an update.
pub trait UpdateRequest {
    ghost use Rattle.std.specs.Prelude.{◌≡◌, Ok, Err, IfOk, IfErr};
    ghost use Rattle.std.specs.Option.{option_copied};
    ghost use Rattle.hickory_base.specs.requests.Questions.{one_query};
    ghost use Rattle.hickory_base.specs.requests.Updates.{UpdateMessage};

    ghost update: { Self → UpdateMessage };

    /// The id of the message.
    fn id(&self) -> u16
        ensures { result ≡ (update self.now).id };

    /// The question that names the zone (RFC 2136 section 2.3). Where there is not just one question, `BadQueryCount`
    /// tells how many.
    fn zone(&self) -> Result<&LowerQuery, LookupError>
        ensures ok { IfOk result (λ zone. one_query (update self.now).zones ≡ Ok zone.now) }
        ensures err { IfErr result (λ e. one_query (update self.now).zones ≡ Err e) };

    /// What has to hold of the zone before (RFC 2136 section 2.4).
    fn prerequisites(&self) -> &[Record]
        ensures { result.now ≡ (update self.now).prerequisites };

    /// The changes (RFC 2136 section 2.5).
    fn updates(&self) -> &[Record]
        ensures { result.now ≡ (update self.now).updates };

    /// The additional section without OPT and TSIG (RFC 2136 section 2.6).
    fn additionals(&self) -> &[Record]
        ensures { result.now ≡ (update self.now).additionals };

    /// The TSIG record (RFC 8945).
    fn signature(&self) -> Option<&Record<TSIG>>
        ensures { option_copied result ≡ (update self.now).signature };
}

impl UpdateRequest for MessageRequest {
    ghost use Rattle.hickory_base.specs.requests.Updates.{update_of};

    ghost update = { update_of };

    fn id(&self) -> u16 {
        self.metadata.id
    }

    fn zone(&self) -> Result<&LowerQuery, LookupError> {
        self.queries.try_as_query()
    }

    fn prerequisites(&self) -> &[Record] {
        self.answers.as_slice()
    }

    fn updates(&self) -> &[Record] {
        self.authorities.as_slice()
    }

    fn additionals(&self) -> &[Record] {
        self.additionals.as_slice()
    }

    fn signature(&self) -> Option<&Record<TSIG>> {
        borrowed(&self.signature)
    }
}
