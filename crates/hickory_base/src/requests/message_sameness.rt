//! The law of the comparison of requests, as the contract of a function that does nothing.

ghost use Rattle.std.specs.Prelude.{◌≡◌, ◌↔◌, IsTrue};
ghost use Rattle.hickory_base.specs.requests.MessageSameness.{SameMessage};
ghost use Rattle.hickory_base.specs.declared.requests.message_request.MessageRequest.{MessageRequest as RequestMessage};

use crate::requests::message_request::MessageRequest;
use hickory_wire::comparison_laws::{
    edns_comparisons, header_comparisons, question_comparisons, signature_comparisons,
};
use hickory_wire::record_comparisons;

/// `==` on messages compares their fields: records as records compare, by neither TTL nor proof, names in any letter
/// case, the bytes of the questions as bytes, and EDNS in each of its fields.
pub fn message_comparisons()
    ensures { (a b : RequestMessage) → IsTrue (⟦<MessageRequest as PartialEq>⟧.eq a b) ↔ SameMessage a b }
{
    header_comparisons();
    question_comparisons();
    record_comparisons();
    signature_comparisons();
    edns_comparisons();
}
