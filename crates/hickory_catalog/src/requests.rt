//! Which requests are looked into.

ghost use Rattle.std.specs.Prelude.{◌≡◌};
ghost use Rattle.hickory_catalog.specs.requests.Requests.{header_fault, request_fault};

use hickory_base::message_request::MessageRequest;
use hickory_wire::{MessageType, OpCode, ResponseCode};

/// Why a message is no request, or none of the kind that is served.
fn header_fault(request: &MessageRequest) -> Option<ResponseCode>
    ensures { result ≡ header_fault request.now }
{
    match request.metadata.message_type {
        MessageType::Response => Some(ResponseCode::FORM_ERR),
        MessageType::Query => {
            let op_code = request.metadata.op_code.value();
            if op_code == OpCode::QUERY.value() || op_code == OpCode::UPDATE.value() {
                None
            } else {
                Some(ResponseCode::NOT_IMP)
            }
        }
    }
}

/// Why a request is not looked into: the response code that says so.
pub(crate) fn request_fault(request: &MessageRequest) -> Option<ResponseCode>
    ensures { result ≡ request_fault request.now }
{
    if request.version() == 0 {
        header_fault(request)
    } else {
        Some(ResponseCode::BAD_VERS)
    }
}
