//! Laws of requests, each the contract of a function with nothing to do.

ghost use Rattle.std.specs.Prelude.{◌≡◌, ℕ, List};
ghost use Rattle.std.specs.List.{flat_map};
ghost use Rattle.wire_messages.specs.serialize.writing.QuestionForm.{question_octets};
ghost use Rattle.wire_reading.specs.serialize.layout.WholeMessage.{MessageAt};
ghost use Rattle.hickory_base.specs.requests.RepeatableQuestions.{AreRepeatable, HasRepeatableQuestions};
ghost use Rattle.hickory_base.specs.requests.RequestReading.{IsQuestionSection, message_of};
ghost use Rattle.hickory_base.specs.requests.Requests.{ReceivedRequest};

/// The questions of a request that was read can be repeated in its reply as the bytes that they were sent in, where no
/// name of them leads into the header or runs on behind the last of them. So it is of questions that were sent in full,
/// without a compression pointer (RFC 1035 sections 4.1.2 and 4.1.4).
pub fn repeatable_questions()
    ensures read { (bytes : List ℕ) (request : ReceivedRequest) → MessageAt bytes (message_of request.message) →
        IsQuestionSection bytes request.message.queries →
        request.bytes ≡ bytes → AreRepeatable bytes request.message.queries.queries → HasRepeatableQuestions request }
    ensures in_full { (bytes : List ℕ) (request : ReceivedRequest) → MessageAt bytes (message_of request.message) →
        IsQuestionSection bytes request.message.queries →
        request.message.queries.bytes ≡ flat_map question_octets request.message.queries.queries →
        AreRepeatable bytes request.message.queries.queries }
{}
