//! DNS messages in bytes: names, records, EDNS, reading and writing.
#![tactic(auto)]

pub mod name_laws;
mod serialize;
pub mod worked;

pub use serialize::reading::record_laws;
pub use serialize::writing::encoder::BinEncoder;
pub use serialize::writing::encoder_laws;
pub use serialize::writing::message_encoder::{
    ReplyParts, emit_message_parts, encode_message_parts, encode_message_parts_in,
};
pub use wire_messages::named_numbers;
pub use wire_messages::op::comparison_laws;
pub use wire_messages::op::edns::{Edns, EdnsOption, NSIDPayload};
pub use wire_messages::op::header::{Header, HeaderCounts, MessageType, Metadata};
pub use wire_messages::op::op_code::OpCode;
pub use wire_messages::op::query::Query;
pub use wire_messages::op::response_code::ResponseCode;
pub use wire_messages::protocol::Protocol;
pub use wire_messages::rr::dns_class::DNSClass;
pub use wire_messages::rr::key_sameness::key_comparisons;
pub use wire_messages::rr::rdata::{MX, RData, SOA};
pub use wire_messages::rr::record::{Proof, Record};
pub use wire_messages::rr::record_sameness::record_comparisons;
pub use wire_messages::rr::record_type::RecordType;
pub use wire_messages::rr::rr_key::RrKey;
pub use wire_messages::rr::tsig::{TSIG, TSigResponseContext, TSigResponseKind, TsigError};
pub use wire_messages::text::code_text::CodeTextError;
pub use wire_names::error::{DecodeError, NameError, ProtoError};
pub use wire_names::rr::domain::labels::Labels;
pub use wire_names::rr::domain::lower_name::LowerName;
pub use wire_names::rr::domain::name::Name;
pub use wire_names::values::boxed::Boxed;
pub use wire_names::values::items::Items;
pub use wire_names::values::octets::Octets;
pub use wire_names::values::short_octets::ShortOctets;
pub use wire_reading::op::lower_query::LowerQuery;
pub use wire_reading::op::message::Message;
pub use wire_reading::serialize::reading::additionals::Additionals;
pub use wire_reading::serialize::reading::decoder::BinDecoder;
pub use wire_reading::serialize::reading::{fault_laws, message_laws};
