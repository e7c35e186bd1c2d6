//! Messages in bytes and what they are made of: under the paths of `hickory-proto`, and each by its own name.

pub mod op;
pub mod rr;
pub mod serialize;
pub mod xfer;

pub use hickory_wire::{
    Additionals, BinDecoder, BinEncoder, Boxed, CodeTextError, DNSClass, DecodeError, Edns,
    EdnsOption, Header, HeaderCounts, Items, Labels, LowerName, LowerQuery, MX, Message,
    MessageType, Metadata, NSIDPayload, Name, NameError, Octets, OpCode, Proof, ProtoError,
    Protocol, Query, RData, Record, RecordType, ReplyParts, ResponseCode, SOA, TSIG,
    TSigResponseContext, TSigResponseKind, TsigError, comparison_laws, emit_message_parts,
    encode_message_parts, encode_message_parts_in, encoder_laws, fault_laws, message_laws,
    name_laws, named_numbers, record_comparisons, record_laws, worked,
};
