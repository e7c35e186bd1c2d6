//! What replies say, before they are signed and sent.

ghost use Rattle.std.specs.Prelude.{◌≡◌, [], None, false};
ghost use Rattle.std.specs.Option.{option_copied, option_to_list};
ghost use Rattle.std.specs.Iterator.Adapters.{chain_first, chain_first_done, chain_second, chain_second_done, once_item};
ghost use Rattle.std.specs.Slice.Iter.{iter_rest};
ghost use Rattle.hickory_base.specs.responses.Responses.{IsBuilt};
ghost use Rattle.hickory_catalog.specs.replies.Replies.{bare_contents, contents_of, error_contents};

use hickory_base::message_request::MessageRequest;
use hickory_base::message_response::{EmptySection, MessageResponse, MessageResponseBuilder};
use hickory_base::zone_store::RecordList;
use hickory_wire::{Boxed, Edns, Metadata, Record, ResponseCode};
use std::iter::{self, Chain};
use std::slice::{self, Iter};

/// What a reply says beside the questions and the EDNS of its request.
///
/// Contracts speak of it as `contents_of`.
#[derive(Drop)]
pub(crate) struct ReplyContents<'z> {
    /// The header but for its counts.
    pub metadata: Metadata,
    /// The answer section.
    pub answers: RecordList<'z>,
    /// What stands first in the authority section, if anything does before its records.
    pub soa: Option<Boxed<Record>>,
    /// The front of the records of the authority section.
    pub authorities: RecordList<'z>,
    /// The rest of the authority section.
    pub other_authorities: RecordList<'z>,
    /// The additional section.
    pub additionals: RecordList<'z>,
}

impl<'z> ReplyContents<'z> {
    /// Metadata and no records.
    pub fn bare(metadata: Metadata) -> ReplyContents<'z>
        ensures { contents_of result ≡ bare_contents metadata }
    {
        ReplyContents {
            metadata,
            answers: RecordList::empty(),
            soa: None,
            authorities: RecordList::empty(),
            other_authorities: RecordList::empty(),
            additionals: RecordList::empty(),
        }
    }

    /// What an error reply says: a response code, and no records.
    pub fn error(request: &Metadata, code: ResponseCode) -> ReplyContents<'z>
        ensures { contents_of result ≡ error_contents request.now code }
    {
        let mut metadata = Metadata::response_from_request(request);
        metadata.response_code = code;
        ReplyContents::bare(metadata)
    }

    /// What stands first in the authority section.
    fn soa(&self) -> &[Record]
        ensures { result.now ≡ option_to_list self.now.soa }
    {
        match &self.soa {
            None => &[],
            Some(soa) => slice::from_ref(soa.get()),
        }
    }
}

/// A reply whose records lie in its contents.
pub(crate) type Response<'q> = MessageResponse<
    'q,
    'q,
    Iter<'q, Record>,
    Chain<Iter<'q, Record>, Chain<Iter<'q, Record>, Iter<'q, Record>>>,
    EmptySection<'q>,
    Iter<'q, Record>,
>;

/// The reply to a request that says this, with this EDNS, and without a signature.
pub(crate) fn response<'q>(
    request: &'q MessageRequest,
    edns: Option<&'q Edns>,
    contents: &'q ReplyContents<'_>,
) -> Response<'q>
    ensures parts { IsBuilt (record { questions = request.now.queries; edns = option_copied edns.entry })
        contents.now.metadata result }
    ensures answers { iter_rest result.answers ≡ contents.now.answers }
    ensures first { iter_rest (chain_first result.authorities) ≡ option_to_list contents.now.soa }
    ensures second { iter_rest (chain_first (chain_second result.authorities)) ≡ contents.now.authorities }
    ensures third { iter_rest (chain_second (chain_second result.authorities)) ≡ contents.now.other_authorities }
    ensures undone { (chain_first_done result.authorities ≡ false) × (chain_second_done result.authorities ≡ false) }
    ensures undone_behind { (chain_first_done (chain_second result.authorities) ≡ false) ×
        (chain_second_done (chain_second result.authorities) ≡ false) }
    ensures soa { once_item result.soa ≡ None }
    ensures additionals { iter_rest result.additionals ≡ contents.now.additionals }
{
    let behind = contents
        .authorities
        .as_slice()
        .iter()
        .chain(contents.other_authorities.as_slice().iter());
    MessageResponseBuilder::new(&request.queries, edns).build(
        contents.metadata,
        contents.answers.as_slice().iter(),
        contents.soa().iter().chain(behind),
        iter::empty::<&Record>(),
        contents.additionals.as_slice().iter(),
    )
}
