//! The catalog: which zone answers a request, and with what reply.

ghost use Rattle.std.specs.Prelude.{◌≡◌, ◌↔◌, List, [], ◌∷◌, Some, None, IfOk, IfErr, OnErr, IsTrue, option_map};
ghost use Rattle.std.specs.List.{AllByRecursion};
ghost use Rattle.std.specs.Option.{option_copied};
ghost use Rattle.wire_messages.specs.serialize.writing.Reply.{Reply};
ghost use Rattle.hickory_base.specs.responses.Responses.{header_of};
ghost use Rattle.hickory_catalog.specs.zones.Find.{Finds};
ghost use Rattle.hickory_catalog.specs.queries.Queries.{ChainReplies, QueryAnswered};
ghost use Rattle.hickory_catalog.specs.replies.ReplyEdns.{reply_edns};
ghost use Rattle.hickory_catalog.specs.requests.Requests.{BelongsTo, RequestAnswered, RequestLeaves};
ghost use Rattle.hickory_catalog.specs.replies.Sending.{IsUntouched, Sends, SendsInOrder};
ghost use Rattle.hickory_catalog.specs.requests.Server.{server_of};
ghost use Rattle.hickory_catalog.specs.updates.Updates.{UpdateAnswered, UpdateLeaves};
ghost use Rattle.hickory_catalog.specs.transfers.WholeTransfers.{TransferReplies};
ghost use Rattle.hickory_catalog.specs.zones.Kept.{KeptAt};
ghost use Rattle.hickory_catalog.specs.zones.Zones.{AreInOrder, ChangesAt, HasZone};

use crate::edns::{cloned, reply_edns};
use crate::queries::{ZoneQuery, answer_by_given, answer_query};
use crate::requests::request_fault;
use crate::sending::send_error;
use crate::signer::ReplySigner;
use crate::updates::answer_update;
use crate::whole_transfers::answer_by_transfer;
use crate::zones::Zones;
use hickory_base::errors::CatalogError;
use hickory_base::server::{Request, RequestHandler, ResponseHandler, ResponseInfo};
use hickory_base::zone_store::ZoneHandler;
use hickory_wire::{Edns, LowerName, NSIDPayload, OpCode, ResponseCode};
use std::alloc::{AllocError, Global};

/// The zones that a server answers for, each with the chain of its handlers, what identifies the server, and what signs
/// its replies.
///
/// Its handlers are boxed, so that one chain may have handlers of several types; a catalog whose handlers are all of
/// one type may name that type. Contracts see `zones` as the list of zone apexes with their handlers, in the order of
/// names, `nsid` as bytes.
#[derive(Drop)]
pub struct Catalog<S: ReplySigner, H: ZoneHandler = Box<dyn ZoneHandler>> {
    pub(crate) zones: Zones<H>,
    nsid: Option<NSIDPayload>,
    pub(crate) signer: S,
}

impl<S: ReplySigner, H: ZoneHandler> Catalog<S, H> {
    ghost use Rattle.std.specs.Borrow.{sem};
    ghost use Rattle.hickory_catalog.specs.zones.Lending.{LendsFromCatalog};

    /// A catalog without zones and without an identifier. It takes no memory.
    pub fn new(alloc: Global, signer: S) -> Catalog<S, H>
        ensures { result ≡ record { zones = []; nsid = None; signer = signer } }
    {
        Catalog {
            zones: Zones::new(alloc),
            nsid: None,
            signer,
        }
    }

    /// Puts a chain of handlers at a zone apex, and hands back the chain that was there. The time grows with the
    /// logarithm of the number of zones.
    ///
    /// # Errors
    ///
    /// Where memory is refused, nothing changes and both arguments are handed back.
    pub fn upsert(
        &mut self,
        name: LowerName,
        handlers: Vec<H>,
    ) -> Result<Option<Vec<H>>, (LowerName, Vec<H>)>
        ensures changed { IfOk result
            (λ old. ChangesAt self.old.zones name (option_map (λ chain. chain.items) old)
            (Some handlers.items) self.new.zones) }
        ensures handed_back { IfErr result (λ both. both ≡ (name, handlers)) }
        ensures err { OnErr result (self.new.zones ≡ self.old.zones) }
        ensures others { self.new ≡ record self.old { zones = self.new.zones } }
    {
        self.zones.upsert(name, handlers)
    }

    /// Takes the chain of handlers at a zone apex away, if there is one, and hands it back. It takes no memory.
    pub fn remove(&mut self, name: &LowerName) -> Option<Vec<H>>
        ensures changed { ChangesAt self.old.zones name.now (option_map (λ chain. chain.items) result) None
            self.new.zones }
        ensures others { self.new ≡ record self.old { zones = self.new.zones } }
    {
        self.zones.remove(name)
    }

    /// The chain of handlers of the zone whose apex is this name, lent to be changed, or `None` if no zone has this
    /// apex. Letter case does not matter. Whatever is done to the chain, all other zones remain as they were. The time
    /// grows with the logarithm of the number of zones. It takes no memory.
    pub fn zone_mut(&mut self, apex: &LowerName) -> Option<&mut Vec<H>>
        ensures* writes_back { sem 𝓛 (LendsFromCatalog S.row H.row self.entry apex.now result) }
        ensures value { KeptAt self.old.zones apex.now (option_map (λ chain. chain.now.items) result) }
    {
        self.zones.zone_mut(apex)
    }

    /// Whether there is a zone of this apex.
    pub fn contains(&self, name: &LowerName) -> bool
        ensures { IsTrue result ↔ HasZone self.now.zones name.now }
    {
        self.zones.contains(name)
    }

    /// The chain of handlers of the zone that answers for a name: for a fully qualified name the fully qualified zone
    /// nearest above it or at it (RFC 1034 section 4.3.2, step 2), and for another name the zone of that very name.
    #[inline(always)]
    pub fn find(&self, name: &LowerName) -> Result<Option<&Vec<H>>, AllocError>
        ensures found { IfOk result (λ found.
            Finds self.now.zones name.now (option_map (λ chain. chain.now.items) found)) }
        ensures ordered { AreInOrder self.now.zones }
    {
        self.zones.find(name)
    }

    /// The zones stand in the order of their names, each name once, as those of any catalog do. It does nothing: laws
    /// of zones ask for this.
    pub fn zones_in_order(&self)
        ensures { AreInOrder self.now.zones }
    {
        self.zones.in_order();
    }

    /// Sets what identifies the server (RFC 5001), or that nothing does. It takes no memory.
    pub fn set_nsid(&mut self, payload: Option<NSIDPayload>)
        ensures { self.new ≡ record self.old { nsid = payload } }
    {
        self.nsid = payload;
    }

    /// What identifies the server, if anything does.
    pub fn nsid(&self) -> Option<&NSIDPayload>
        ensures { option_copied result ≡ self.now.nsid }
    {
        self.nsid.as_ref()
    }

    /// Answers a query by the handlers of its zone, and hands the sink one reply, or those of a transfer, with this
    /// EDNS. `now` is in seconds since 1970. QR, opcode and EDNS version of the request are not looked at. The reply's
    /// OPT record has the high bits of its response code (RFC 6891 section 6.1.3).
    ///
    /// Where there is not just one question the reply is FormErr, where no zone answers for the name Refused. Else the
    /// handlers of the zone are asked from left to right until one answers; after its `Continue` each other one is
    /// consulted, from left to right, about the answer so far, and where nobody answers in the end the reply is
    /// ServFail. The handler that was asked makes the reply: a primary or secondary one with AA, with denials where
    /// they are wanted (RFC 4035 section 3.1.3) and the SOA of the zone in a negative reply (RFC 2308 section 3), an
    /// external one with RA, judged by DNSSEC proofs where it validates (RFC 4035 section 3.2); without RD its reply is
    /// Refused. Searches and further lookups are told DO of the request's EDNS, consults DO of the reply's.
    ///
    /// A transfer, of type AXFR, is asked of the handlers from left to right until one gives it or says why not; where
    /// none does, the reply is ServFail. The reply has AA and the records of the zone as answers (RFC 5936 section
    /// 2.2), or a code without AA and without records. A transfer that is given over another transport than UDP,
    /// without a context for the signer, is sent in as many replies as it takes, which say the same but for their
    /// answers: each takes the next records as long as it fits 65,535 bytes with every name in full, and one at least.
    ///
    /// Where the answer came with a context for the signer, the reply is written without a signature, within 65,535
    /// bytes, and signed (RFC 8945 section 5.3). Where it cannot be written, or the signer fails, it is ServFail
    /// without records and without a signature. ServFail for want of an answer is not signed.
    ///
    /// Where the sink fails the answer tells of ServFail, and no further reply is handed over.
    ///
    /// # Errors
    ///
    /// `Memory` says that no reply was handed over.
    pub fn lookup<R: ResponseHandler>(
        &self,
        alloc: Global,
        request: &Request,
        edns: Option<&Edns>,
        now: u64,
        sink: &mut R,
    ) -> Result<ResponseInfo, CatalogError>
        ensures replied { IfOk result (λ info. (replies : List Reply) ×
            QueryAnswered (server_of H.ZoneHandler S.signature_for self.now) request.now
            (option_copied edns.entry) now replies self.now.zones ×
            AllByRecursion (BelongsTo request.now (option_copied edns.entry)) replies ×
            SendsInOrder R.ResponseHandler request.now.message.metadata sink.old sink.new replies (header_of info)) }
        ensures refused { IfErr result (λ e. (e ≡ CatalogError.Memory) ×
            IsUntouched R.ResponseHandler sink.old sink.new) }
    {
        let mut edns = cloned(edns)?;
        answer_query(self, alloc, request, &mut edns, now, sink)
    }

    /// Answers a query by this chain of handlers, whichever zone is nearest to its name, as `handle_request` answers a
    /// query of the zone that has this chain, and hands the sink one reply, or those of a transfer. So a server answers
    /// a query for the DS records of an apex by the zone above it (RFC 4035 section 3.1.4.1). QR, opcode and EDNS
    /// version of the request are not looked at.
    ///
    /// If there is not just one question, the reply is FormErr. `Memory` says that no reply was handed over.
    pub fn lookup_by<R: ResponseHandler>(
        &self,
        chain: &[H],
        alloc: Global,
        request: &Request,
        now: u64,
        sink: &mut R,
    ) -> Result<ResponseInfo, CatalogError>
        ensures replied { IfOk result (λ info. (replies : List Reply) ×
            ChainReplies (server_of H.ZoneHandler S.signature_for self.now) chain.now request.now
            (reply_edns self.now.nsid request.now.message.edns) now replies ×
            SendsInOrder R.ResponseHandler request.now.message.metadata sink.old sink.new replies (header_of info)) }
        ensures refused { IfErr result (λ e. (e ≡ CatalogError.Memory) ×
            IsUntouched R.ResponseHandler sink.old sink.new) }
    {
        let message = request.message();
        let mut edns = reply_edns(alloc, self.nsid(), message.edns.as_ref())?;
        let info = match request.request_info() {
            Ok(info) => info,
            Err(_) => return Ok(send_error(
                sink,
                alloc,
                message,
                &mut edns,
                ResponseCode::FORM_ERR,
            )),
        };
        let asked = ZoneQuery {
            catalog: self,
            chain,
            alloc,
            request,
            query: info.query,
            moment: now,
        };
        answer_by_given(&asked, &mut edns, sink)
    }

    /// Answers a query by a transfer of the whole zone of its name, whatever type it asks for, as `handle_request`
    /// answers one of type AXFR, and hands the sink the replies, which repeat the question as it was asked. So a server
    /// answers an IXFR of which it has no increments (RFC 1995 section 4). QR, opcode and EDNS version of the request
    /// are not looked at.
    ///
    /// Where there is not just one question the reply is FormErr, where no zone answers for the name Refused, and where
    /// no handler gives the transfer or says why not ServFail. `Memory` says that no reply was handed over.
    pub fn transfer<R: ResponseHandler>(
        &self,
        alloc: Global,
        request: &Request,
        now: u64,
        sink: &mut R,
    ) -> Result<ResponseInfo, CatalogError>
        ensures replied { IfOk result (λ info. (replies : List Reply) ×
            TransferReplies (server_of H.ZoneHandler S.signature_for self.now) request.now
            (reply_edns self.now.nsid request.now.message.edns) now replies ×
            SendsInOrder R.ResponseHandler request.now.message.metadata sink.old sink.new replies (header_of info)) }
        ensures refused { IfErr result (λ e. (e ≡ CatalogError.Memory) ×
            IsUntouched R.ResponseHandler sink.old sink.new) }
    {
        let mut edns = reply_edns(alloc, self.nsid(), request.message().edns.as_ref())?;
        answer_by_transfer(self, alloc, request, &mut edns, now, sink)
    }

    /// Answers a dynamic update (RFC 2136) by the first handler of its zone, and hands the sink one reply, with this
    /// EDNS. `now` is in seconds since 1970. QR, opcode and EDNS version of the request are not looked at. The reply's
    /// OPT record has the high bits of its response code (RFC 6891 section 6.1.3).
    ///
    /// Where there is not just one question of type SOA the reply is FormErr, where its name is not itself the apex of
    /// a zone NotAuth (RFC 2136 section 3.1), and where the zone has no handlers ServFail. The class of the zone is not
    /// looked at. Else the first handler of the zone decides alone: a secondary one is answered NotImp, an external one
    /// NotAuth, and a primary one makes the update or says why not. Nothing is forwarded (section 6). The reply has the
    /// id of the request, opcode Update, the code and no records (section 3.8); of what a handler answered it has no
    /// other flag than QR, of what the catalog answers itself the request's RD and CD too. It is signed as those of
    /// `lookup` are.
    ///
    /// Where the sink fails the answer tells of ServFail, and an update that was made stands.
    ///
    /// # Errors
    ///
    /// `Memory` says that nothing changed and no reply was handed over, `MemoryAfterUpdate` that the handler made the
    /// update, which stands, and no reply was handed over.
    pub fn update<R: ResponseHandler>(
        &mut self,
        alloc: Global,
        request: &Request,
        edns: Option<&Edns>,
        now: u64,
        sink: &mut R,
    ) -> Result<ResponseInfo, CatalogError>
        ensures replied { IfOk result (λ info. (reply : Reply) ×
            UpdateAnswered (server_of H.ZoneHandler S.signature_for self.old) request.now (option_copied edns.entry) now
            (reply ∷ []) self.new.zones × BelongsTo request.now (option_copied edns.entry) reply ×
            Sends R.ResponseHandler request.now.message.metadata sink.old sink.new reply (header_of info)) }
        ensures refused { IfErr result
            (λ e. UpdateLeaves (server_of H.ZoneHandler S.signature_for self.old) request.now now e self.new.zones ×
            IsUntouched R.ResponseHandler sink.old sink.new) }
        ensures others { self.new ≡ record self.old { zones = self.new.zones } }
    {
        let mut copy = cloned(edns)?;
        answer_update(self, alloc, request, &mut copy, now, sink)
    }
}

impl<S: ReplySigner, H: ZoneHandler> RequestHandler for Catalog<S, H> {
    /// Hands the sink one reply, or those of a transfer. Where the request has an OPT record, so has the reply: version
    /// 0, DO as asked, the payload that was asked for but at least 512 bytes, and the server's identifier where it is
    /// set and the request asks for it (RFC 6891 section 6, RFC 5001).
    ///
    /// An EDNS version but 0 is answered BADVERS, a message with QR set FormErr, an opcode but Query and Update NotImp;
    /// what is wrong first decides. A query is answered as `lookup` does with that EDNS, and an update as `update`
    /// does. Only an update changes a zone.
    ///
    /// The reply has the request's id, and an OPT record just where the request has one. TC is set only where it is cut
    /// when it is written.
    ///
    /// # Errors
    ///
    /// `Memory` says that nothing changed and no reply was handed over, `MemoryAfterUpdate` that an update was made,
    /// which stands, and no reply was handed over.
    fn handle_request<R: ResponseHandler>(
        &mut self,
        alloc: Global,
        request: &Request,
        now: u64,
        sink: &mut R,
    ) -> Result<ResponseInfo, CatalogError>
        ensures replied { IfOk result (λ info. (replies : List Reply) ×
            RequestAnswered (server_of H.ZoneHandler S.signature_for self.old) request.now now replies self.new.zones ×
            AllByRecursion (BelongsTo request.now request.now.message.edns) replies ×
            SendsInOrder R.ResponseHandler request.now.message.metadata sink.old sink.new replies (header_of info)) }
        ensures refused { IfErr result
            (λ e. RequestLeaves (server_of H.ZoneHandler S.signature_for self.old) request.now now e self.new.zones ×
            IsUntouched R.ResponseHandler sink.old sink.new) }
        ensures others { self.new ≡ record self.old { zones = self.new.zones } }
    {
        let message = request.message();
        let mut edns = reply_edns(alloc, self.nsid(), message.edns.as_ref())?;
        if let Some(code) = request_fault(message) {
            return Ok(send_error(sink, alloc, message, &mut edns, code));
        }
        if message.metadata.op_code.value() == OpCode::UPDATE.value() {
            answer_update(self, alloc, request, &mut edns, now, sink)
        } else {
            answer_query(self, alloc, request, &mut edns, now, sink)
        }
    }
}
