//! The handlers of the server's chains.

use either::Either;
use hickory_catalog::catalog::Catalog;
use hickory_store::blocklist::BlocklistZoneHandler;
use signed_server::LeftToServer;
use std::rc::Rc;
use tsig::TsigVerifier;
use zones::Zone;

/// A handler of a chain: a zone, whose journal, if it has one, is in files of this type; or the list of blocked names
/// that all chains share.
pub type Handler<D> = Either<Zone<TsigVerifier, D>, Rc<BlocklistZoneHandler>>;

/// A catalog of such chains. A server with keys signs its replies.
pub type Zones<D> = Catalog<LeftToServer, Handler<D>>;
