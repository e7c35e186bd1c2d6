//! A list of blocked names before a zone.

ghost use Rattle.std.specs.Prelude.{◌≡◌, ◌∷◌, [], IfOk};
ghost use Rattle.either.specs.declared.Either.TheVariants.{Left, Right};
ghost use Rattle.wire_names.specs.rr.domain.NameOrder.{lower_name};

use hickory_server::proto::Name;
use hickory_server::store::blocklist::{
    AddError, BlocklistConfig, BlocklistZoneHandler, CountedReader,
};
use hickory_server::store::in_memory::InMemoryZoneHandler;
use hickory_server::zone_store::Either;
use std::alloc::{AllocFailed, Global};

/// The handler of a list of blocked names, or of a zone.
pub type Handler = Either<BlocklistZoneHandler, InMemoryZoneHandler>;

/// A handler for the zone of this apex that blocks the names that a text lists, a name a line.
pub fn blocking(alloc: Global, apex: Name, text: &str) -> Result<BlocklistZoneHandler, AddError>
    ensures { IfOk result (λ list. list.origin ≡ lower_name apex) }
{
    let Ok(mut list) = BlocklistZoneHandler::new(alloc, apex, BlocklistConfig::default()) else {
        return Err(AddError::Memory);
    };
    list.add(&mut CountedReader::new(text.as_bytes()))?;
    Ok(list)
}

/// The chain of a list and a zone: the list is asked first, and the zone where the list does not block.
pub fn chain_of(
    alloc: Global,
    list: BlocklistZoneHandler,
    zone: InMemoryZoneHandler,
) -> Result<Vec<Handler>, AllocFailed<Handler>>
    ensures { IfOk result (λ chain. chain.items ≡ Left list ∷ Right zone ∷ []) }
{
    let mut chain = Vec::new(alloc);
    chain.push(Either::Left(list))?;
    chain.push(Either::Right(zone))?;
    Ok(chain)
}
