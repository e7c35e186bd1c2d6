//! The chains of zones, and where they are put.

ghost use Rattle.std.specs.Prelude.{◌≡◌, ◌↔◌, Err, IfOk, IsNone, IsTrue, OnErr, Option, Some, option_map, true};
ghost use Rattle.wire_names.specs.rr.domain.DomainName.{DomainName};
ghost use Rattle.wire_names.specs.declared.error.NameError.TheVariants.{Text};
ghost use Rattle.wire_names.specs.rr.domain.NameOrder.{lower_name};
ghost use Rattle.hickory_catalog.specs.zones.Zones.{ChangesAt};
ghost use Rattle.served_zones.specs.ServedZones.{Chain, IsApexText, IsChain};

use crate::handler::{Handler, Zones};
use either::Either;
use hickory_server::proto::{LowerName, Name, NameError};
use hickory_store::blocklist::BlocklistZoneHandler;
use sqlite_disk::Disk;
use std::alloc::{AllocError, Global};
use std::rc::Rc;

/// The name of the apex of a zone, with or without a dot at its end; the root is a single dot.
///
/// # Errors
///
/// `NameError::Text`: the text is not a name. All else: an allocation failed.
pub fn apex(alloc: Global, text: &str) -> Result<Name, NameError>
    ensures spelled { IfOk result (IsApexText text.now) }
    ensures qualified { IfOk result (λ name. name.is_fqdn ≡ true) }
    ensures none { result ≡ Err Text → (apex : DomainName) → ¬ (IsApexText text.now apex) }
{
    if text == "." {
        return Ok(Name::root());
    }
    let mut name = Name::from_ascii(alloc, text)?;
    name.set_fqdn(true);
    Ok(name)
}

/// The chain of a zone: its handler, and after it the list of blocked names, if there is one. The list is consulted
/// about what the zone answers, so it changes only answers: transfers and updates are for the handler of the zone.
pub fn chain<D: Disk + Drop>(
    alloc: Global,
    zone: Handler<D>,
    list: Option<&Rc<BlocklistZoneHandler>>,
) -> Result<Vec<Handler<D>>, AllocError>
    ensures { IfOk result (λ chain. IsChain zone (option_map (λ it. it.now.value) list.entry) chain.items) }
{
    let mut chain = Vec::new(alloc);
    chain.push(zone)?;
    if let Some(list) = list {
        chain.push(Either::Right(list.clone()?))?;
    }
    Ok(chain)
}

/// Puts the chain of a zone at its apex, and returns whether there was none. After an error the catalog is as before.
pub fn put_chain<D: Disk + Drop>(
    alloc: Global,
    catalog: &mut Zones<D>,
    apex: &Name,
    chain: Vec<Handler<D>>,
) -> Result<bool, AllocError>
    ensures put { IfOk result (λ fresh. (was : Option Chain) ×
        ChangesAt catalog.old.zones (lower_name apex.now) was (Some chain.items) catalog.new.zones ×
        (IsTrue fresh ↔ IsNone was)) }
    ensures err { OnErr result (catalog.new.zones ≡ catalog.old.zones) }
    ensures others { catalog.new ≡ record catalog.old { zones = catalog.new.zones } }
{
    let name = LowerName::new(alloc, apex)?;
    match catalog.upsert(name, chain) {
        Ok(old) => Ok(old.is_none()),
        Err(_) => Err(AllocError),
    }
}
