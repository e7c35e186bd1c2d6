//! The settings of a server before its first message, and why one is not taken.

ghost use Rattle.std.specs.Prelude.{◌≡◌, IfOk, Some, option_copied};
ghost use Rattle.server_limits.specs.NetworkTexts.{IsNetworkText};
ghost use Rattle.served_zones.specs.Grants.{IsGrantOf};
ghost use Rattle.served_zones.specs.ServedZones.{IsApexText};
ghost use Rattle.served_keys.specs.ServedKeys.{IsKeyNamed};
ghost use Rattle.server.specs.Faults.{of_identifier, of_journal, of_key_name, of_keys, of_rule, of_zone};
ghost use Rattle.server.specs.Lists.{IsListOfText};
ghost use Rattle.server.specs.Notices.{IsSecondaryText, IsZoneText};
ghost use Rattle.server.specs.declared.settings.SettingFault.TheVariants as setting_fault;

use hickory_server::access::{IpNet, IpNetTextError};
use hickory_server::proto::{Name, NameError};
use hickory_server::store::blocklist::BlocklistZoneHandler;
use name_lists::ListReport;
use served_keys::files::KeysFault;
use served_keys::names::{KeyNameFault, key_named};
use served_notices::{Secondary, TargetFault, read_target};
use served_zones::chains::apex;
use served_zones::grants::{Grant, GrantFault, zone_grant};
use served_zones::identifier::IdentifierFault;
use served_zones::journals::JournalFault;
use served_zones::lists;
use served_zones::zone_files::ZoneFault;
use std::alloc::{AllocError, AllocFailed, Global};
use std::rc::Rc;
use std::str;
use thiserror::Error;
use tsig::Keys;

/// Why a setting is not taken.
#[derive(Clone, Copy, Debug, PartialEq, Eq, Error)]
pub enum SettingFault {
    /// A text is not the name of a zone.
    #[error("not the name of a zone")]
    ZoneName,
    /// There is a zone of this name.
    #[error("there is a zone of this name already")]
    ZoneTwice,
    /// A zone file is not taken.
    #[error("{0}")]
    Zone(ZoneFault),
    /// A list of blocked names blocks nothing: it is empty, or another kind of text.
    #[error("no line of the list gives a name")]
    NoNames,
    /// A text is not a network.
    #[error("{0}")]
    Network(IpNetTextError),
    /// A bound is no number of bytes that a reply over UDP may always have (RFC 1035 section 4.2.1).
    #[error("not a number from 512 to 65535")]
    MaxUdp,
    /// An identifier has more bytes than an option holds (RFC 6891 section 6.1.2).
    #[error("the identifier is too long")]
    LongIdentifier,
    /// A file of keys is not taken.
    #[error("{0}")]
    Keys(KeysFault),
    /// A text names no key.
    #[error("{0}")]
    KeyName(KeyNameFault),
    /// Two texts are no rule of a zone.
    #[error("{0}")]
    Rule(GrantFault),
    /// No zone of this name was added.
    #[error("there is no zone of this name")]
    NoZone,
    /// A rule is of no zone that was added.
    #[error("rule {number} of who may update is for a zone that is not served")]
    RuleWithoutZone {
        /// Which of the rules it is, from 1.
        number: usize,
    },
    /// The journal of a zone is not opened.
    #[error("{0}")]
    Journal(JournalFault),
    /// The zone has a journal.
    #[error("the zone has a journal already")]
    JournalTwice,
    /// A text is no server that can be told of changes.
    #[error("{0}")]
    Target(TargetFault),
    /// A word does not say who is told of changes.
    #[error("not yes, explicit or no")]
    NotifyMode,
    /// A text is not UTF-8.
    #[error("not UTF-8")]
    NotUtf8,
    /// Memory was refused.
    #[error("no memory")]
    Memory,
}

impl From<AllocError> for SettingFault {
    ghost from_gives = { λ _ e. e ≡ setting_fault.Memory };

    fn from(_e: AllocError) -> SettingFault {
        SettingFault::Memory
    }
}

impl<T: Drop> From<AllocFailed<T>> for SettingFault {
    ghost from_gives = { λ _ e. e ≡ setting_fault.Memory };

    fn from(_e: AllocFailed<T>) -> SettingFault {
        SettingFault::Memory
    }
}

impl From<ZoneFault> for SettingFault {
    ghost from_gives = { λ fault e. e ≡ of_zone fault };

    fn from(e: ZoneFault) -> SettingFault {
        match e {
            ZoneFault::Memory => SettingFault::Memory,
            other => SettingFault::Zone(other),
        }
    }
}

impl From<JournalFault> for SettingFault {
    ghost from_gives = { λ fault e. e ≡ of_journal fault };

    fn from(e: JournalFault) -> SettingFault {
        match e {
            JournalFault::Memory => SettingFault::Memory,
            other => SettingFault::Journal(other),
        }
    }
}

impl From<IdentifierFault> for SettingFault {
    ghost from_gives = { λ fault e. e ≡ of_identifier fault };

    fn from(e: IdentifierFault) -> SettingFault {
        match e {
            IdentifierFault::Long => SettingFault::LongIdentifier,
            IdentifierFault::Memory => SettingFault::Memory,
        }
    }
}

impl From<KeysFault> for SettingFault {
    ghost from_gives = { λ fault e. e ≡ of_keys fault };

    fn from(e: KeysFault) -> SettingFault {
        match e {
            KeysFault::Memory => SettingFault::Memory,
            other => SettingFault::Keys(other),
        }
    }
}

impl From<KeyNameFault> for SettingFault {
    ghost from_gives = { λ fault e. e ≡ of_key_name fault };

    fn from(e: KeyNameFault) -> SettingFault {
        match e {
            KeyNameFault::Memory => SettingFault::Memory,
            other => SettingFault::KeyName(other),
        }
    }
}

impl From<TargetFault> for SettingFault {
    ghost from_gives = { λ fault e. e ≡ setting_fault.Target fault };

    fn from(e: TargetFault) -> SettingFault {
        SettingFault::Target(e)
    }
}

impl From<GrantFault> for SettingFault {
    ghost from_gives = { λ fault e. e ≡ of_rule fault };

    fn from(e: GrantFault) -> SettingFault {
        match e {
            GrantFault::Memory => SettingFault::Memory,
            other => SettingFault::Rule(other),
        }
    }
}

/// Bytes as a text.
fn text_of(bytes: &[u8]) -> Result<&str, SettingFault>
    ensures { IfOk result (λ text. text.now ≡ bytes.now) }
{
    match str::from_utf8(bytes) {
        Ok(text) => Ok(text),
        Err(_) => Err(SettingFault::NotUtf8),
    }
}

/// The name that a text spells, with or without a dot at its end. The root is a single dot.
pub fn zone_name(alloc: Global, text: &[u8]) -> Result<Name, SettingFault>
    ensures { IfOk result (IsApexText text.now) }
{
    let text = text_of(text)?;
    match apex(alloc, text) {
        Ok(name) => Ok(name),
        Err(NameError::Text) => Err(SettingFault::ZoneName),
        Err(_) => Err(SettingFault::Memory),
    }
}

/// The name of a key of these that a text spells, with or without a dot at its end.
pub fn key_name(alloc: Global, keys: &Keys, text: &[u8]) -> Result<Name, SettingFault>
    ensures { IfOk result (IsKeyNamed keys.now text.now) }
{
    let text = text_of(text)?;
    Ok(key_named(alloc, keys, text)?)
}

/// The rule of a zone that two texts spell, whose key is one of these.
pub fn zone_rule(
    alloc: Global,
    keys: &Keys,
    zone: &[u8],
    rule: &[u8],
) -> Result<Grant, SettingFault>
    ensures { IfOk result (IsGrantOf keys.now zone.now rule.now) }
{
    let zone = text_of(zone)?;
    let rule = text_of(rule)?;
    Ok(zone_grant(alloc, keys, zone, rule)?)
}

/// The name of a zone that a text spells, if there is a text.
fn zone_if_any(alloc: Global, zone: Option<&[u8]>) -> Result<Option<Name>, SettingFault>
    ensures { IfOk result (IsZoneText (option_copied zone.entry)) }
{
    match zone {
        Some(text) => Ok(Some(zone_name(alloc, text)?)),
        None => Ok(None),
    }
}

/// The server that a text spells, which is told of the zone of this name, or of all zones.
pub fn secondary(alloc: Global, zone: Option<&[u8]>, text: &[u8]) -> Result<Secondary, SettingFault>
    ensures { IfOk result (IsSecondaryText (option_copied zone.entry) text.now) }
{
    let apex = zone_if_any(alloc, zone)?;
    let target = read_target(text_of(text)?)?;
    Ok(Secondary { apex, target })
}

/// The network that a text spells.
pub fn network(text: &[u8]) -> Result<IpNet, SettingFault>
    ensures { IfOk result (IsNetworkText text.now) }
{
    let text = text_of(text)?;
    match text.parse::<IpNet>() {
        Ok(network) => Ok(network),
        Err(fault) => Err(SettingFault::Network(fault)),
    }
}

/// The list of the names in a text, and what became of its lines.
pub fn blocklist(
    alloc: Global,
    text: &[u8],
) -> Result<(Rc<BlocklistZoneHandler>, ListReport), SettingFault>
    ensures { IfOk result (λ both. IsListOfText text.now both.1 (Some both.0.value)) }
{
    let mut list = lists::blocklist(alloc)?;
    let report = lists::add_names(alloc, &mut list, text)?;
    if report.taken() == 0 {
        return Err(SettingFault::NoNames);
    }
    Ok((Rc::new(alloc, list)?, report))
}
