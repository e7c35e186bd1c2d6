//! What the program is started with.

ghost use Rattle.std.specs.Prelude.{◌≡◌, ◌↔◌, [], Contains, codes, IfErr, IfOk, IfSome, IsNone, IsSome, MatchOption, OnOk, map, string_bytes};
ghost use Rattle.server_limits.specs.NetworkTexts.{IsNetworkText};
ghost use Rattle.serve_options.specs.declared.arguments.Wanted.TheVariants as wanted;
ghost use Rattle.serve_options.specs.Arguments.{ArgumentsSay, HasKeysForNames, IsBound, IsKeysFault, IsOfOneProcess, IsOptionsFault, IsUnknown, IsUpdateText, IsValueFault, IsWordFault, IsZoneText, OptionsSay, Takes, mode_word, names_with, names_with_value};

use server_limits::access_control::IpNet;
use std::alloc::{AllocError, AllocFailed, Global};
use thiserror::Error;

/// The option without a value.
const NO_GROUPS: &str = "--no-groups";

/// How requests come in and replies go out.
#[derive(Clone, Copy, Debug, PartialEq, Eq)]
pub enum Mode {
    /// The input is one datagram.
    Udp,
    /// The input is messages, each after its length (RFC 1035 section 4.2.2).
    Tcp,
    /// The input is lines, each with where a message comes from and its bytes.
    Lines,
}

/// What the value of an option is.
#[derive(Clone, Copy, Debug, PartialEq, Eq, Error)]
pub enum Wanted {
    /// The name of a zone and its file.
    #[error("NAME=FILE")]
    Zone,
    /// A file.
    #[error("FILE")]
    File,
    /// An address, or a network as 192.0.2.0/24.
    #[error("an address or a network")]
    Network,
    /// A text.
    #[error("TEXT")]
    Text,
    /// How many bytes a reply over UDP may have. A reply of 512 is always allowed (RFC 1035 section 4.2.1).
    #[error("a number from 512 to 65535")]
    Number,
    /// The name of a key.
    #[error("NAME")]
    Key,
    /// The name of a zone and a rule of who may update what.
    #[error("ZONE=KEY [zone|subdomain NAME|name NAME|self] [TYPE..]")]
    Rule,
}

/// Why the arguments are not taken.
#[derive(Clone, Copy, Debug, PartialEq, Eq, Error)]
pub enum ArgumentFault<'a> {
    /// A word is neither an option nor a mode.
    #[error("{word:?} is not an option or a mode; zone_serve --help lists both")]
    Unknown {
        /// The word.
        word: &'a str,
    },
    /// An option and its value are one word.
    #[error("\"{option}=..\" is not an option; write {option} {value}")]
    Joined {
        /// The option.
        option: &'a str,
        /// The value.
        value: &'a str,
    },
    /// An option is the last word.
    #[error("{option} has no value; expected {wanted}")]
    NoValue {
        /// The option.
        option: &'a str,
        /// What its value is.
        wanted: Wanted,
    },
    /// The value of an option is something else.
    #[error("{option}: {word:?} is not {wanted}")]
    Value {
        /// The option.
        option: &'a str,
        /// The word after it.
        word: &'a str,
        /// What its value is.
        wanted: Wanted,
    },
    /// An option that is taken once is there twice.
    #[error("{option} is given twice")]
    Twice {
        /// The option.
        option: &'a str,
    },
    /// `--version` or `--help` is not the only argument.
    #[error("{word} must be the only argument")]
    NotOnly {
        /// The word.
        word: &'a str,
    },
    /// The mode is not the last word.
    #[error("{word:?} comes after the mode, which must be the last argument")]
    AfterMode {
        /// The word after the mode.
        word: &'a str,
    },
    /// There is no mode.
    #[error("the mode is missing; expected udp, tcp or lines")]
    NoMode,
    /// A journal is asked for in `udp` or `tcp`.
    #[error("--journal needs the mode lines: in udp and tcp, several processes would write to the journal")]
    JournalMode,
    /// A key is named, and there is no file of keys.
    #[error("{option} needs --keys")]
    NoKeys {
        /// The option that names it.
        option: &'a str,
    },
    /// Memory was refused.
    #[error("no memory")]
    Memory,
}

impl<'a> From<AllocError> for ArgumentFault<'a> {
    fn from(_e: AllocError) -> ArgumentFault<'a> {
        ArgumentFault::Memory
    }
}

impl<'a, T: Drop> From<AllocFailed<T>> for ArgumentFault<'a> {
    fn from(_e: AllocFailed<T>) -> ArgumentFault<'a> {
        ArgumentFault::Memory
    }
}

/// A zone with a file: that of its records, or that of its journal.
#[derive(Clone, Copy)]
pub struct ZoneArgument<'a> {
    /// The name of its apex.
    pub name: &'a str,
    /// The file.
    pub file: &'a str,
    /// Which argument it is; the first is 1.
    pub place: usize,
}

/// A rule of who may update what in a zone.
#[derive(Clone, Copy)]
pub struct UpdateArgument<'a> {
    /// The name of its apex.
    pub zone: &'a str,
    /// The rule.
    pub rule: &'a str,
    /// Which argument it is; the first is 1.
    pub place: usize,
}

/// What the arguments say.
#[derive(Drop)]
pub struct Settings<'a> {
    /// The zones, in the order of the arguments.
    pub zones: Vec<ZoneArgument<'a>>,
    /// The files with lists of blocked names, in the order of the arguments.
    pub blocklists: Vec<&'a str>,
    /// The networks that may use the server.
    pub allowed: Vec<IpNet>,
    /// The networks that may not.
    pub denied: Vec<IpNet>,
    /// The networks that may have transfers.
    pub transfers_allowed: Vec<IpNet>,
    /// The networks that may not.
    pub transfers_denied: Vec<IpNet>,
    /// What identifies the server (RFC 5001), with its argument.
    pub identifier: Option<(&'a str, usize)>,
    /// How many bytes a reply over UDP has at most.
    pub max_udp: Option<u16>,
    /// The file of keys.
    pub keys: Option<&'a str>,
    /// The names of the keys that may have transfers from anywhere, each with its argument.
    pub transfer_keys: Vec<(&'a str, usize)>,
    /// Who may update what, in the order of the arguments.
    pub updates: Vec<UpdateArgument<'a>>,
    /// The journals of zones, in the order of the arguments.
    pub journals: Vec<ZoneArgument<'a>>,
    /// Whether zones hold no updates: each line is answered before the next is served.
    pub no_groups: bool,
    /// How requests come in and replies go out.
    pub mode: Mode,
}

/// The mode of this name.
fn mode_named(name: &str) -> Option<Mode>
    ensures { IfSome result (λ mode. name.now ≡ mode_word mode) }
{
    match name {
        "udp" => Some(Mode::Udp),
        "tcp" => Some(Mode::Tcp),
        "lines" => Some(Mode::Lines),
        _ => None,
    }
}

/// What the value of the option of this name is.
fn wanted_after(option: &str) -> Option<Wanted>
    ensures known { IfSome result (λ what. Contains (names_with what) option.now) }
    ensures variant { IsSome result ↔ Contains names_with_value option.now }
{
    match option {
        "--zone" | "--journal" => Some(Wanted::Zone),
        "--blocklist" | "--keys" => Some(Wanted::File),
        "--allow" | "--deny" | "--allow-transfer" | "--deny-transfer" => Some(Wanted::Network),
        "--nsid" => Some(Wanted::Text),
        "--max-udp" => Some(Wanted::Number),
        "--allow-transfer-key" => Some(Wanted::Key),
        "--allow-update" => Some(Wanted::Rule),
        _ => None,
    }
}

/// What is wrong with a word that is neither an option nor a mode.
fn unknown<'a>(word: &'a str) -> ArgumentFault<'a>
    ensures { IsUnknown word.now result }
{
    match word.split_once('=') {
        Some((option, value)) if wanted_after(option).is_some() => {
            ArgumentFault::Joined { option, value }
        }
        _ => ArgumentFault::Unknown { word },
    }
}

/// What is wrong with a word that is not an option with its value after it.
fn fault_of<'a>(word: &'a str) -> ArgumentFault<'a>
    ensures { IsWordFault word.now result }
{
    match word {
        "--version" | "--help" | "-h" => ArgumentFault::NotOnly { word },
        NO_GROUPS => ArgumentFault::NoMode,
        option => match wanted_after(option) {
            Some(wanted) => ArgumentFault::NoValue { option, wanted },
            None => unknown(word),
        },
    }
}

/// The network that the value of an option spells.
fn network<'a>(option: &'a str, text: &'a str) -> Result<IpNet, ArgumentFault<'a>>
    ensures spelled { IfOk result (IsNetworkText text.now) }
    ensures refused { IfErr result (IsValueFault option.now text.now wanted.Network) }
{
    match text.parse::<IpNet>() {
        Ok(network) => Ok(network),
        Err(_) => Err(ArgumentFault::Value {
            option,
            word: text,
            wanted: Wanted::Network,
        }),
    }
}

/// The bound on replies over UDP that the value of an option spells.
fn max_udp<'a>(option: &'a str, text: &'a str) -> Result<u16, ArgumentFault<'a>>
    ensures spelled { IfOk result (IsBound text.now) }
    ensures refused { IfErr result (IsValueFault option.now text.now wanted.Number) }
{
    match text.parse::<u16>() {
        Ok(size) if size >= 512 => Ok(size),
        _ => Err(ArgumentFault::Value {
            option,
            word: text,
            wanted: Wanted::Number,
        }),
    }
}

/// The zone and the file of the value of an option, which is the argument at this place.
fn zone_argument<'a>(
    option: &'a str,
    text: &'a str,
    place: usize,
) -> Result<ZoneArgument<'a>, ArgumentFault<'a>>
    ensures spelled { IfOk result (IsZoneText text.now) }
    ensures refused { IfErr result (IsValueFault option.now text.now wanted.Zone) }
{
    match text.split_once('=') {
        Some((name, file)) if !file.is_empty() => Ok(ZoneArgument { name, file, place }),
        _ => Err(ArgumentFault::Value {
            option,
            word: text,
            wanted: Wanted::Zone,
        }),
    }
}

/// The zone and the rule of the value of an option, which is the argument at this place.
fn update_argument<'a>(
    option: &'a str,
    text: &'a str,
    place: usize,
) -> Result<UpdateArgument<'a>, ArgumentFault<'a>>
    ensures spelled { IfOk result (IsUpdateText text.now) }
    ensures refused { IfErr result (IsValueFault option.now text.now wanted.Rule) }
{
    match text.split_once('=') {
        Some((zone, rule)) => Ok(UpdateArgument { zone, rule, place }),
        None => Err(ArgumentFault::Value {
            option,
            word: text,
            wanted: Wanted::Rule,
        }),
    }
}

impl<'a> Settings<'a> {
    /// No options.
    fn new(alloc: Global) -> Settings<'a>
        ensures { OptionsSay [] result }
    {
        Settings {
            zones: Vec::new(alloc),
            blocklists: Vec::new(alloc),
            allowed: Vec::new(alloc),
            denied: Vec::new(alloc),
            transfers_allowed: Vec::new(alloc),
            transfers_denied: Vec::new(alloc),
            identifier: None,
            max_udp: None,
            keys: None,
            transfer_keys: Vec::new(alloc),
            updates: Vec::new(alloc),
            journals: Vec::new(alloc),
            no_groups: false,
            mode: Mode::Lines,
        }
    }

    /// Takes `--no-groups`.
    fn put_no_groups(&mut self) -> Result<(), ArgumentFault<'a>>
        ensures { OnOk result (Takes (codes "--no-groups") [] self.old self.new) }
    {
        if self.no_groups {
            let option = NO_GROUPS;
            return Err(ArgumentFault::Twice { option });
        }
        self.no_groups = true;
        Ok(())
    }

    /// Takes the option of updates, or of journals, at this place, with its value.
    fn put_update(
        &mut self,
        option: &'a str,
        text: &'a str,
        place: usize,
    ) -> Result<(), ArgumentFault<'a>>
        ensures { OnOk result (Takes option.now text.now self.old self.new) }
    {
        let after = place.saturating_add(1);
        match option {
            "--allow-update" => self.updates.push(update_argument(option, text, after)?)?,
            "--journal" => self.journals.push(zone_argument(option, text, after)?)?,
            _ => return Err(fault_of(option)),
        }
        Ok(())
    }

    /// Takes the option of keys, or of updates, at this place, with its value.
    fn put_keys(
        &mut self,
        option: &'a str,
        text: &'a str,
        place: usize,
    ) -> Result<(), ArgumentFault<'a>>
        ensures { OnOk result (Takes option.now text.now self.old self.new) }
    {
        match option {
            "--keys" if self.keys.is_none() => self.keys = Some(text),
            "--allow-transfer-key" => { self.transfer_keys.push((text, place.saturating_add(1)))? }
            "--keys" => return Err(ArgumentFault::Twice { option }),
            _ => return self.put_update(option, text, place),
        }
        Ok(())
    }

    /// Takes the option of networks, or another one, at this place, with its value.
    fn put_network(
        &mut self,
        option: &'a str,
        text: &'a str,
        place: usize,
    ) -> Result<(), ArgumentFault<'a>>
        ensures { OnOk result (Takes option.now text.now self.old self.new) }
    {
        match option {
            "--allow" => self.allowed.push(network(option, text)?)?,
            "--deny" => self.denied.push(network(option, text)?)?,
            "--allow-transfer" => self.transfers_allowed.push(network(option, text)?)?,
            "--deny-transfer" => self.transfers_denied.push(network(option, text)?)?,
            _ => return self.put_keys(option, text, place),
        }
        Ok(())
    }

    /// Takes the option at this place, with its value.
    fn put(&mut self, option: &'a str, text: &'a str, place: usize) -> Result<(), ArgumentFault<'a>>
        ensures { OnOk result (Takes option.now text.now self.old self.new) }
    {
        let after = place.saturating_add(1);
        match option {
            "--zone" => self.zones.push(zone_argument(option, text, after)?)?,
            "--blocklist" => self.blocklists.push(text)?,
            "--nsid" if self.identifier.is_none() => self.identifier = Some((text, after)),
            "--max-udp" if self.max_udp.is_none() => self.max_udp = Some(max_udp(option, text)?),
            "--nsid" | "--max-udp" => return Err(ArgumentFault::Twice { option }),
            _ => return self.put_network(option, text, place),
        }
        Ok(())
    }

    /// The option that names a key without a file of keys, if one does.
    fn keys_fault(&self) -> Option<ArgumentFault<'a>>
        ensures { MatchOption result (HasKeysForNames self.now) (IsKeysFault self.now) }
    {
        let option = match (self.keys, self.updates.first(), self.transfer_keys.first()) {
            (None, Some(_), _) => "--allow-update",
            (None, None, Some(_)) => "--allow-transfer-key",
            _ => return None,
        };
        Some(ArgumentFault::NoKeys { option })
    }

    /// What is wrong with the options together, or with the journals for the mode, if anything is.
    fn journal_fault(&self) -> Option<ArgumentFault<'a>>
        ensures process { IsNone result → IsOfOneProcess self.now }
        ensures keys { IsNone result → HasKeysForNames self.now }
        ensures fault { IfSome result (IsOptionsFault self.now) }
    {
        match (self.mode, self.journals.first()) {
            (Mode::Lines, _) | (_, None) => self.keys_fault(),
            (_, Some(_)) => Some(ArgumentFault::JournalMode),
        }
    }

    /// What arguments say: options, each with its value, and then the mode.
    pub fn read(alloc: Global, arguments: &'a [String]) -> Result<Settings<'a>, ArgumentFault<'a>>
        ensures { IfOk result (ArgumentsSay (map string_bytes arguments.now)) }
    {
        let mut settings = Settings::new(alloc);
        let mut rest = arguments;
        let mut place = 1usize;
        while let [option, text, others @ ..] = rest {
            if let Some(_) = mode_named(option.as_str()) {
                let word = text.as_str();
                return Err(ArgumentFault::AfterMode { word });
            }
            if option.as_str() == NO_GROUPS {
                settings.put_no_groups()?;
                place = place.saturating_add(1);
                rest = &rest[1..];
            } else {
                settings.put(option.as_str(), text.as_str(), place)?;
                place = place.saturating_add(2);
                rest = others;
            }
        }
        let [mode] = rest else {
            return Err(ArgumentFault::NoMode);
        };
        match mode_named(mode.as_str()) {
            Some(mode) => settings.mode = mode,
            None => return Err(fault_of(mode.as_str())),
        }
        match settings.journal_fault() {
            None => Ok(settings),
            Some(fault) => Err(fault),
        }
    }
}
