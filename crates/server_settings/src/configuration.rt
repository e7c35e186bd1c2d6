//! A configuration file between strings of C.

ghost use Rattle.std.specs.Prelude.{IfOk};
ghost use Rattle.server_settings.specs.Settings.{IsConfiguration, said};
ghost use Rattle.server_settings.specs.Settings as settings;
ghost use Rattle.std.specs.Prelude.{◌≡◌, map};

use crate::fault::SettingsFault;
use crate::names::{NamesFault, names_of};
use crate::reading::{Setting, read_settings};
use crate::writing::strings_of;
use std::alloc::Global;
use thiserror::Error;

/// Why a configuration file is not taken.
#[derive(Debug, Drop, Error)]
pub enum ConfigurationFault {
    /// It gives no settings.
    #[error("{0}")]
    Settings(SettingsFault),
    /// The names of the options are no strings.
    #[error("{0}")]
    Names(NamesFault),
    /// A setting has the byte 0 in it.
    #[error("a value has a zero byte")]
    ZeroByte,
    /// Memory was refused.
    #[error("no memory")]
    Memory,
}

impl ConfigurationFault {
    /// Whether memory was refused, which says nothing of the file.
    pub fn is_memory(&self) -> bool {
        matches!(
            self,
            ConfigurationFault::Memory
                | ConfigurationFault::Settings(SettingsFault::Memory)
                | ConfigurationFault::Names(NamesFault::Memory)
        )
    }
}

/// The strings of these settings.
fn written(alloc: Global, all: &[Setting]) -> Result<Vec<u8>, ConfigurationFault>
    ensures { IfOk result (λ bytes. bytes.items ≡ settings.strings_of (map said all.now)) }
{
    match strings_of(alloc, all) {
        Ok(Some(bytes)) => Ok(bytes),
        Ok(None) => Err(ConfigurationFault::ZeroByte),
        Err(_) => Err(ConfigurationFault::Memory),
    }
}

/// The strings of the settings that a text gives these options.
fn read_and_write(
    alloc: Global,
    options: &[String],
    text: &[u8],
) -> Result<Vec<u8>, ConfigurationFault>
    ensures { IfOk result (λ bytes. settings.GivesStrings options.now text.now bytes.items) }
{
    let all = match read_settings(alloc, options, text) {
        Ok(all) => all,
        Err(e) => return Err(ConfigurationFault::Settings(e)),
    };
    let bytes = written(alloc, all.as_slice());
    drop(all);
    bytes
}

/// The settings of a configuration file ([`read_settings`]) as strings of C: the name and the value of each, with the
/// byte 0 behind both. `names` are the options that there are, each with the byte 0 behind it.
pub fn configuration(
    alloc: Global,
    names: &[u8],
    text: &[u8],
) -> Result<Vec<u8>, ConfigurationFault>
    ensures { IfOk result (λ bytes. IsConfiguration names.now text.now bytes.items) }
{
    let options = match names_of(alloc, names) {
        Ok(options) => options,
        Err(e) => return Err(ConfigurationFault::Names(e)),
    };
    let bytes = read_and_write(alloc, options.as_slice(), text);
    drop(options);
    bytes
}
