//! Settings as strings of C.

ghost use Rattle.std.specs.Prelude.{◌≡◌, ◌==◌, ◌++◌, ◌∷◌, [], IfNone, IfOk, IfSome, OnOk, false, map, true};
ghost use Rattle.std.specs.List.{list_any};
ghost use Rattle.server_settings.specs.Settings.{said};
ghost use Rattle.server_settings.specs.Settings as settings;

use crate::reading::Setting;
use std::alloc::{AllocError, Global};

/// Whether a byte is zero.
fn is_zero(byte: u8) -> bool
    ensures { result ≡ (byte == 0) }
{
    byte == 0
}

/// Whether a byte of a text is zero.
fn has_zero(text: &[u8]) -> bool
    ensures { result ≡ list_any (λ byte. byte == 0) text.now }
{
    text.iter().any(|byte| is_zero(*byte))
}

/// Whether a byte of a setting is zero.
fn has_zero_in(setting: &Setting) -> bool
    ensures { result ≡ settings.has_zero (said setting.now) }
{
    has_zero(setting.name.as_bytes()) || has_zero(setting.value.as_bytes())
}

/// Puts a text last, and the byte 0 behind it.
fn put_ended(text: &[u8], written: &mut Vec<u8>) -> Result<(), AllocError>
    ensures { OnOk result (written.new.items ≡ written.old.items ++ text.now ++ 0 ∷ []) }
{
    written.extend_from_slice(text)?;
    written.push(0)?;
    Ok(())
}

/// Puts the name and the value of a setting last, each with the byte 0 behind it.
fn put_setting(setting: &Setting, written: &mut Vec<u8>) -> Result<(), AllocError>
    ensures { OnOk result (written.new.items ≡ written.old.items ++ settings.strings (said setting.now)) }
{
    put_ended(setting.name.as_bytes(), written)?;
    put_ended(setting.value.as_bytes(), written)
}

/// Whether a byte of one of these settings is zero.
fn has_zero_in_any(all: &[Setting]) -> bool
    ensures { result ≡ list_any (λ setting. settings.has_zero (said setting)) all.now }
{
    all.iter().any(|setting| has_zero_in(setting))
}

/// Puts the names and values of settings last, each with the byte 0 behind it.
fn put_settings(all: &[Setting], written: &mut Vec<u8>) -> Result<(), AllocError>
    ensures { OnOk result (written.new.items ≡ written.old.items ++ settings.strings_of (map said all.now)) }
{
    for i in 0..all.len() {
        put_setting(&all[i], written)?;
    }
    Ok(())
}

/// The names and values of settings, each with the byte 0 behind it, or `None` where one has that byte in it: C would
/// see its end there.
pub fn strings_of(alloc: Global, all: &[Setting]) -> Result<Option<Vec<u8>>, AllocError>
    ensures some { IfOk result (λ made. IfSome made (λ bytes. (bytes.items ≡ settings.strings_of (map said all.now)) ×
        (list_any (λ setting. settings.has_zero (said setting)) all.now ≡ false))) }
    ensures none { IfOk result (λ made.
        IfNone made (list_any (λ setting. settings.has_zero (said setting)) all.now ≡ true)) }
{
    if has_zero_in_any(all) {
        return Ok(None);
    }
    let mut written = Vec::new(alloc);
    put_settings(all, &mut written)?;
    Ok(Some(written))
}
