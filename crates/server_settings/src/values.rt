//! What the values of a document are as texts.

ghost use Rattle.std.specs.Prelude.{◌≡◌, ◌++◌, ◌∷◌, [], IfOk, None, Some, OnOk, MatchOption, codes, map, option_map, string_bytes, true, false};
ghost use Rattle.server_settings.specs.Settings.{said, settings_under, text_of, digits_of, texts_of_items, texts_of_members, under, with_text};
ghost use Rattle.toml.specs.View.{view, array_view, table_view};

use crate::reading::Setting;
use crate::zones::put_zones;
use std::alloc::{AllocError, Global};
use toml::Value;
use toml::value::{Array, Table};

/// The digits of a whole number that is not negative.
fn digits_of(alloc: Global, number: i64) -> Result<Option<String>, AllocError>
    ensures { IfOk result (λ found. option_map string_bytes found ≡ digits_of number) }
{
    match u64::try_from(number) {
        Ok(number) => {
            let mut buffer = itoa::Buffer::new();
            Ok(Some(String::from_str(alloc, buffer.format(number))?))
        }
        Err(_) => Ok(None),
    }
}

/// What one value is as text.
pub(crate) fn text_of(alloc: Global, value: &Value) -> Result<Option<String>, AllocError>
    ensures { IfOk result (λ found. option_map string_bytes found ≡ text_of (view value.now)) }
{
    match value {
        Value::String(text) => Ok(Some(text.clone()?)),
        Value::Integer(number) => digits_of(alloc, *number),
        _ => Ok(None),
    }
}

/// Puts a setting last.
pub(crate) fn put_text(
    alloc: Global,
    name: &str,
    value: String,
    settings: &mut Vec<Setting>,
) -> Result<(), AllocError>
    ensures { IfOk result (λ _. map said settings.new.items ≡ map said settings.old.items ++ under name.now
        (string_bytes value ∷ [])) }
{
    match String::from_str(alloc, name) {
        Ok(name) => {
            settings.push(Setting { name, value })?;
            Ok(())
        }
        Err(e) => {
            drop(value);
            Err(e)
        }
    }
}

/// Puts a setting last of each item of an array. Tells whether each is a text or a number; else settings may have been
/// put.
fn put_items(
    alloc: Global,
    name: &str,
    items: &Array,
    settings: &mut Vec<Setting>,
) -> Result<bool, AllocError>
    ensures { IfOk result (λ taken. MatchOption (texts_of_items (array_view items.now)) (taken ≡ false)
        (λ texts. (taken ≡ true) × (map said settings.new.items ≡ map said settings.old.items ++ under name.now
        texts))) }
{
    for item in items {
        match text_of(alloc, item)? {
            Some(text) => put_text(alloc, name, text, settings)?,
            None => return Ok(false),
        }
    }
    Ok(true)
}

/// The text `KEY=TEXT`.
pub(crate) fn assigned(alloc: Global, key: &str, text: &str) -> Result<String, AllocError>
    ensures { IfOk result (λ made. string_bytes made ≡ key.now ++ codes "=" ++ text.now) }
{
    let mut made = String::from_str(alloc, key)?;
    made.push_str("=")?;
    made.push_str(text)?;
    Ok(made)
}

/// Puts a setting last of each member of a table. Tells whether each is a text or a number; else settings may have been
/// put.
fn put_members(
    alloc: Global,
    name: &str,
    members: &Table,
    settings: &mut Vec<Setting>,
) -> Result<bool, AllocError>
    ensures { IfOk result (λ taken. MatchOption (texts_of_members (table_view members.now)) (taken ≡ false)
        (λ texts. (taken ≡ true) × (map said settings.new.items ≡ map said settings.old.items ++ under name.now
        texts))) }
{
    for (key, member) in members.iter() {
        match text_of(alloc, member)? {
            Some(text) => put_text(
                alloc,
                name,
                assigned(alloc, key.as_str(), text.as_str())?,
                settings,
            )?,
            None => return Ok(false),
        }
    }
    Ok(true)
}

/// Puts the settings of an option last that has this value, which is no array. Tells whether the value is of a kind
/// that gives it any; else settings may have been put.
pub(crate) fn put_one(
    alloc: Global,
    name: &str,
    value: &Value,
    settings: &mut Vec<Setting>,
) -> Result<bool, AllocError>
    ensures { IfOk result (λ taken. MatchOption (with_text (text_of (view value.now)) (Some [])) (taken ≡ false)
        (λ texts. (taken ≡ true) × (map said settings.new.items ≡ map said settings.old.items ++ under name.now
        texts))) }
{
    match text_of(alloc, value)? {
        Some(text) => {
            put_text(alloc, name, text, settings)?;
            Ok(true)
        }
        None => Ok(false),
    }
}

/// Puts the settings of an option last that has this value. Tells whether the value is of a kind that gives it any;
/// else settings may have been put.
pub(crate) fn put_values(
    alloc: Global,
    name: &str,
    value: &Value,
    settings: &mut Vec<Setting>,
) -> Result<bool, AllocError>
    ensures { IfOk result (λ taken. MatchOption (settings_under name.now (view value.now)) (taken ≡ false)
        (λ those. (taken ≡ true) × (map said settings.new.items ≡ map said settings.old.items ++ those))) }
{
    match value {
        Value::Array(items) => {
            if name == "zone" {
                put_zones(alloc, items, settings)
            } else {
                put_items(alloc, name, items, settings)
            }
        }
        Value::Table(members) => put_members(alloc, name, members, settings),
        one => put_one(alloc, name, one, settings),
    }
}
