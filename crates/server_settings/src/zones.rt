//! Zones of a document that are tables, as settings.

ghost use Rattle.std.specs.Prelude.{◌≡◌, ◌++◌, ◌∷◌, [], IfOk, MatchOption, codes, map, option_map, string_bytes, true, false};
ghost use Rattle.server_settings.specs.Settings.{has_only, is_of_zone, is_one_of, is_table_of, is_table_of_zone, of_zone_only, rule_text, rule_texts, rules_in, said, text_at, transfer_rules, under, update_text, update_texts, updates_in, words_in, words_of, zone_of_table, zone_settings, zones_settings};
ghost use Rattle.toml.specs.View.{array_view, table_view, view};

use crate::reading::Setting;
use crate::values::{assigned, put_one, put_text, text_of};
use std::alloc::{AllocError, Global};
use toml::Value;
use toml::value::{Array, Table};

/// Whether a key is one of three.
fn is_one_of(key: &str, a: &str, b: &str, c: &str) -> bool
    ensures { result ≡ is_one_of key.now a.now b.now c.now }
{
    key == a || key == b || key == c
}

/// Whether no key of a table is any other than three.
fn has_only(members: &Table, a: &str, b: &str, c: &str) -> bool
    ensures { result ≡ has_only a.now b.now c.now (table_view members.now) }
{
    for (key, _) in members.iter() {
        if !is_one_of(key.as_str(), a, b, c) {
            return false;
        }
    }
    true
}

/// Whether a value is a table without any other key than three.
fn is_table_of(value: &Value, a: &str, b: &str, c: &str) -> bool
    ensures { result ≡ is_table_of a.now b.now c.now (view value.now) }
{
    match value {
        Value::Table(members) => has_only(members, a, b, c),
        _ => false,
    }
}

/// Whether a key is one that the table of a zone may have.
fn is_of_zone(key: &str) -> bool
    ensures { result ≡ is_of_zone key.now }
{
    is_one_of(key, "file", "name", "update")
        || is_one_of(key, "allow-transfer", "deny-transfer", "allow-transfer-key")
}

/// Whether each key of a table is one that the table of a zone may have.
fn of_zone_only(members: &Table) -> bool
    ensures { result ≡ of_zone_only (table_view members.now) }
{
    for (key, _) in members.iter() {
        if !is_of_zone(key.as_str()) {
            return false;
        }
    }
    true
}

/// Whether a value is a table, each key of which is one that the table of a zone may have.
fn is_table_of_zone(value: &Value) -> bool
    ensures { result ≡ is_table_of_zone (view value.now) }
{
    match value {
        Value::Table(members) => of_zone_only(members),
        _ => false,
    }
}

/// The text under a key of a table, an empty one where there is none.
fn text_at(alloc: Global, table: &Value, key: &str) -> Result<Option<String>, AllocError>
    ensures { IfOk result (λ found. option_map string_bytes found ≡ text_at key.now (view table.now)) }
{
    match table.get(key) {
        Some(value) => text_of(alloc, value),
        None => Ok(Some(String::new(alloc))),
    }
}

/// Puts a word behind a text, and a blank before it.
fn put_word(word: &str, made: &mut String) -> Result<(), AllocError>
    ensures { IfOk result (λ _. string_bytes made.new ≡ string_bytes made.old ++ (codes " " ++ word.now)) }
{
    made.push_str(" ")?;
    made.push_str(word)?;
    Ok(())
}

/// Puts the words of an array behind a text, each behind a blank. Tells whether each is a text or a number; else some
/// may have been put.
fn put_words(alloc: Global, items: &Array, made: &mut String) -> Result<bool, AllocError>
    ensures { IfOk result (λ taken. MatchOption (words_of (array_view items.now)) (taken ≡ false)
        (λ words. (taken ≡ true) × (string_bytes made.new ≡ string_bytes made.old ++ words))) }
{
    for item in items {
        match text_of(alloc, item)? {
            Some(word) => put_word(word.as_str(), made)?,
            None => return Ok(false),
        }
    }
    Ok(true)
}

/// Puts the words of an array behind a text, if there is one. Tells whether nothing else is there; else some may have
/// been put.
fn put_words_in(alloc: Global, words: Option<&Value>, made: &mut String) -> Result<bool, AllocError>
    ensures { IfOk result (λ taken. MatchOption (words_in (option_map (λ it. view it.now) words.entry)) (taken ≡ false)
        (λ those. (taken ≡ true) × (string_bytes made.new ≡ string_bytes made.old ++ those))) }
{
    match words {
        None => Ok(true),
        Some(Value::Array(items)) => put_words(alloc, items, made),
        Some(_) => Ok(false),
    }
}

/// The text `ZONE=KEY RULE`.
fn update_rule(alloc: Global, zone: &str, key: &str, rule: &str) -> Result<String, AllocError>
    ensures { IfOk result (λ made. string_bytes made ≡ (zone.now ++ codes "=" ++ key.now) ++ codes " " ++ rule.now) }
{
    let mut made = assigned(alloc, zone, key)?;
    put_word(rule, &mut made)?;
    Ok(made)
}

/// The text `ZONE=KEY RULE TYPE..` of the rule of a table.
fn update_text(alloc: Global, zone: &str, table: &Value) -> Result<Option<String>, AllocError>
    ensures { IfOk result (λ made. option_map string_bytes made ≡ update_text zone.now (view table.now)) }
{
    if !is_table_of(table, "key", "rule", "types") {
        return Ok(None);
    }
    let Some(key) = text_at(alloc, table, "key")? else {
        return Ok(None);
    };
    let Some(rule) = text_at(alloc, table, "rule")? else {
        return Ok(None);
    };
    let mut made = update_rule(alloc, zone, key.as_str(), rule.as_str())?;
    if put_words_in(alloc, table.get("types"), &mut made)? {
        Ok(Some(made))
    } else {
        Ok(None)
    }
}

/// Puts the setting last of a rule. Tells whether it is a table of a rule; else none is put.
fn put_update(
    alloc: Global,
    zone: &str,
    rule: &Value,
    settings: &mut Vec<Setting>,
) -> Result<bool, AllocError>
    ensures { IfOk result (λ taken. MatchOption (update_text zone.now (view rule.now)) (taken ≡ false)
        (λ text. (taken ≡ true) × (map said settings.new.items ≡ map said settings.old.items ++ under
        (codes "allow-update") (text ∷ [])))) }
{
    match update_text(alloc, zone, rule)? {
        Some(text) => {
            put_text(alloc, "allow-update", text, settings)?;
            Ok(true)
        }
        None => Ok(false),
    }
}

/// Puts a setting last of each rule of an array. Tells whether each is a table of a rule; else settings may have been
/// put.
fn put_updates(
    alloc: Global,
    zone: &str,
    items: &Array,
    settings: &mut Vec<Setting>,
) -> Result<bool, AllocError>
    ensures { IfOk result (λ taken. MatchOption (update_texts zone.now (array_view items.now)) (taken ≡ false)
        (λ texts. (taken ≡ true) × (map said settings.new.items ≡ map said settings.old.items ++ under
        (codes "allow-update") texts))) }
{
    for item in items {
        if !put_update(alloc, zone, item, settings)? {
            return Ok(false);
        }
    }
    Ok(true)
}

/// Puts a setting last of each rule of a zone, if there is one. Tells whether nothing else is there; else settings may
/// have been put.
fn put_updates_in(
    alloc: Global,
    zone: &str,
    updates: Option<&Value>,
    settings: &mut Vec<Setting>,
) -> Result<bool, AllocError>
    ensures { IfOk result (λ taken. MatchOption (updates_in zone.now (option_map (λ it. view it.now) updates.entry))
        (taken ≡ false)
        (λ texts. (taken ≡ true) × (map said settings.new.items ≡ map said settings.old.items ++ under
        (codes "allow-update") texts))) }
{
    match updates {
        None => Ok(true),
        Some(Value::Array(items)) => put_updates(alloc, zone, items, settings),
        Some(_) => Ok(false),
    }
}

/// The text `ZONE=TEXT` of a value.
fn rule_text(alloc: Global, zone: &str, value: &Value) -> Result<Option<String>, AllocError>
    ensures { IfOk result (λ made. option_map string_bytes made ≡ rule_text zone.now (view value.now)) }
{
    match text_of(alloc, value)? {
        Some(text) => Ok(Some(assigned(alloc, zone, text.as_str())?)),
        None => Ok(None),
    }
}

/// Puts a setting of an option last, `ZONE=TEXT` of a value. Tells whether the value is a text or a number; else none
/// is put.
fn put_rule(
    alloc: Global,
    option: &str,
    zone: &str,
    value: &Value,
    settings: &mut Vec<Setting>,
) -> Result<bool, AllocError>
    ensures { IfOk result (λ taken. MatchOption (rule_text zone.now (view value.now)) (taken ≡ false)
        (λ text. (taken ≡ true) × (map said settings.new.items ≡ map said settings.old.items ++ under option.now
        (text ∷ [])))) }
{
    match rule_text(alloc, zone, value)? {
        Some(text) => {
            put_text(alloc, option, text, settings)?;
            Ok(true)
        }
        None => Ok(false),
    }
}

/// Puts a setting of an option last of each item of an array. Tells whether each is a text or a number; else settings
/// may have been put.
fn put_rules(
    alloc: Global,
    option: &str,
    zone: &str,
    items: &Array,
    settings: &mut Vec<Setting>,
) -> Result<bool, AllocError>
    ensures { IfOk result (λ taken. MatchOption (rule_texts zone.now (array_view items.now)) (taken ≡ false)
        (λ texts. (taken ≡ true) × (map said settings.new.items ≡ map said settings.old.items ++ under option.now
        texts))) }
{
    for item in items {
        if !put_rule(alloc, option, zone, item, settings)? {
            return Ok(false);
        }
    }
    Ok(true)
}

/// Puts the settings of an option last of a zone whose table has it. Tells whether its value is a text, a number or an
/// array of these; else settings may have been put.
fn put_rules_in(
    alloc: Global,
    option: &str,
    zone: &str,
    table: &Value,
    settings: &mut Vec<Setting>,
) -> Result<bool, AllocError>
    ensures { IfOk result (λ taken. MatchOption (rules_in option.now zone.now (view table.now)) (taken ≡ false)
        (λ those. (taken ≡ true) × (map said settings.new.items ≡ map said settings.old.items ++ those))) }
{
    match table.get(option) {
        None => Ok(true),
        Some(Value::Array(items)) => put_rules(alloc, option, zone, items, settings),
        Some(one) => put_rule(alloc, option, zone, one, settings),
    }
}

/// Puts the settings of the transfers of a zone last whose table has them. Tells whether their values are texts,
/// numbers or arrays of these; else settings may have been put.
fn put_transfer_rules(
    alloc: Global,
    zone: &str,
    table: &Value,
    settings: &mut Vec<Setting>,
) -> Result<bool, AllocError>
    ensures { IfOk result (λ taken. MatchOption (transfer_rules zone.now (view table.now)) (taken ≡ false)
        (λ those. (taken ≡ true) × (map said settings.new.items ≡ map said settings.old.items ++ those))) }
{
    Ok(
        put_rules_in(alloc, "allow-transfer", zone, table, settings)?
            && put_rules_in(alloc, "deny-transfer", zone, table, settings)?
            && put_rules_in(alloc, "allow-transfer-key", zone, table, settings)?,
    )
}

/// Puts the settings of a zone last that is a table. Tells whether it is one of a zone; else settings may have been
/// put.
fn put_table(alloc: Global, table: &Value, settings: &mut Vec<Setting>) -> Result<bool, AllocError>
    ensures { IfOk result (λ taken. MatchOption (zone_of_table (view table.now)) (taken ≡ false)
        (λ those. (taken ≡ true) × (map said settings.new.items ≡ map said settings.old.items ++ those))) }
{
    if !is_table_of_zone(table) {
        return Ok(false);
    }
    let Some(name) = text_at(alloc, table, "name")? else {
        return Ok(false);
    };
    let Some(file) = text_at(alloc, table, "file")? else {
        return Ok(false);
    };
    let text = assigned(alloc, name.as_str(), file.as_str())?;
    put_text(alloc, "zone", text, settings)?;
    Ok(
        put_updates_in(alloc, name.as_str(), table.get("update"), settings)?
            && put_transfer_rules(alloc, name.as_str(), table, settings)?,
    )
}

/// Puts the settings of a zone last. Tells whether it is a table of a zone, a text or a number; else settings may have
/// been put.
fn put_zone(alloc: Global, item: &Value, settings: &mut Vec<Setting>) -> Result<bool, AllocError>
    ensures { IfOk result (λ taken. MatchOption (zone_settings (view item.now)) (taken ≡ false)
        (λ those. (taken ≡ true) × (map said settings.new.items ≡ map said settings.old.items ++ those))) }
{
    match item {
        Value::Table(_) => put_table(alloc, item, settings),
        one => put_one(alloc, "zone", one, settings),
    }
}

/// Puts the settings of the zones of an array last. Tells whether each is one; else settings may have been put.
pub(crate) fn put_zones(
    alloc: Global,
    items: &Array,
    settings: &mut Vec<Setting>,
) -> Result<bool, AllocError>
    ensures { IfOk result (λ taken. MatchOption (zones_settings (array_view items.now)) (taken ≡ false)
        (λ those. (taken ≡ true) × (map said settings.new.items ≡ map said settings.old.items ++ those))) }
{
    for item in items {
        if !put_zone(alloc, item, settings)? {
            return Ok(false);
        }
    }
    Ok(true)
}
