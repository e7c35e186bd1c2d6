//! Reading settings.

ghost use Rattle.std.specs.Prelude.{◌≡◌, ◌==◌, ◌+◌, ◌<◌, ◌≤◌, ◌++◌, IfOk, IfErr, IfNone, IfSome, List, ℕ, None, Some, String, bytes_eq, cond, false, get_or, length, map, string_bytes, take, true};
ghost use Rattle.std.specs.declared.alloc.Global.{Global};
ghost use Rattle.toml.specs.Data.{Data, Members};
ghost use Rattle.toml.specs.Errors.{IsMemory, IsWithin};
ghost use Rattle.server_settings.specs.Settings.{AreKnown, AreSettings, IsDocument, IsFault, IsMemberRefusal, IsRefusal, IsRefused, IsShortest, IsTableRefusal, IsWrongValue, Pair, is_option, line_ends, line_of, said, settings_of, settings_under};
ghost use Rattle.toml.specs.View.{table_view, view};

use crate::fault::SettingsFault;
use crate::values::put_values;
use std::alloc::Global;
use toml::Value;
use toml::de::Error;
use toml::value::Table;

/// A setting: the name of an option, and its value in text.
#[derive(Debug, Drop)]
pub struct Setting {
    /// The name of the option.
    pub name: String,
    /// The value.
    pub value: String,
}

/// Why a document is refused.
#[derive(Debug, Drop)]
pub(crate) enum Refusal {
    /// There is no option of this name.
    Unknown(String),
    /// The value of this option gives it none.
    Wrong(String),
    /// Memory was refused.
    Memory,
}

/// Whether a string is this text.
fn is_text(string: &String, text: &str) -> bool
    ensures { result ≡ bytes_eq (string_bytes string.now) text.now }
{
    string.as_str() == text
}

/// Whether there is an option of this name.
fn is_option(options: &[String], name: &str) -> bool
    ensures { result ≡ is_option options.now name.now }
{
    options.iter().any(|option| is_text(option, name))
}

/// That there is no option of this name.
fn unknown(name: &String) -> Refusal
    ensures { (options : List (String Global)) (d : Data) → is_option options (string_bytes name.now) ≡ false →
        IsMemberRefusal options (string_bytes name.now) d result }
{
    match name.clone() {
        Ok(name) => Refusal::Unknown(name),
        Err(_) => Refusal::Memory,
    }
}

/// That the value of this option gives it none.
fn wrong(name: &String) -> Refusal
    ensures { (options : List (String Global)) (d : Data) → settings_under (string_bytes name.now) d ≡ None →
        IsMemberRefusal options (string_bytes name.now) d result }
{
    match name.clone() {
        Ok(name) => Refusal::Wrong(name),
        Err(_) => Refusal::Memory,
    }
}

/// Puts the settings last that a member of a document gives.
fn put_member(
    alloc: Global,
    options: &[String],
    name: &String,
    value: &Value,
    settings: &mut Vec<Setting>,
) -> Result<(), Refusal>
    ensures known { IfOk result (λ _. is_option options.now (string_bytes name.now) ≡ true) }
    ensures put { IfOk result (λ _. (those : List Pair) ×
        (settings_under (string_bytes name.now) (view value.now) ≡ Some those) ×
        (map said settings.new.items ≡ map said settings.old.items ++ those)) }
    ensures refused { IfErr result (IsMemberRefusal options.now (string_bytes name.now) (view value.now)) }
{
    if !is_option(options, name.as_str()) {
        return Err(unknown(name));
    }
    match put_values(alloc, name.as_str(), value, settings) {
        Ok(true) => Ok(()),
        Ok(false) => Err(wrong(name)),
        Err(_) => Err(Refusal::Memory),
    }
}

/// The settings of a document.
fn settings_of(alloc: Global, options: &[String], table: &Table) -> Result<Vec<Setting>, Refusal>
    ensures known { IfOk result (λ _. AreKnown options.now (table_view table.now)) }
    ensures settings { IfOk result (λ settings. settings_of (table_view table.now) ≡ Some (map said settings.items)) }
    ensures refused { IfErr result (IsTableRefusal options.now (table_view table.now)) }
{
    let mut settings = Vec::new(alloc);
    for (name, value) in table.iter() {
        if let Err(refusal) = put_member(alloc, options, name, value, &mut settings) {
            drop(settings);
            return Err(refusal);
        }
    }
    Ok(settings)
}

/// That a text is no document, or that memory was refused to read it.
fn syntax(text: &[u8], error: Error) -> SettingsFault
    requires { IsWithin text.now error }
    ensures { (options : List (String Global)) →
        ((ms : Members) → ¬ (IsMemory error) → ¬ (IsDocument text.now ms)) → IsFault options text.now result }
{
    match error.span() {
        Some(span) => SettingsFault::Syntax {
            error,
            line: line_ends(&text[..span.start]) + 1,
        },
        None => SettingsFault::Memory,
    }
}

/// That the value of this option gives it none.
fn wrong_value(name: String, line: usize) -> SettingsFault
    ensures { IsWrongValue (string_bytes name) line result }
{
    if name.as_str() == "zone" {
        drop(name);
        SettingsFault::WrongZone { line }
    } else {
        SettingsFault::WrongValue { name, line }
    }
}

/// Why the text gives no settings whose front up to this place is refused so.
fn fault(front: &[u8], refusal: Refusal) -> SettingsFault
    ensures { (options : List (String Global)) (text : List ℕ) (end : ℕ) → front.now ≡ take end text →
        IsShortest options text end → IsRefusal options front.now refusal → IsFault options text result }
{
    let line = line_of(front);
    match refusal {
        Refusal::Unknown(name) => SettingsFault::UnknownOption { name, line },
        Refusal::Wrong(name) => wrong_value(name, line),
        Refusal::Memory => SettingsFault::Memory,
    }
}

/// How many lines end with a byte.
fn ends_with(byte: u8) -> usize
    ensures { result ≡ cond (byte == 10) 1 0 }
{
    if byte == b'\n' { 1 } else { 0 }
}

/// How many lines end in a text.
#[tactic(auto, using(crate::proofs::lemmas::Lines::ends_on, crate::proofs::lemmas::Lines::few))]
fn line_ends(text: &[u8]) -> usize
    ensures count { result ≡ line_ends text.now }
    ensures few { result ≤ length text.now }
{
    let mut ends = 0;
    for i in 0..text.len() {
        ends += ends_with(text[i]);
    }
    ends
}

/// The line in which the last byte of a text stands, from 1.
fn line_of(text: &[u8]) -> usize
    ensures { result ≡ line_of text.now }
{
    line_ends(&text[..text.len().saturating_sub(1)]) + 1
}

/// Why a document is refused, if it is.
fn table_refusal(alloc: Global, options: &[String], table: &Table) -> Option<Refusal>
    ensures some { IfSome result (IsTableRefusal options.now (table_view table.now)) }
    ensures none { IfNone result ((settings : List Pair) × AreKnown options.now (table_view table.now) ×
        (settings_of (table_view table.now) ≡ Some settings)) }
{
    match settings_of(alloc, options, table) {
        Ok(settings) => {
            drop(settings);
            None
        }
        Err(refusal) => Some(refusal),
    }
}

/// Why a text is refused, if it is a document that is.
fn text_refusal(alloc: Global, options: &[String], text: &[u8]) -> Option<Refusal>
    ensures some { IfSome result (IsRefusal options.now text.now) }
    ensures none { IfNone result (¬ (IsRefused options.now text.now)) }
{
    match toml::table_from_slice(alloc, text) {
        Ok(table) => {
            let refusal = table_refusal(alloc, options, &table);
            drop(table);
            refusal
        }
        Err(e) => {
            if e.is_memory() {
                Some(Refusal::Memory)
            } else {
                None
            }
        }
    }
}

/// Why the front of a text that ends with this byte is refused, if the byte ends a line and the front is a document
/// that is.
fn front_refusal(alloc: Global, options: &[String], text: &[u8], i: usize) -> Option<Refusal>
    requires { i < length text.now }
    ensures some { IfSome result (IsRefusal options.now (take (i + 1) text.now)) }
    ensures none { IfNone result (get_or text.now i 0 ≡ 10 → ¬ (IsRefused options.now (take (i + 1) text.now))) }
{
    if text[i] == b'\n' {
        text_refusal(alloc, options, &text[..i + 1])
    } else {
        None
    }
}

/// Why a text gives no settings that is refused so as a whole.
fn first_fault(alloc: Global, options: &[String], text: &[u8], whole: Refusal) -> SettingsFault
    requires { IsRefusal options.now text.now whole }
    ensures { IsFault options.now text.now result }
{
    for i in 0..text.len() {
        if let Some(refusal) = front_refusal(alloc, options, text, i) {
            drop(whole);
            return fault(&text[..i + 1], refusal);
        }
    }
    fault(text, whole)
}

/// The settings of a configuration file in TOML 1.1, in the order of their names, where these are the names of the
/// options that there are.
///
/// A member `zone` that is an array gives for each item that is a table the setting `zone`, `NAME=FILE`, and for each
/// table of its `update` the setting `allow-update`, `NAME=KEY RULE TYPE..`; of these `NAME`, `FILE`, `KEY` and `RULE`
/// are texts or numbers, empty where they are not there, `TYPE..` is an array of them, and there is no other key. All
/// other values give theirs so:
///
/// A text gives one setting of its name, and a whole number that is not negative its decimal digits. An array gives one
/// for each of its items, in their order, and a table one for each of its members, `KEY=TEXT`, in the order of their
/// keys, where these are texts or such numbers. Each name counts for itself, so `"example.com"` wants its quotes as a
/// key.
///
/// `UnknownOption`, `WrongValue` and `WrongZone` tell the first line with which what stands so far is a document that
/// is refused; to find it the front up to each line is read, so a fault takes time by the square of the lines. `Memory`
/// says nothing of the text.
pub fn read_settings(
    alloc: Global,
    options: &[String],
    text: &[u8],
) -> Result<Vec<Setting>, SettingsFault>
    ensures settings { IfOk result (λ settings. AreSettings options.now text.now (map said settings.items)) }
    ensures fault { IfErr result (IsFault options.now text.now) }
{
    let table = match toml::table_from_slice(alloc, text) {
        Ok(table) => table,
        Err(e) => return Err(syntax(text, e)),
    };
    let settings = settings_of(alloc, options, &table);
    drop(table);
    match settings {
        Ok(settings) => Ok(settings),
        Err(refusal) => Err(first_fault(alloc, options, text, refusal)),
    }
}
