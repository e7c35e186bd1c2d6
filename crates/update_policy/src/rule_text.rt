//! Rules as text.

ghost use Rattle.std.specs.Prelude.{◌↔◌, IfOk, IsTrue, map};
ghost use Rattle.std.specs.List.{AllZip};
ghost use Rattle.record_text.specs.RecordText.{SpellsType};
ghost use Rattle.update_policy.specs.RuleTexts.{AreWords, IsNameWord, IsRule, IsRuleText, IsScope, IsScopeWord};

use crate::policy::{Rule, Scope};
use record_text::type_of;
use std::alloc::{AllocError, Global};
use text_words::Word;
use thiserror::Error;
use wire_messages::rr::record_type::RecordType;
use wire_names::error::NameError;
use wire_names::rr::domain::name::Name;
use wire_names::values::items::Items;

/// Why a text is not a rule.
#[derive(Clone, Copy, Debug, PartialEq, Eq, Error)]
pub enum RuleTextError {
    /// It has no word, or the name after `subdomain` or `name` is missing.
    #[error("not KEY [zone|subdomain NAME|name NAME|self] [TYPE..]")]
    Form,
    /// The word for the key, or the word after `subdomain` or `name`, is not a name.
    #[error("not a name")]
    Name,
    /// A word is not a type of records.
    #[error("unknown type")]
    Type,
    /// An allocation failed.
    #[error("out of memory")]
    Memory,
}

impl From<AllocError> for RuleTextError {
    fn from(_e: AllocError) -> RuleTextError {
        RuleTextError::Memory
    }
}

/// The fully qualified name of a text.
fn read_name(alloc: Global, text: &str) -> Result<Name, RuleTextError>
    ensures { IfOk result (IsNameWord text.now) }
{
    match Name::from_ascii(alloc, text) {
        Ok(mut name) => {
            name.set_fqdn(true);
            Ok(name)
        }
        Err(NameError::Memory) => Err(RuleTextError::Memory),
        Err(NameError::Text) => Err(RuleTextError::Name),
    }
}

/// The type of a word: a mnemonic, or `TYPE` and its number (RFC 3597 section 5), in any letter case.
fn read_type(word: &str) -> Result<RecordType, RuleTextError>
    ensures { IfOk result (SpellsType word.now) }
{
    let word = Word {
        bytes: word.as_bytes(),
        start: 0,
        quoted: false,
    };
    match type_of(&word) {
        Ok(kind) => Ok(kind),
        Err(_) => Err(RuleTextError::Type),
    }
}

/// The types of words.
fn read_types(alloc: Global, words: &[&str]) -> Result<Items<RecordType>, RuleTextError>
    ensures { IfOk result (AllZip SpellsType (map (λ word. word.now) words.now)) }
{
    let mut types = Items::new(alloc);
    for word in words {
        types.push(read_type(word)?)?;
    }
    Ok(types)
}

/// Whether a word names a scope.
fn is_scope_word(word: &str) -> bool
    ensures { IsTrue result ↔ IsScopeWord word.now }
{
    word == "zone" || word == "self" || word == "subdomain" || word == "name"
}

/// The whole zone, as the scope of words that begin with none.
fn whole_zone<'w, 't>(words: &'w [&'t str]) -> Result<(Scope, &'w [&'t str]), RuleTextError>
    ensures { IfOk result (λ read. IsScope (map (λ word. word.now) words.now) read.0
        (map (λ word. word.now) read.1.now)) }
{
    let [word, ..] = words else {
        return Ok((Scope::Zone, words));
    };
    if is_scope_word(word) {
        return Err(RuleTextError::Form);
    }
    Ok((Scope::Zone, words))
}

/// The scope that words begin with, and the words after it. If they begin with none, it is the whole zone.
fn read_scope<'w, 't>(
    alloc: Global,
    words: &'w [&'t str],
) -> Result<(Scope, &'w [&'t str]), RuleTextError>
    ensures { IfOk result (λ read. IsScope (map (λ word. word.now) words.now) read.0
        (map (λ word. word.now) read.1.now)) }
{
    match words {
        ["zone", types @ ..] => Ok((Scope::Zone, types)),
        ["self", types @ ..] => Ok((Scope::OwnName, types)),
        ["subdomain", name, types @ ..] => Ok((Scope::Subdomain(read_name(alloc, name)?), types)),
        ["name", name, types @ ..] => Ok((Scope::OneName(read_name(alloc, name)?), types)),
        others => whole_zone(others),
    }
}

/// The rule of words `KEY [zone|subdomain NAME|name NAME|self] [TYPE..]`.
fn rule_of(alloc: Global, words: &[&str]) -> Result<Rule, RuleTextError>
    ensures { IfOk result (IsRule (map (λ word. word.now) words.now)) }
{
    let [key, rest @ ..] = words else {
        return Err(RuleTextError::Form);
    };
    let key = read_name(alloc, key)?;
    let (scope, types) = read_scope(alloc, rest)?;
    let types = read_types(alloc, types)?;
    Ok(Rule { key, scope, types })
}

/// The words of a text.
fn words_of<'t>(alloc: Global, text: &'t str) -> Result<Vec<&'t str>, AllocError>
    ensures { IfOk result (λ words. AreWords text.now (map (λ word. word.now) words.items)) }
{
    text.split_whitespace().collect(alloc)
}

/// The rule of a text `KEY [zone|subdomain NAME|name NAME|self] [TYPE..]`, with blanks between the words. Types are
/// mnemonics in any letter case, or `TYPE` and a number. Names are fully qualified, whether or not they end in a dot.
pub fn read_rule(alloc: Global, text: &str) -> Result<Rule, RuleTextError>
    ensures { IfOk result (IsRuleText text.now) }
{
    let words = words_of(alloc, text)?;
    rule_of(alloc, words.as_slice())
}
