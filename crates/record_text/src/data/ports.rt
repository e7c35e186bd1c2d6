//! The ports of services, as the bits of a bitmap (RFC 1035 section 3.4.2).

ghost use Rattle.std.specs.Prelude.{◌≡◌, ◌≢◌, false, IfErr, IfOk, OnErr, OnOk};
ghost use Rattle.text_words.specs.declared.error.TextError.TheVariants.{Memory};
ghost use Rattle.text_words.specs.Spelling.{Puts};
ghost use Rattle.record_text.specs.RecordText.{ArePortBits, ArePorts, HasNone, SpellsPort};

use crate::data::field::Names;
use crate::data::fields::number16;
use crate::data::mnemonics::number_named;
use crate::data::types::{bitmap_len, put_bitmap};
use std::alloc::Global;
use text_words::{TextError, TextFault, Word};

/// The port that a word is: a number of 16 bits, or the mnemonic of a service.
fn port(word: &Word<'_>) -> Result<u16, TextError>
    ensures spelled { IfOk result (λ port. (word.now.quoted ≡ false) × SpellsPort word.now.bytes.now port) }
    ensures refused { OnErr result (HasNone (λ port. (word.now.quoted ≡ false) × SpellsPort word.now.bytes.now port)) }
{
    if word.quoted {
        return Err(word.fault(TextFault::BadNumber));
    }
    if let Some(number) = number_named(Names::Services, word.bytes) {
        return Ok(u16::from(number));
    }
    number16(word)
}

/// The ports that words are.
fn ports(alloc: Global, words: &[Word<'_>]) -> Result<Vec<u16>, TextError>
    ensures spelled { IfOk result (λ ports. ArePorts words.now ports.items) }
    ensures refused { IfErr result (λ e. e ≢ Memory → HasNone (ArePorts words.now)) }
{
    let mut ports = Vec::new(alloc);
    for word in words {
        ports.push(port(word)?)?;
    }
    Ok(ports)
}

/// Puts the bits of the ports that words are behind other bytes.
pub(crate) fn put_ports(
    alloc: Global,
    words: &[Word<'_>],
    data: &mut Vec<u8>,
) -> Result<(), TextError>
    ensures put { OnOk result (Puts (ArePortBits words.now) «data».old.items «data».new.items) }
    ensures refused { IfErr result (λ e. e ≢ Memory → HasNone (ArePortBits words.now)) }
{
    let ports = ports(alloc, words)?;
    put_bitmap(ports.as_slice(), 0, bitmap_len(ports.as_slice()), data)?;
    Ok(())
}
