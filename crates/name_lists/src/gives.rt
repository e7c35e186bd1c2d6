//! The names that a line of a list gives, as plain lines.

ghost use Rattle.std.specs.Prelude.{◌≡◌, IfOk, MatchOption, string_bytes};
ghost use Rattle.std.specs.Option.{option_copied};
ghost use Rattle.name_lists.specs.Gives as spec;
ghost use Rattle.name_lists.specs.Pushes.{Pushes, PushesLine};
ghost use Rattle.name_lists.specs.Words.{words_before_comment};

use crate::names::{has_byte, is_dotted, push_covered, push_name};
use crate::words::{before, is_among, next_word, split_at_byte};
use std::alloc::{AllocError, Global};

/// The addresses that a hosts file gives to names that shall not be reached.
const SINKS: &[u8] = b"0.0.0.0 127.0.0.1 :: ::1";

/// The names that a hosts file gives to the machine itself and to groups of machines around it.
const LOCAL_NAMES: &[u8] =
    b"localhost localhost.localdomain local broadcasthost 0.0.0.0 ip6-localhost ip6-loopback ip6-localnet ip6-mcastprefix ip6-allnodes ip6-allrouters ip6-allhosts localhost4 localhost4.localdomain4 localhost6 localhost6.localdomain6";

fn is_sink(word: &[u8]) -> bool
    ensures { result ≡ spec.is_sink word.now }
{
    is_among(word, SINKS)
}

fn is_local(word: &[u8]) -> bool
    ensures { result ≡ spec.is_local word.now }
{
    is_among(word, LOCAL_NAMES)
}

/// Whether a word is an address as hosts files begin lines with.
fn is_address(word: &[u8]) -> bool
    ensures { result ≡ spec.is_address word.now }
{
    is_dotted(word) || has_byte(word, b':')
}

/// Writes the name of a word behind the address of a hosts line. A local name has none.
fn push_host(
    alloc: Global,
    is_behind_sink: bool,
    word: &[u8],
    names: &mut String,
) -> Result<bool, AllocError>
    ensures { IfOk result (λ is_given. Pushes (spec.GivesHost is_behind_sink word.now) is_given (string_bytes names.old)
        (string_bytes names.new)) }
{
    if is_local(word) {
        return Ok(true);
    }
    if !is_behind_sink {
        return Ok(false);
    }
    push_name(alloc, word, names)
}

/// Writes the names of the words behind the address of a hosts line.
fn push_hosts(
    alloc: Global,
    is_behind_sink: bool,
    text: &[u8],
    names: &mut String,
) -> Result<bool, AllocError>
    ensures { IfOk result (λ is_given. Pushes (spec.GivesHosts is_behind_sink (words_before_comment text.now)) is_given
        (string_bytes names.old) (string_bytes names.new)) }
{
    let mut rest = text;
    while let Some((word, behind)) = next_word(rest) {
        if !push_host(alloc, is_behind_sink, word, names)? {
            return Ok(false);
        }
        rest = behind;
    }
    Ok(true)
}

/// Writes the names of the words of a hosts line: behind its address.
fn push_hosts_line(
    alloc: Global,
    address: &[u8],
    text: &[u8],
    names: &mut String,
) -> Result<bool, AllocError>
    ensures { IfOk result (λ is_given. Pushes (spec.GivesHostsLine address.now (words_before_comment text.now)) is_given
        (string_bytes names.old) (string_bytes names.new)) }
{
    if !is_address(address) {
        return Ok(false);
    }
    push_hosts(alloc, is_sink(address), text, names)
}

/// What stands between `||` and `^`.
fn filter_name(word: &[u8]) -> Option<&[u8]>
    ensures { option_copied result ≡ spec.filter_name word.now }
{
    let Some(behind) = word.strip_prefix(b"||") else {
        return None;
    };
    let Some(name) = behind.strip_suffix(b"^") else {
        return None;
    };
    Some(name)
}

/// The name of an option `address=/name/..` or `local=/name/`.
fn option_name(word: &[u8]) -> Option<&[u8]>
    ensures { option_copied result ≡ spec.option_name word.now }
{
    let Some((key, behind)) = split_at_byte(word, b'/') else {
        return None;
    };
    let Some((name, behind)) = split_at_byte(behind, b'/') else {
        return None;
    };
    if split_at_byte(behind, b'/').is_some() {
        return None;
    }
    if key == b"address=".as_slice() || key == b"local=".as_slice() && behind.is_empty() {
        Some(name)
    } else {
        None
    }
}

/// The name that a word blocks with all names below it.
fn covered_name(word: &[u8]) -> Option<&[u8]>
    ensures { option_copied result ≡ spec.covered_name word.now }
{
    if word.starts_with(b"||") {
        filter_name(word)
    } else {
        option_name(word)
    }
}

/// Writes the names of a word alone on its line.
fn push_alone(alloc: Global, word: &[u8], names: &mut String) -> Result<bool, AllocError>
    ensures { IfOk result (λ is_given. Pushes (spec.GivesAlone word.now) is_given (string_bytes names.old)
        (string_bytes names.new)) }
{
    match covered_name(word) {
        Some(name) => push_covered(alloc, name, names),
        None => push_host(alloc, true, word, names),
    }
}

/// Whether the words of a text are `CNAME .`, letter case aside.
fn is_root_alias(text: &[u8]) -> bool
    ensures { result ≡ spec.is_root_alias (words_before_comment text.now) }
{
    let Some((kind, behind)) = next_word(text) else {
        return false;
    };
    let Some((target, behind)) = next_word(behind) else {
        return false;
    };
    next_word(behind).is_none() && kind.eq_ignore_ascii_case(b"cname") && target == b".".as_slice()
}

/// Writes the names of the words of a text.
fn push_words(alloc: Global, text: &[u8], names: &mut String) -> Result<bool, AllocError>
    ensures { IfOk result (λ is_given. Pushes (spec.GivesWords (words_before_comment text.now)) is_given
        (string_bytes names.old) (string_bytes names.new)) }
{
    let Some((word, behind)) = next_word(text) else {
        return Ok(true);
    };
    if next_word(behind).is_none() {
        return push_alone(alloc, word, names);
    }
    if is_root_alias(behind) {
        return push_name(alloc, word, names);
    }
    push_hosts_line(alloc, word, behind, names)
}

/// The plain lines of the names that a line gives. None where it gives no list of names.
pub(crate) fn read_line(alloc: Global, line: &[u8]) -> Result<Option<String>, AllocError>
    ensures { IfOk result (PushesLine line.now) }
{
    let mut names = String::new(alloc);
    let text = before(line, b';');
    if push_words(alloc, text, &mut names)? {
        Ok(Some(names))
    } else {
        Ok(None)
    }
}
