//! Messages as text.
//!
//! What messages are made of is printed by its `Display`.

use hickory_wire::{Edns, EdnsOption, Message, MessageType, Metadata, OpCode, Query, Record, TSIG};
use std::fmt;

/// A message as `dig` prints one: a header line with kind, code, id and flags; the question; each section that has
/// records, in the text of a zone; what the OPT record says; and the size.
#[derive(Clone, Copy, Debug)]
pub struct MessageText<'a> {
    /// The message.
    pub message: &'a Message,
    /// How many bytes it had, for the last line; `None` prints no such line.
    pub size: Option<usize>,
}

/// The flags of a header that are set, each by its mnemonic behind a space, in the order of their bits (RFC 1035
/// section 4.1.1, RFC 4035 section 3).
#[derive(Clone, Copy, Debug)]
pub struct FlagsText<'a> {
    /// The header.
    pub metadata: &'a Metadata,
}

impl fmt::Display for FlagsText<'_> {
    fn fmt<W: fmt::Write>(&self, f: &mut fmt::Formatter<W>) -> fmt::Result {
        let metadata = self.metadata;
        let flags = [
            (metadata.message_type == MessageType::Response, " qr"),
            (metadata.authoritative, " aa"),
            (metadata.truncation, " tc"),
            (metadata.recursion_desired, " rd"),
            (metadata.recursion_available, " ra"),
            (metadata.authentic_data, " ad"),
            (metadata.checking_disabled, " cd"),
        ];
        for (is_set, text) in flags {
            if is_set {
                f.write_str(text)?;
            }
        }
        Ok(())
    }
}

/// The header in two lines.
fn write_header<W: fmt::Write>(f: &mut fmt::Formatter<W>, message: &Message) -> fmt::Result {
    let metadata = &message.metadata;
    write!(f, ";; ->>HEADER<<- opcode: {}", metadata.op_code)?;
    writeln!(
        f,
        ", status: {}, id: {}",
        metadata.response_code, metadata.id
    )?;
    let extra = usize::from(message.edns.is_some()) + usize::from(message.signature.is_some());
    let additionals = message.additionals.len().saturating_add(extra);
    write!(
        f,
        ";; flags:{}; QUERY: {}",
        FlagsText { metadata },
        message.queries.len()
    )?;
    write!(f, ", ANSWER: {}", message.answers.len())?;
    writeln!(
        f,
        ", AUTHORITY: {}, ADDITIONAL: {additionals}\n",
        message.authorities.len()
    )
}

/// Bytes as two hexadecimal digits and a space for each.
#[derive(Clone, Copy)]
struct SpacedHex<'a>(&'a [u8]);

impl fmt::Display for SpacedHex<'_> {
    fn fmt<W: fmt::Write>(&self, f: &mut fmt::Formatter<W>) -> fmt::Result {
        for byte in self.0 {
            write!(f, "{:02x} ", *byte)?;
        }
        Ok(())
    }
}

/// Bytes as characters, a dot for each that is no printable ASCII character.
#[derive(Clone, Copy)]
struct Printable<'a>(&'a [u8]);

impl fmt::Display for Printable<'_> {
    fn fmt<W: fmt::Write>(&self, f: &mut fmt::Formatter<W>) -> fmt::Result {
        for byte in self.0 {
            let shown = if (0x20..0x7f).contains(byte) {
                *byte
            } else {
                b'.'
            };
            f.write_char(char::from(shown))?;
        }
        Ok(())
    }
}

/// The option in a line.
fn write_option<W: fmt::Write>(f: &mut fmt::Formatter<W>, option: &EdnsOption) -> fmt::Result {
    if option.code == EdnsOption::NSID {
        f.write_str("; NSID")?;
    } else {
        write!(f, "; OPT={}", option.code)?;
    }
    let bytes = option.bytes.as_slice();
    if bytes.is_empty() {
        return f.write_str("\n");
    }
    writeln!(f, ": {}(\"{}\")", SpacedHex(bytes), Printable(bytes))
}

/// What the OPT record says.
fn write_edns<W: fmt::Write>(f: &mut fmt::Formatter<W>, edns: &Edns) -> fmt::Result {
    f.write_str(";; OPT PSEUDOSECTION:\n")?;
    let flags = if edns.dnssec_ok() { " do" } else { "" };
    write!(f, "; EDNS: version: {}, flags:{flags}; ", edns.version())?;
    if edns.reserved_flags() != 0 {
        write!(f, "MBZ: 0x{:04x}, ", edns.reserved_flags())?;
    }
    writeln!(f, "udp: {}", edns.max_payload())?;
    for option in edns.options() {
        write_option(f, option)?;
    }
    Ok(())
}

/// The questions.
fn write_questions<W: fmt::Write>(
    f: &mut fmt::Formatter<W>,
    heading: &str,
    queries: &[Query],
) -> fmt::Result {
    if queries.is_empty() {
        return Ok(());
    }
    writeln!(f, ";; {heading} SECTION:")?;
    for query in queries {
        writeln!(f, ";{query}")?;
    }
    f.write_str("\n")
}

/// The records of a section.
fn write_section<W: fmt::Write>(
    f: &mut fmt::Formatter<W>,
    heading: &str,
    records: &[Record],
) -> fmt::Result {
    if records.is_empty() {
        return Ok(());
    }
    writeln!(f, ";; {heading} SECTION:")?;
    for record in records {
        writeln!(f, "{record}")?;
    }
    f.write_str("\n")
}

/// The signature.
fn write_signature<W: fmt::Write>(f: &mut fmt::Formatter<W>, record: &Record<TSIG>) -> fmt::Result {
    f.write_str(";; TSIG PSEUDOSECTION:\n")?;
    write!(
        f,
        "{} {} {} TSIG ",
        &record.name, record.ttl, record.dns_class
    )?;
    let signature = &record.rdata;
    write!(
        f,
        "{} {} {}",
        &signature.algorithm, signature.time, signature.fudge
    )?;
    write!(f, " {} {}", signature.mac.len(), &signature.mac)?;
    write!(f, " {} {}", signature.oid, signature.error)?;
    writeln!(f, " {} {}\n", signature.other.len(), &signature.other)
}

/// The sections, by the names that they have in a message of this kind (RFC 2136 section 2).
fn write_sections<W: fmt::Write>(f: &mut fmt::Formatter<W>, message: &Message) -> fmt::Result {
    let [questions, answers, authorities] = if message.metadata.op_code == OpCode::UPDATE {
        ["ZONE", "PREREQUISITE", "UPDATE"]
    } else {
        ["QUESTION", "ANSWER", "AUTHORITY"]
    };
    write_questions(f, questions, message.queries.as_slice())?;
    write_section(f, answers, message.answers.as_slice())?;
    write_section(f, authorities, message.authorities.as_slice())?;
    write_section(f, "ADDITIONAL", message.additionals.as_slice())
}

impl fmt::Display for MessageText<'_> {
    fn fmt<W: fmt::Write>(&self, f: &mut fmt::Formatter<W>) -> fmt::Result {
        let message = self.message;
        write_header(f, message)?;
        if let Some(edns) = &message.edns {
            write_edns(f, edns)?;
        }
        write_sections(f, message)?;
        if let Some(signature) = &message.signature {
            write_signature(f, signature.get())?;
        }
        match self.size {
            Some(size) => writeln!(f, ";; MSG SIZE  rcvd: {size}"),
            None => Ok(()),
        }
    }
}
