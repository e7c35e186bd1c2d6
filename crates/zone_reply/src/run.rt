//! From arguments and an input to a line of output and a status.

ghost use Rattle.std.specs.Prelude.{◌≡◌, ◌∷◌, ◌⊎◌, [], ℕ, List, Result, IfOk, IfErr, map, string_bytes};
ghost use Rattle.wire_names.specs.HexLines.{hex_lines};
ghost use Rattle.hickory_catalog.specs.requests.Server.{server_of};
ghost use Rattle.hickory_server.specs.declared.server.serve.Outcome.{Outcome};
ghost use Rattle.hickory_server.specs.declared.server.serve.Outcome.TheVariants.{Replies};
ghost use Rattle.zone_reply.specs.Answers.{Becomes, InputLeft, IsAnswer, IsIncoming, IsRefusedMessage, MessageLeft, answer_line, answer_status, line_items};
ghost use Rattle.zone_reply.specs.Command.{IsPrinted};
ghost use Rattle.zone_reply.specs.declared.command.Refusal.{Refusal};
ghost use Rattle.zone_reply.specs.declared.command.Refusal.TheVariants.{Memory, Unreadable};

use crate::command::{Command, Refusal, command_of, help_lines, print, version_line};
use crate::input::message;
use hickory_server::access::AccessControl;
use hickory_server::proto::Protocol;
use hickory_server::server::serve::{Incoming, Outcome, serve_all};
use hickory_server::zone_handler::{Catalog, ReplySigner, ZoneHandler};
use std::alloc::Global;
use std::io::{Read, Write};
use std::net::{IpAddr, Ipv4Addr, SocketAddr};
use wire_names::hex_lines::lines_of;

/// The message of these bytes as it came: from 127.0.0.1, port 53, over this transport, at the moment 0.
fn incoming(protocol: Protocol, bytes: Vec<u8>) -> Incoming
    ensures { IsIncoming protocol bytes.items result }
{
    Incoming {
        bytes,
        src: SocketAddr::new(IpAddr::V4(Ipv4Addr::LOCALHOST), 53),
        protocol,
        now: 0,
    }
}

/// What becomes of the message of these bytes, which comes alone: one outcome. Each address may use the server.
fn outcome<S: ReplySigner, H: ZoneHandler>(
    alloc: Global,
    catalog: &mut Catalog<S, H>,
    protocol: Protocol,
    bytes: Vec<u8>,
) -> Result<Vec<Outcome>, Refusal>
    ensures others { catalog.new ≡ record catalog.old { zones = catalog.new.zones } }
    ensures left { MessageLeft (server_of H.ZoneHandler S.signature_for catalog.old) protocol bytes.items
        catalog.new.zones }
    ensures ok { IfOk result (λ outcomes. (outcome : Outcome) × (outcomes.items ≡ outcome ∷ []) ×
        Becomes (server_of H.ZoneHandler S.signature_for catalog.old) protocol bytes.items outcome catalog.new.zones) }
    ensures err { IfErr result (λ e. e ≡ Memory) }
{
    let mut messages = Vec::new(alloc);
    messages.push(incoming(protocol, bytes))?;
    let access = AccessControl::new(alloc);
    match serve_all(alloc, &access, catalog, messages) {
        Ok(outcomes) => Ok(outcomes),
        Err(_) => Err(Refusal::Memory),
    }
}

/// The lines for what became of a message: it has replies, or it is no message.
fn outcome_lines(alloc: Global, outcomes: &[Outcome]) -> Result<Vec<u8>, Refusal>
    ensures ok { IfOk result (λ lines. (encoded : List (List ℕ)) × (outcomes.now ≡ Replies encoded ∷ []) ×
        (lines.items ≡ hex_lines encoded)) }
    ensures err { IfErr result (λ e. (e ≡ Memory) ⊎
        ((e ≡ Unreadable) × ((encoded : List (List ℕ)) → ¬ (outcomes.now ≡ Replies encoded ∷ [])))) }
{
    match outcomes {
        [Outcome::Replies(replies)] => Ok(lines_of(alloc, replies.as_slice())?),
        _ => Err(Refusal::Unreadable),
    }
}

/// The lines for the replies to a message that came over this transport.
fn reply_lines<S: ReplySigner, H: ZoneHandler>(
    alloc: Global,
    catalog: &mut Catalog<S, H>,
    protocol: Protocol,
    message: Vec<u8>,
) -> Result<Vec<u8>, Refusal>
    ensures others { catalog.new ≡ record catalog.old { zones = catalog.new.zones } }
    ensures left { MessageLeft (server_of H.ZoneHandler S.signature_for catalog.old) protocol message.items
        catalog.new.zones }
    ensures ok { IfOk result (λ lines. (encoded : List (List ℕ)) ×
        Becomes (server_of H.ZoneHandler S.signature_for catalog.old) protocol message.items
        (Replies encoded) catalog.new.zones × (lines.items ≡ hex_lines encoded)) }
    ensures err { IfErr result (λ e. IsRefusedMessage message.items e) }
{
    let outcomes = outcome(alloc, catalog, protocol, message)?;
    outcome_lines(alloc, &outcomes)
}

/// The lines for arguments and an input.
fn answer<S: ReplySigner, H: ZoneHandler, R: Read>(
    alloc: Global,
    catalog: &mut Catalog<S, H>,
    arguments: &[String],
    reader: &mut R,
) -> Result<Vec<u8>, Refusal>
    ensures others { catalog.new ≡ record catalog.old { zones = catalog.new.zones } }
    ensures left { InputLeft (server_of H.ZoneHandler S.signature_for catalog.old) (map string_bytes arguments.now)
        (R.remaining reader.old) catalog.new.zones }
    ensures answer { IsAnswer (server_of H.ZoneHandler S.signature_for catalog.old) (map string_bytes arguments.now)
        (R.remaining reader.old) (line_items result) catalog.new.zones }
{
    match command_of(arguments) {
        None => Err(Refusal::Usage),
        Some(Command::Version) => Ok(version_line(alloc)?),
        Some(Command::Help) => Ok(help_lines(alloc)?),
        Some(Command::Answer(protocol)) => {
            let message = message(alloc, reader)?;
            reply_lines(alloc, catalog, protocol, message)
        }
    }
}

/// Answers one message: prints a line for each reply, and gives the status. The arguments name the transport, `udp` or
/// `tcp`; the first line of the input is the message in hex digits. Where the argument is `--version`, the program's
/// name and version is printed, where it is `--help` or `-h`, how it is started, and nothing is read.
///
/// Each line is a reply in lower-case hex digits, with status 0, and only a transfer may have several; or the one line
/// is a refusal with its status: wrong usage 2, no hex 2, no DNS message 1, no memory 3. Where printing fails, the
/// status is 4. Only an update changes the catalog, and it may stand where there was no memory for its reply.
pub fn run<S: ReplySigner, H: ZoneHandler, R: Read, W: Write>(
    alloc: Global,
    catalog: &mut Catalog<S, H>,
    arguments: &[String],
    reader: &mut R,
    writer: &mut W,
) -> u8
    ensures others { catalog.new ≡ record catalog.old { zones = catalog.new.zones } }
    ensures left { InputLeft (server_of H.ZoneHandler S.signature_for catalog.old) (map string_bytes arguments.now)
        (R.remaining reader.old) catalog.new.zones }
    ensures prints { (answer : Result (List ℕ) Refusal) ×
        IsAnswer (server_of H.ZoneHandler S.signature_for catalog.old) (map string_bytes arguments.now)
        (R.remaining reader.old) answer catalog.new.zones ×
        IsPrinted (W.contents writer.old) (W.contents writer.new) (answer_line answer) (answer_status answer) result }
{
    match answer(alloc, catalog, arguments, reader) {
        Ok(lines) => print(writer, lines.as_slice(), 0),
        Err(refusal) => print(writer, refusal.line(), refusal.status()),
    }
}
