//! Serving lines. Those that are at hand together are one group. Where zones hold the updates of a group, these are
//! written together before any line of it is answered; else each line is answered before the next is served.

ghost use Rattle.std.specs.Prelude.{◌≡◌, ◌++◌, [], ℕ, List, IfOk, IfSome, OnOk, Some};
ghost use Rattle.std.specs.Io.KnownBytes.{Appends};
ghost use Rattle.wire_names.specs.rr.domain.DomainName.{DomainName};
ghost use Rattle.zone_serve.specs.Groups.{EachServed, GroupServed, LinesServed, NextLines, contents};
ghost use Rattle.server.specs.Serving.{Stays};
ghost use Rattle.signed_server.specs.KeyedServers.{keyed_of};
ghost use Rattle.zone_serve.specs.Served.{AreLines, LineServed};

use crate::fault::Fault;
use crate::lines::{BAD_LINE, answer_lines, read_line};
use crate::serving::{answer_now, next_line, write};
use hickory_server::zone_handler::{Catalog, ReplySigner, ZoneHandler};
use signed_server::SignedServer;
use std::alloc::Global;
use std::io::{BufRead, BufReader, Read, Write};
use std::rt::Clock;

/// How many lines are one group at most.
const MOST_LINES: usize = 64;

/// How many bytes of the input are read at a time.
const READ_AHEAD: usize = 1 << 16;

/// A reader that knows whether a line is at hand.
pub trait LinesAtHand: BufRead {
    /// Whether the next line is read without waiting.
    // No clause: whether input is at hand decides only which lines are one group.
    fn has_line(&self) -> bool;
}

impl<R: Read> LinesAtHand for BufReader<R> {
    fn has_line(&self) -> bool {
        self.buffer().contains(&b'\n')
    }
}

/// Has zones hold their updates while the lines of a group are served.
pub trait Holder<S: ReplySigner, H: ZoneHandler> {
    ghost use Rattle.std.specs.Prelude.{◌≡◌, List, IfOk, OnOk};
    ghost use Rattle.wire_names.specs.rr.domain.DomainName.{DomainName};
    ghost use Rattle.zone_serve.specs.Groups.{Begun};

    ghost begins: { Self → List (DomainName × List H) → List (DomainName × List H) → Type 0 };

    ghost settles: { Self → List (DomainName × List H) → List (DomainName × List H) → Type 0 };

    /// Has zones hold their updates from now on, if that is of use for these lines; whether they do.
    fn begin(
        &self,
        alloc: Global,
        catalog: &mut Catalog<S, H>,
        lines: &[Vec<u8>],
    ) -> Result<bool, Fault>
        ensures begun { IfOk result (Begun (begins self.now) catalog.old.zones catalog.new.zones) }
        ensures others { catalog.new ≡ record catalog.old { zones = catalog.new.zones } };

    /// Writes what the zones hold. That it is not written is a fault.
    fn settle(&self, alloc: Global, catalog: &mut Catalog<S, H>) -> Result<(), Fault>
        ensures settled { OnOk result (settles self.now catalog.old.zones catalog.new.zones) }
        ensures others { catalog.new ≡ record catalog.old { zones = catalog.new.zones } };
}

/// Looks after the zones of a server after each group of lines that it served.
pub trait Watch<S: ReplySigner, H: ZoneHandler> {
    ghost use Rattle.std.specs.Prelude.{◌≡◌};

    /// A group was served: does what is to be done then. What the zones hold stays.
    fn after_lines(&mut self, catalog: &mut Catalog<S, H>)
        ensures { catalog.new ≡ catalog.old };
}

/// The answer to a line, and whether the line is a message.
fn answer_line<S: ReplySigner, H: ZoneHandler>(
    alloc: Global,
    clock: &impl Clock,
    server: &mut SignedServer<S, H>,
    line: &[u8],
) -> Result<(Vec<u8>, bool), Fault>
    ensures stays { Stays server.old server.new }
    ensures served { IfOk result (λ told. LineServed (keyed_of H.ZoneHandler S.signature_for server.old) line.now
        told.0.items server.new.server.catalog.zones told.1) }
{
    let Some(message) = read_line(alloc, line)? else {
        let told = BAD_LINE.to_vec(alloc)?;
        return Ok((told, false));
    };
    let answer = answer_now(alloc, clock, server, message)?;
    let told = answer_lines(alloc, &answer)?;
    Ok((told, true))
}

/// The answers to the lines of a group, and which line is the first that is no message.
#[derive(Drop)]
struct Told {
    answers: Vec<u8>,
    bad: Option<usize>,
}

/// The answers to lines, one after the other.
fn answer_each<S: ReplySigner, H: ZoneHandler>(
    alloc: Global,
    clock: &impl Clock,
    server: &mut SignedServer<S, H>,
    lines: &[Vec<u8>],
) -> Result<Told, Fault>
    ensures stays { Stays server.old server.new }
    ensures served { IfOk result (λ told. EachServed (keyed_of H.ZoneHandler S.signature_for server.old)
        (contents lines.now) told.answers.items server.new.server.catalog.zones) }
{
    let mut answers = Vec::new(alloc);
    let mut bad = None;
    for place in 0..lines.len() {
        let (mut told, tells) = answer_line(alloc, clock, server, &lines[place])?;
        answers.append(&mut told)?;
        if !tells {
            bad = bad.or(Some(place));
        }
    }
    Ok(Told { answers, bad })
}

/// The answers to lines, one after the other, after what zones hold by then is written.
fn answer_held<S: ReplySigner, H: ZoneHandler, O: Holder<S, H>>(
    alloc: Global,
    clock: &impl Clock,
    server: &mut SignedServer<S, H>,
    holder: &O,
    lines: &[Vec<u8>],
) -> Result<Told, Fault>
    ensures stays { Stays server.old server.new }
    ensures served { IfOk result (λ told. (ahead : List (DomainName × List H)) ×
        EachServed (keyed_of H.ZoneHandler S.signature_for server.old) (contents lines.now) told.answers.items ahead ×
        O.settles holder.now ahead server.new.server.catalog.zones) }
{
    let told = answer_each(alloc, clock, server, lines)?;
    holder.settle(alloc, &mut server.server.catalog)?;
    Ok(told)
}

/// Serves lines, each answered before the next is served: which of them is the first that is no message.
fn serve_each<S: ReplySigner, H: ZoneHandler, W: Write>(
    alloc: Global,
    clock: &impl Clock,
    server: &mut SignedServer<S, H>,
    lines: &[Vec<u8>],
    writer: &mut W,
) -> Result<Option<usize>, Fault>
    ensures stays { Stays server.old server.new }
    ensures served { OnOk result ((written : List ℕ) ×
        EachServed (keyed_of H.ZoneHandler S.signature_for server.old)
        (contents lines.now) written server.new.server.catalog.zones ×
        Appends (W.contents writer.old) (W.contents writer.new) written) }
{
    let mut bad = None;
    for place in 0..lines.len() {
        let (told, tells) = answer_line(alloc, clock, server, &lines[place])?;
        write(writer, &told)?;
        if !tells {
            bad = bad.or(Some(place));
        }
    }
    Ok(bad)
}

/// Serves the lines of a group: which of them is the first that is no message.
fn serve_group<S: ReplySigner, H: ZoneHandler, O: Holder<S, H>, W: Write>(
    alloc: Global,
    clock: &impl Clock,
    server: &mut SignedServer<S, H>,
    holder: &O,
    lines: &[Vec<u8>],
    writer: &mut W,
) -> Result<Option<usize>, Fault>
    ensures stays { Stays server.old server.new }
    ensures served { OnOk result ((written : List ℕ) ×
        GroupServed (O.begins holder.now) (O.settles holder.now) (keyed_of H.ZoneHandler S.signature_for server.old)
        (contents lines.now) written server.new.server.catalog.zones ×
        Appends (W.contents writer.old) (W.contents writer.new) written) }
{
    if !holder.begin(alloc, &mut server.server.catalog, lines)? {
        return serve_each(alloc, clock, server, lines, writer);
    }
    let told = answer_held(alloc, clock, server, holder, lines)?;
    write(writer, &told.answers)?;
    Ok(told.bad)
}

/// Puts the lines that are at hand after others.
fn put_lines_at_hand<R: LinesAtHand>(
    alloc: Global,
    reader: &mut R,
    lines: &mut Vec<Vec<u8>>,
) -> Result<(), Fault>
    ensures { OnOk result (IfSome (R.remaining reader.old) (λ input. (those : List (List ℕ)) × (rest : List ℕ) ×
        AreLines input those rest ×
        (R.remaining reader.new ≡ Some rest) × (contents lines.new.items ≡ contents lines.old.items ++ those))) }
{
    for _ in 1..MOST_LINES {
        if !reader.has_line() {
            return Ok(());
        }
        let Some(line) = next_line(alloc, reader)? else {
            return Err(Fault::Read);
        };
        lines.push(line)?;
    }
    Ok(())
}

/// The next line of a reader, and those after it that are at hand; none at its end.
fn next_group<R: LinesAtHand>(alloc: Global, reader: &mut R) -> Result<Vec<Vec<u8>>, Fault>
    ensures { IfOk result (λ lines.
        IfSome (R.remaining reader.old) (λ input. NextLines input (contents lines.items) (R.remaining reader.new))) }
{
    let mut lines = Vec::new(alloc);
    let Some(line) = next_line(alloc, reader)? else {
        return Ok(lines);
    };
    lines.push(line)?;
    put_lines_at_hand(alloc, reader, &mut lines)?;
    Ok(lines)
}

/// Serves the lines of a reader, until it ends, in groups of those that are at hand: the number of the first that is
/// no message, if there is one.
fn serve_groups<
    S: ReplySigner,
    H: ZoneHandler,
    R: LinesAtHand,
    W: Write,
    O: Holder<S, H>,
    T: Watch<S, H>,
>(
    alloc: Global,
    clock: &impl Clock,
    server: &mut SignedServer<S, H>,
    reader: &mut R,
    writer: &mut W,
    holder: &O,
    watch: &mut T,
) -> Result<Option<u64>, Fault>
    ensures stays { Stays server.old server.new }
    ensures served { OnOk result (IfSome (R.remaining reader.old) (λ input. (lines : List (List ℕ)) ×
        (written : List ℕ) ×
        AreLines input lines [] ×
        LinesServed (O.begins holder.now) (O.settles holder.now)
        (keyed_of H.ZoneHandler S.signature_for server.old) lines written server.new.server.catalog.zones ×
        Appends (W.contents writer.old) (W.contents writer.new) written)) }
{
    let mut bad = None;
    let mut before = 0u64;
    for _ in 0..u64::MAX {
        let lines = next_group(alloc, reader)?;
        if lines.is_empty() {
            return Ok(bad);
        }
        let first_bad = serve_group(alloc, clock, server, holder, &lines, writer)?;
        bad = bad.or(number_of(before, first_bad));
        before = before.saturating_add(lines.len() as u64);
        watch.after_lines(&mut server.server.catalog);
    }
    Err(Fault::Read)
}

/// The number of a line, the first being 1, which is at a place of a group after so many lines.
// No clause: the number of a line is only reported.
fn number_of(before: u64, place: Option<usize>) -> Option<u64> {
    match place {
        Some(place) => Some(before.saturating_add(place as u64).saturating_add(1)),
        None => None,
    }
}

/// Serves the lines of an input, until it ends, in groups of those that are at hand together, 64 at most: if
/// `holder` has zones hold the updates of a group, these are written before a line of it is answered, and all its
/// answers are in memory until then; and `watch` looks after the zones after each group. The number of the first line
/// that is no message, if there is one; the first line is 1. If held updates are not written, nothing of the
/// group is answered.
pub fn serve_lines<
    S: ReplySigner,
    H: ZoneHandler,
    R: Read,
    W: Write,
    O: Holder<S, H>,
    T: Watch<S, H>,
>(
    alloc: Global,
    clock: &impl Clock,
    server: &mut SignedServer<S, H>,
    reader: &mut R,
    writer: &mut W,
    holder: &O,
    watch: &mut T,
) -> Result<Option<u64>, Fault>
    ensures stays { Stays server.old server.new }
    ensures served { OnOk result (IfSome (R.remaining reader.old) (λ input. (lines : List (List ℕ)) ×
        (written : List ℕ) ×
        AreLines input lines [] ×
        LinesServed (O.begins holder.now) (O.settles holder.now)
        (keyed_of H.ZoneHandler S.signature_for server.old) lines written server.new.server.catalog.zones ×
        Appends (W.contents writer.old) (W.contents writer.new) written)) }
{
    let mut reader = match BufReader::with_capacity(alloc, READ_AHEAD, reader) {
        Ok(reader) => reader,
        Err(e) => return Err(Fault::of_input(&e)),
    };
    serve_groups(alloc, clock, server, &mut reader, writer, holder, watch)
}
