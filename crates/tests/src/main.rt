//! Tries what no server here can show: `tests` reads commands from the standard input, one a line, and prints what comes
//! of each. Handlers, verifier, signer, sink and reader are scripted: what they answer, and at which call they fail, is
//! in the commands.
//!
//! | Command | What it does |
//! |---|---|
//! | `udp`, `tcp`, `now SECONDS` | the transport and the time of the messages that follow |
//! | `identifier HEX\|none` | the identifier of the server (RFC 5001) |
//! | `sink works\|keeps N\|fails N` | the sink fails at the Nth reply to a message; it keeps the reply or not |
//! | `zone NAME [KIND] [allow-all\|allow-signed] [updates=made\|updates=refused]` | begins a zone; KIND is `primary`, `secondary` or `external` |
//! | `part NAME [KIND] [validates] [nsec\|nsec3=N] [signs=KEY]` | begins a scripted handler; with `signs` its answers are to be signed by a key |
//! | `on search\|consult\|lookup\|denial\|transfer skip\|continue\|break\|add [WHAT]` | what a call of it answers |
//! | `on update changed\|unchanged\|memory\|CODE` | what an update of it answers |
//! | `answers`, `authorities`, `soa`, `additionals` | the section of the records that follow |
//! | a line whose first word ends in a dot | a record of the zone or of the answer begun last, in the text of a zone |
//! | `list NAME [wildcards=no] [depth=N] [ipv4=A] [ipv6=A] [ttl=N] [message=WORD] [consult=enforce\|log]` | begins a list of blocked names |
//! | `pieces HEX\|=TEXT\|- .. [fails]` | adds what a reader gives to the list, one word at each read (`-` is no byte), before it ends or fails |
//! | `serve NAME`, `remove NAME`, `show NAME` | serves the handlers begun as the chain of a name; takes a chain away; prints its zones |
//! | `ask HEX`, `lookup [do] HEX`, `modify HEX` | hands a message to the server, to its lookup (`do` is for the reply), to its update |
//! | `call search\|transfer HEX`, `call lookup\|consult\|nsec\|nsec3 NAME TYPE [do]` | calls the handler begun last |
//! | `message HEX` | the message written anew, or its first fault; it is read in the place of the message before |
//! | `emit LIMIT HEX`, `encode LIMIT HEX` | the message written anew within a limit; with `encode`, or a server failure |
//!
//! WHAT is a response code, `resolved [secure|insecure|bogus]`, `whole CODE [aa]`, `no-records CODE`, `empty`, `bogus`,
//! `failed`, `unreadable` or `memory`; without it the answer is the records that follow.
//!
//! The verifier and the signer go by the name of the key: `unknown.example.` is not known, signatures by `bad.example.`
//! are bad, for `lacking.example.` the verifier lacks memory, by `unsigned.example.` the signer cannot sign, and for
//! `unsigned-lacking.example.` it lacks memory, and by `echo.example.` it signs with the bytes themselves. By any other key
//! signatures are good from 100 until 200, and replies are signed with the MAC 01020304.
//!
//! After what a line prints is an empty line. Before an answer are the calls of scripted handlers: `  PLACE CALL NAME TYPE [answers=N] [iterations=N] [id=N]
//! [wildcard] [do]`. The status is 0, 1 if a line was not obeyed, 3 without memory, and 4 if input or output failed.
#![tactic(auto)]

mod answer;
mod asking;
mod calling;
mod calls;
mod fault;
mod handler;
mod keys;
mod messages;
mod output;
mod script;
mod sink;
mod words;
mod zone;

use crate::asking::{Asked, ask, show};
use crate::calling::call;
use crate::fault::Fault;
use crate::messages::{message, rewrite};
use crate::output::Output;
use crate::script::Script;
use crate::words::{section, sinking};
use hickory_wire::Protocol;
use std::alloc::{AllocError, Global};
use std::io::{self, BufRead, BufReader};
use std::process::ExitCode;

/// Obeys a command that asks.
fn obey_asking(script: &mut Script, words: &[&str], out: &mut Output) -> Result<(), Fault> {
    match words {
        ["ask", digits @ ..] => ask(script, Asked::Server, digits, out),
        ["lookup", "do", digits @ ..] => ask(script, Asked::Lookup(true), digits, out),
        ["lookup", digits @ ..] => ask(script, Asked::Lookup(false), digits, out),
        ["modify", digits @ ..] => ask(script, Asked::Update, digits, out),
        ["show", name] => show(script, name, out),
        ["call", words @ ..] => call(script, words, out),
        ["message", digits @ ..] => message(script, digits, out),
        ["emit", limit, digits @ ..] => rewrite(script, limit, digits, false, out),
        ["encode", limit, digits @ ..] => rewrite(script, limit, digits, true, out),
        _ => Err(Fault::Line("no such command")),
    }
}

/// Obeys a command that sets what holds for the messages that follow.
fn obey_setting(script: &mut Script, words: &[&str], out: &mut Output) -> Result<(), Fault> {
    match words {
        ["udp"] => script.protocol = Protocol::Udp,
        ["tcp"] => script.protocol = Protocol::Tcp,
        ["now", seconds] => script.now = seconds.parse::<u64>()?,
        ["sink", words @ ..] => script.sinking = sinking(words)?,
        ["identifier", words @ ..] => return script.identify(words),
        [word] if section(word).is_some() => {
            if let Some(section) = section(word) {
                script.section = section;
            }
        }
        _ => return obey_asking(script, words, out),
    }
    Ok(())
}

/// Obeys a line of these words.
fn obey(script: &mut Script, words: &[&str], line: &str, out: &mut Output) -> Result<(), Fault> {
    match words {
        [] => Ok(()),
        [owner, _, ..] if owner.ends_with('.') => script.put_line(line),
        ["zone", origin, words @ ..] => script.begin_zone(origin, words),
        ["part", origin, words @ ..] => script.begin_part(origin, words),
        ["list", origin, words @ ..] => script.begin_list(origin, words),
        ["pieces", words @ ..] => script.add_pieces(words, out),
        ["on", "update", word] => script.set_update(word),
        ["on", words @ ..] => script.begin_answer(words),
        ["serve", apex] => script.serve(apex),
        ["remove", apex] => script.remove(apex),
        words => obey_setting(script, words, out),
    }
}

/// What a line prints, without the empty line after it. Want of memory ends the program; any other fault is printed.
fn said(script: &mut Script, line: &str, number: usize) -> Result<(String, bool), AllocError> {
    let mut out = Output::new(script.alloc);
    let words: Vec<&str> = line.split_whitespace().collect(script.alloc)?;
    let obeyed = obey(script, &words, line, &mut out);
    let is_obeyed = obeyed.is_ok();
    match obeyed {
        Err(Fault::Memory(_)) => out.is_refused = true,
        Err(fault) => {
            out.put("line ");
            out.put_value(&number);
            out.put(": ");
            out.put_value(&fault);
            out.put("\n");
        }
        Ok(()) => {}
    }
    Ok((out.into_text()?, is_obeyed))
}

/// Obeys the lines of the standard input, and gives whether each line was obeyed.
fn obey_lines<R: Input + Print + Alloc<A = Global>>(
    rt: &R,
    script: &mut Script,
) -> Result<bool, Fault> {
    let alloc = rt.alloc();
    let mut all_obeyed = true;
    let mut number = 0usize;
    for line in BufReader::new(alloc, rt.reader())?.lines(alloc) {
        number = number.saturating_add(1);
        let (text, is_obeyed) = said(script, line?.as_str(), number)?;
        println!(rt; "{text}")?;
        all_obeyed = all_obeyed && is_obeyed;
    }
    Ok(all_obeyed)
}

/// Obeys the standard input.
fn run<R: Input + Print + Alloc<A = Global>>(rt: &R) -> Result<bool, Fault> {
    let mut script = Script::new(rt.alloc())?;
    let ended = obey_lines(rt, &mut script);
    drop(script);
    ended
}

fn main(rt: HostRuntime) -> ExitCode {
    let status = match run(&rt) {
        Ok(true) => 0,
        Ok(false) => 1,
        Err(Fault::Memory(_)) => match println!(rt; "no memory") {
            Ok(()) => 3,
            Err(_) => 4,
        },
        Err(_) => 4,
    };
    ExitCode::from(status)
}
