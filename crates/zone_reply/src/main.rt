//! One DNS message in, its replies out: `zone_reply udp|tcp` reads a message as a line of hex digits, and prints each
//! reply as one; only a transfer has several. It serves the zone example.com., as the server `ns1`. `zone_reply
//! --version` prints its name and version, and `zone_reply --help` how it is started.
#![tactic(auto)]

mod command;
mod input;
mod run;
mod zone;

use crate::command::{Refusal, print};
use crate::run::run;
use crate::zone::{origin, zone};
use hickory_server::proto::NSIDPayload;
use hickory_server::server::NoKeys;
use hickory_server::zone_handler::{Catalog, ZoneHandler};
use std::alloc::Global;
use std::process::ExitCode;
use std::rt::Env;
use std::{env, io};

/// The arguments behind the program's name. One that is not UTF-8 is wrong usage.
fn arguments<R: Env + Alloc<A = Global>>(rt: &R) -> Result<Vec<String>, Refusal> {
    match env::args(rt) {
        Ok(arguments) => Ok(arguments.skip(1).collect(rt.alloc())?),
        Err(e) => match e.kind() {
            io::ErrorKind::OutOfMemory => Err(Refusal::Memory),
            _ => Err(Refusal::Usage),
        },
    }
}

/// The catalog with one zone, which this handler answers for, of the server `ns1`.
fn catalog<H: ZoneHandler>(alloc: Global, handler: H) -> Result<Catalog<NoKeys, H>, Refusal> {
    let origin = origin(alloc)?;
    let mut chain = Vec::new(alloc);
    chain.push(handler)?;
    let mut catalog = Catalog::new(alloc, NoKeys);
    catalog.set_nsid(NSIDPayload::new(b"ns1".to_vec(alloc)?).ok());
    match catalog.upsert(origin, chain) {
        Ok(_) => Ok(catalog),
        Err(_) => Err(Refusal::Memory),
    }
}

/// Answers the message of the standard input for a zone that this handler answers for, and gives the status.
fn serve<R: Env + Input + Print + Alloc<A = Global>, H: ZoneHandler>(
    rt: &R,
    handler: H,
) -> Result<u8, Refusal> {
    let arguments = arguments(rt)?;
    let mut catalog = catalog(rt.alloc(), handler)?;
    let status = run(
        rt.alloc(),
        &mut catalog,
        arguments.as_slice(),
        &mut rt.reader(),
        &mut io::writer(rt),
    );
    Ok(status)
}

/// Serves the zone, in a box as handlers of several types are.
fn answer_input(rt: &HostRuntime) -> Result<u8, Refusal> {
    let handler: Box<dyn ZoneHandler> = Box::new(rt.alloc(), zone(rt.alloc())?)?;
    serve(rt, handler)
}

fn main(rt: HostRuntime) -> ExitCode {
    let status = answer_input(&rt);
    let status = status.unwrap_or_else(|refusal| {
        print(&mut io::writer(&rt), refusal.line(), refusal.status())
    });
    ExitCode::from(status)
}
