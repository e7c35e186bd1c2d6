//! answer NAME FILE: answers the DNS message on the standard input by the zone of this name and file, and writes the
//! reply. The message counts as one from 192.0.2.1 over UDP. The status is 1 if it gets no reply.
#![tactic(auto)]

use hickory_server::proto::Protocol;
use server::frames::MOST_FRAME;
use server::service::Service;
use server::settings::SettingFault;
use std::alloc::AllocError;
use std::io::{self, Read, Write};
use std::net::{IpAddr, Ipv4Addr, SocketAddr};
use std::process::ExitCode;
use std::time::{SystemTime, UNIX_EPOCH};
use std::{env, fs};
use thiserror::Error;

/// Why there is no reply.
#[derive(Debug, Drop, Error)]
enum Fault {
    #[error("usage: answer NAME FILE")]
    Usage,
    #[error("{0}")]
    Zone(#[from] SettingFault),
    #[error("{0}")]
    System(#[from] io::Error),
    #[error("the message gets no reply")]
    NoReply,
    #[error("no memory")]
    Memory(#[from(alloc)] AllocError),
}

/// Lets a server have the zone that the arguments name.
fn add_zone(rt: &HostRuntime, service: &mut Service) -> Result<(), Fault> {
    let words: Vec<String> = env::args(rt)?.skip(1).collect(rt.alloc())?;
    let [name, file] = words.as_slice() else {
        return Err(Fault::Usage);
    };
    service.add_zone(rt.alloc(), name.as_bytes(), &fs::read(rt, file)?)?;
    service.serve_zones(rt.alloc())?;
    Ok(())
}

/// The seconds since 1970.
fn now(rt: &HostRuntime) -> Result<u64, Fault> {
    match SystemTime::now(rt)?.duration_since(UNIX_EPOCH) {
        Ok(since) => Ok(since.as_secs()),
        Err(_) => Ok(0),
    }
}

/// Answers the message on the standard input.
fn answer(rt: &HostRuntime, service: &mut Service) -> Result<(), Fault> {
    let mut message = Vec::new(rt.alloc());
    rt.reader().read_to_end(&mut message)?;
    let client = SocketAddr::new(IpAddr::V4(Ipv4Addr::new(192, 0, 2, 1)), 53000);
    let mut out = vec![in rt.alloc(); 0; MOST_FRAME]?;
    let server = &mut service.answering;
    let answered = server.answer(
        rt.alloc(),
        &message,
        client,
        Protocol::Udp,
        now(rt)?,
        &mut out,
    );
    // A reply is written after its length in two bytes. A datagram has no length.
    match answered.ok().and_then(|end| out.get(2..end)) {
        Some(reply) => Ok(io::writer(rt).write_all(reply)?),
        None => Err(Fault::NoReply),
    }
}

/// Answers the message on the standard input by the zone that the arguments name.
fn run(rt: &HostRuntime) -> Result<(), Fault> {
    let mut service = Service::new(rt.alloc())?;
    let ended = match add_zone(rt, &mut service) {
        Ok(()) => answer(rt, &mut service),
        Err(fault) => Err(fault),
    };
    drop(service);
    ended
}

fn main(rt: HostRuntime) -> ExitCode {
    match run(&rt) {
        Ok(()) => ExitCode::SUCCESS,
        Err(fault) => {
            let _ = eprintln!(rt; "answer: {fault}");
            ExitCode::FAILURE
        }
    }
}
