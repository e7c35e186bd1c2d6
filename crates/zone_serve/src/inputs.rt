//! Serving an input in one of the three modes.

ghost use Rattle.std.specs.Prelude.{OnOk};
ghost use Rattle.server.specs.Serving.{Stays};
ghost use Rattle.signed_server.specs.KeyedServers.{keyed_of};
ghost use Rattle.zone_serve.specs.Inputs.{InputServed};

use crate::fault::Fault;
use crate::groups::{Holder, Watch, serve_lines};
use crate::serving::{serve_datagram, serve_stream};
use hickory_server::zone_handler::{ReplySigner, ZoneHandler};
use serve_options::arguments::Mode;
use signed_server::SignedServer;
use std::alloc::Global;
use std::io::{Read, Write};
use std::net::IpAddr;
use std::rt::Clock;

/// How messages come, and the address that they come from, if no line says it.
#[derive(Clone, Copy)]
pub struct Peer {
    /// How they come.
    pub mode: Mode,
    /// The address.
    pub address: IpAddr,
}

/// Serves an input by a server, as the mode says: the number of the first line that is no message, if there is one; the
/// first line is 1.
pub fn serve_input<
    C: Clock + Alloc<A = Global>,
    S: ReplySigner,
    H: ZoneHandler,
    R: Read,
    W: Write,
    O: Holder<S, H>,
    T: Watch<S, H>,
>(
    rt: &C,
    server: &mut SignedServer<S, H>,
    peer: Peer,
    reader: &mut R,
    writer: &mut W,
    holder: &O,
    watch: &mut T,
) -> Result<Option<u64>, Fault>
    ensures stays { Stays server.old server.new }
    ensures served { OnOk result (InputServed (O.begins holder.now) (O.settles holder.now)
        (keyed_of H.ZoneHandler S.signature_for server.old) peer.mode peer.address
        (record {
          input = R.remaining reader.old;
          left = R.remaining reader.new;
          output = W.contents writer.old;
          filled = W.contents writer.new;
        }) server.new.server.catalog.zones) }
{
    let (alloc, address) = (rt.alloc(), peer.address);
    match peer.mode {
        Mode::Udp => {
            serve_datagram(alloc, rt, server, address, reader, writer)?;
            Ok(None)
        }
        Mode::Tcp => {
            serve_stream(alloc, rt, server, address, reader, writer)?;
            Ok(None)
        }
        Mode::Lines => serve_lines(alloc, rt, server, reader, writer, holder, watch),
    }
}
