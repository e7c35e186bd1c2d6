//! A log of queries, of which one in so many has a line.

ghost use Rattle.std.specs.Prelude.{◌≡◌, ◌≤◌, ◌++◌, [], OnErr, OnOk, drop, length, take};
ghost use Rattle.server_reports.specs.QueryLogs.{IsLogged, counted, is_due, is_on, told_line};

use crate::lines::put_query_line;
use std::alloc::{AllocError, Global};
use std::net::IpAddr;

/// While lines of more bytes than these wait, there are no more.
const MOST_BYTES: usize = 262_144;

/// So many bytes of a message have a header and a question at most (RFC 1035 section 4.1).
const MOST_FRONT: usize = 271;

/// Lines that tell queries and wait to be taken. Of so many queries one has a line, and none where that is 0; so many
/// are left out before the next line.
#[derive(Drop)]
pub struct QueryLog {
    every: u32,
    left: u32,
    lines: Vec<u8>,
}

/// The bytes at the front of a message that may be its header and its first question.
fn front_of(message: &[u8]) -> &[u8]
    ensures { result.now ≡ take 271 message.now }
{
    if message.len() <= MOST_FRONT {
        return message;
    }
    &message[..MOST_FRONT]
}

impl QueryLog {
    /// A log that tells nothing.
    pub fn new(alloc: Global) -> QueryLog
        ensures off { result.every ≡ 0 }
        ensures empty { result.lines.items ≡ [] }
    {
        QueryLog {
            every: 0,
            left: 0,
            lines: Vec::new(alloc),
        }
    }

    /// Has the next query and then one in so many told, or none where that is 0.
    pub fn set(&mut self, every: u32)
        ensures { self.new ≡ record self.old { every = every; left = 0 } }
    {
        self.every = every;
        self.left = 0;
    }

    /// Whether one in so many queries has a line, and few enough bytes wait.
    // speed: served, an address
    #[inline(always)]
    pub fn is_on(&self) -> bool
        ensures { result ≡ is_on self.now }
    {
        self.every > 0 && self.lines.len() <= MOST_BYTES
    }

    /// Counts a query: whether it is to have a line.
    fn is_due(&mut self) -> bool
        ensures due { result ≡ is_due self.old }
        ensures counted { self.new ≡ counted self.old }
    {
        if self.every == 0 || self.lines.len() > MOST_BYTES {
            return false;
        }
        if self.left > 0 {
            self.left -= 1;
            return false;
        }
        self.left = self.every - 1;
        true
    }

    /// Puts the line of a query with a reply last.
    fn tell(
        &mut self,
        alloc: Global,
        now: u64,
        address: IpAddr,
        stream: bool,
        query: &[u8],
        reply: &[u8],
    ) -> Result<(), AllocError>
        ensures ok { OnOk result (self.new.lines.items ≡ self.old.lines.items ++ told_line now address stream query.now
            reply.now) }
        ensures others { self.new ≡ record self.old { lines = self.new.lines } }
        ensures err { OnErr result (self.new.lines.items ≡ self.old.lines.items) }
    {
        let mut line = Vec::new(alloc);
        put_query_line(
            alloc,
            now,
            address,
            stream,
            front_of(query),
            reply,
            reply.len(),
            &mut line,
        )?;
        self.lines.extend_from_slice(line.as_slice())
    }

    /// Counts a query that has a reply, and puts its line, if it is to have one and memory is given for it.
    #[inline(never)]
    pub fn put(
        &mut self,
        alloc: Global,
        now: u64,
        address: IpAddr,
        stream: bool,
        query: &[u8],
        reply: &[u8],
    )
        ensures { IsLogged self.old (told_line now address stream query.now reply.now) self.new }
    {
        if self.is_due() {
            let _told = self.tell(alloc, now, address, stream, query, reply);
        }
    }

    /// Writes lines that wait, as many of their bytes as there is room for: how many.
    pub fn take(&mut self, out: &mut [u8]) -> usize
        ensures len { length out.new ≡ length out.old }
        ensures within { result ≤ length out.new }
        ensures put { take result out.new ≡ take result self.old.lines.items }
        ensures left { self.new.lines.items ≡ drop result self.old.lines.items }
        ensures set { (self.new.every ≡ self.old.every) × (self.new.left ≡ self.old.left) }
    {
        let count = self.lines.len().min(out.len());
        out[..count].copy_from_slice(&self.lines.as_slice()[..count]);
        drop(self.lines.drain(..count));
        count
    }
}
