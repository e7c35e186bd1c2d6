//! Messages that came, replies to them, and those that got none.

ghost use Rattle.std.specs.Prelude.{◌≡◌};
ghost use Rattle.server_reports.specs.Counting.{message_counted, no_counts, reply_counted, unanswered_counted};

/// Why a message got no reply.
#[derive(Clone, Copy, Debug, PartialEq, Eq)]
pub enum Unanswered {
    /// Its address may not use the server.
    Denied,
    /// It was itself a response.
    Response,
    /// Its bytes began with no message (RFC 1035 section 4.1).
    Unreadable,
    /// Memory was refused.
    Dropped,
    /// Its network got as many replies as it may.
    Limited,
}

/// What a server has done since it was made. Each number stops at 2^64 - 1, so that none ever falls. C has it as a
/// structure of the same fields in their order.
#[derive(Clone, Copy, Debug, PartialEq, Eq)]
#[repr(C)]
pub struct Counters {
    /// How many messages came as datagrams, whatever became of them.
    pub udp: u64,
    /// How many came over streams.
    pub tcp: u64,
    /// How many bytes these messages had, without the lengths before them.
    pub received: u64,
    /// Of how many the address may not use the server.
    pub denied: u64,
    /// How many were themselves responses.
    pub responses: u64,
    /// How many began with no message.
    pub unreadable: u64,
    /// For how many memory was refused.
    pub dropped: u64,
    /// The reply to how many was kept back, since their networks got as many as they may.
    pub limited: u64,
    /// How many replies have each response code in their header (RFC 1035 section 4.1.1), from 0 to 15. The upper bits
    /// of a code that is split between header and OPT record (RFC 6891 section 6.1.3) are not looked at.
    pub codes: [u64; 16],
    /// How many replies are truncated (TC, RFC 1035 section 4.1.1).
    pub truncated: u64,
    /// How many bytes the replies had, without the lengths before them.
    pub sent: u64,
}

impl Counters {
    /// Nothing is counted.
    pub fn new() -> Counters
        ensures { result ≡ no_counts }
    {
        Counters {
            udp: 0,
            tcp: 0,
            received: 0,
            denied: 0,
            responses: 0,
            unreadable: 0,
            dropped: 0,
            limited: 0,
            codes: [0; 16],
            truncated: 0,
            sent: 0,
        }
    }

    /// Counts a message of so many bytes that came over a stream, or as a datagram.
    pub fn count_message(&mut self, stream: bool, size: usize)
        ensures { self.new ≡ message_counted self.old stream size }
    {
        if stream {
            self.tcp = self.tcp.saturating_add(1);
        } else {
            self.udp = self.udp.saturating_add(1);
        }
        self.received = self.received.saturating_add(size as u64);
    }

    /// Counts that a message got no reply.
    pub fn count_unanswered(&mut self, reason: Unanswered)
        ensures { self.new ≡ unanswered_counted self.old reason }
    {
        match reason {
            Unanswered::Denied => self.denied = self.denied.saturating_add(1),
            Unanswered::Response => self.responses = self.responses.saturating_add(1),
            Unanswered::Unreadable => self.unreadable = self.unreadable.saturating_add(1),
            Unanswered::Dropped => self.dropped = self.dropped.saturating_add(1),
            Unanswered::Limited => self.limited = self.limited.saturating_add(1),
        }
    }

    /// Counts a reply by its bytes. Of bytes that are fewer than the flags of a header (RFC 1035 section 4.1.1) have
    /// only their number is counted.
    pub fn count_reply(&mut self, reply: &[u8])
        ensures { self.new ≡ reply_counted self.old reply.now }
    {
        self.sent = self.sent.saturating_add(reply.len() as u64);
        let [_, _, high, low, ..] = reply else {
            return;
        };
        let code = usize::from(*low % 16);
        self.codes[code] = self.codes[code].saturating_add(1);
        if *high / 2 % 2 == 1 {
            self.truncated = self.truncated.saturating_add(1);
        }
    }
}
