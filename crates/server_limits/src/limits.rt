//! The limits, and what is counted for them.

ghost use Rattle.std.specs.Prelude.{◌≡◌, ◌≤◌, ◌*◌, IfOk, replicate};
ghost use Rattle.server_limits.specs.Limits.{counted_before, counted_in, empty, one_more, verdict_of};

use crate::networks::{PLACES, place};
use std::alloc::{AllocError, Global};
use std::marker::Model;

/// What becomes of a reply.
#[derive(Clone, Copy, Debug, PartialEq, Eq)]
pub enum Verdict {
    /// It is sent as it is.
    Send,
    /// It is sent without records, and says that the whole is to be had over TCP (TC, RFC 1035 section 4.1.1).
    Truncate,
    /// It is not sent.
    Drop,
}

/// What is counted at a place: the replies of one window of time.
#[derive(Clone, Copy, Debug, PartialEq, Eq)]
pub(crate) struct Place {
    window: u64,
    count: u64,
}

/// How many replies were counted at a place in the window of this number.
fn counted_in(number: u64, place: Place) -> u64
    ensures { result ≡ counted_in number place }
{
    if place.window == number {
        place.count
    } else {
        0
    }
}

/// What becomes of a reply before which so many were counted.
fn verdict_at(limit: u64, slip: u64, count: u64) -> Verdict
    ensures { result ≡ verdict_of limit slip count }
{
    if count < limit {
        return Verdict::Send;
    }
    if slip > 0 && (count - limit) % slip == slip - 1 {
        Verdict::Truncate
    } else {
        Verdict::Drop
    }
}

/// The replies of networks of clients, and how many each may have. It takes a mebibyte.
#[derive(Drop)]
pub struct RateLimits {
    limit: u64,
    slip: u64,
    window: u64,
    places: Vec<Place>,
}

impl Model for RateLimits {
    ghost use Rattle.std.specs.Prelude.{◌≡◌, ◌≤◌, length};
    ghost use Rattle.server_limits.specs.Limits.{Limits};

    ghost Value = { Limits };

    ghost view = { λ r. record { limit = r.limit; slip = r.slip; window = r.window; places = r.places.items } };

    ghost invariant = { λ r. (1 ≤ r.window) × (length r.places.items ≡ 65521) };
}

impl RateLimits {
    /// So many replies a second to a network of clients, reckoned over windows of so many seconds; of those above it
    /// each so many is sent truncated (`slip`), and none where it is 0. An error says that memory was refused.
    pub fn new(alloc: Global, rate: u32, slip: u32, window: u32) -> Result<RateLimits, AllocError>
        requires { 1 ≤ window }
        ensures { IfOk result (λ limits.
            limits ≡ record { limit = rate * window; slip = slip; window = window; places = replicate 65521 empty }) }
    {
        let nothing = Place {
            window: 0,
            count: 0,
        };
        Ok(RateLimits {
            limit: rate as u64 * window as u64,
            slip: slip as u64,
            window: window as u64,
            places: vec![in alloc; nothing; PLACES]?,
        })
    }

    /// What becomes of a reply to an address, the four bytes of IPv4 or the sixteen of IPv6, at a moment in seconds;
    /// and counts it.
    pub fn judge(&mut self, address: &[u8], now: u64) -> Verdict
        ensures verdict { result ≡ verdict_of self.old.limit self.old.slip (counted_before self.old address.now now) }
        ensures counted { self.new ≡ one_more self.old address.now now }
    {
        let (place, number) = (place(address), now / self.window);
        let count = counted_in(number, self.places[place]);
        self.places[place] = Place {
            window: number,
            count: count.saturating_add(1),
        };
        verdict_at(self.limit, self.slip, count)
    }
}
