//! How many replies over UDP networks of clients get.

ghost use Rattle.std.specs.Prelude.{◌≡◌, ◌≤◌, ℕ, IfSome, List, length, take};
ghost use Rattle.server_limits.specs.Limits.{one_more};
ghost use Rattle.server_limits.specs.Truncating.{IsTruncated};
ghost use Rattle.server.specs.Frames.{BeginsWith, IsFrame};
ghost use Rattle.server.specs.Limited.{IsLimited, IsReplyLimited, IsShortened};

use crate::frames::{put_frame, whole_message};
use crate::told::DONE;
use server_limits::{RateLimits, Verdict, truncated};
use std::alloc::Global;

/// The reply to a datagram is kept back, since its network got as many as it may.
const LIMITED: u32 = 8;

/// Writes in the place of a reply, which is after its length at the front, that the whole is to be had over TCP:
/// the place after it. `None` if there is no memory for it, or the reply has no question.
fn put_truncated(alloc: Global, out: &mut [u8], written: usize) -> Option<usize>
    requires { written ≤ length out.old }
    ensures len { length out.new ≡ length out.old }
    ensures some { IfSome result (λ end. (end ≤ length out.new) × (reply : List ℕ) × (short : List ℕ) ×
        BeginsWith (take written out.old) reply × IsTruncated reply short × IsFrame (take end out.new) short) }
{
    let Some(reply) = whole_message(&out[..written]) else {
        return None;
    };
    let Ok(Some(short)) = truncated(alloc, reply) else {
        return None;
    };
    put_frame(out, 0, &short)
}

/// Shortens a reply that was written at the front, so that it says that the whole is to be had over TCP. Where that
/// cannot be, nothing is left, which the number says.
fn shorten(alloc: Global, out: &mut [u8], written: &mut usize) -> u32
    requires { written.old ≤ length out.old }
    ensures shortened { IsShortened (take written.old out.old) result (take written.new out.new) }
    ensures within { written.new ≤ length out.new }
{
    match put_truncated(alloc, out, *written) {
        Some(end) => {
            *written = end;
            DONE
        }
        None => {
            *written = 0;
            LIMITED
        }
    }
}

/// Limits a reply to a datagram that was written at the front: it stays, or is shortened, or goes, which the number
/// says.
fn limit_reply(
    alloc: Global,
    limits: &mut RateLimits,
    source: &[u8],
    now: u64,
    out: &mut [u8],
    written: &mut usize,
) -> u32
    requires { written.old ≤ length out.old }
    ensures limited { IsReplyLimited limits.old source.now now (take written.old out.old) result
        (take written.new out.new) }
    ensures counted { limits.new ≡ one_more limits.old source.now now }
    ensures within { written.new ≤ length out.new }
{
    match limits.judge(source, now) {
        Verdict::Send => DONE,
        Verdict::Truncate => shorten(alloc, out, written),
        Verdict::Drop => {
            *written = 0;
            LIMITED
        }
    }
}

/// Limits what was written in answer to a message, if it is a datagram and replies are limited: the number that is
/// answered.
pub fn limit(
    alloc: Global,
    limits: &mut Option<RateLimits>,
    stream: bool,
    source: &[u8],
    now: u64,
    made: u32,
    out: &mut [u8],
    written: &mut usize,
) -> u32
    requires { written.old ≤ length out.old }
    ensures limited { IsLimited limits.old (record { address = source.now; stream = stream; now = now })
        (record { number = made; written = written.old; out = out.old })
        (record { number = result; written = written.new; out = out.new }) limits.new }
    ensures within { written.new ≤ length out.new }
{
    // speed: served, an address
    let Some(limits) = limits else {
        return made;
    };
    if made != DONE || stream || *written == 0 {
        return made;
    }
    limit_reply(alloc, limits, source, now, out, written)
}
