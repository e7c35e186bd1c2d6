//! What is counted of the messages that come and of their replies.

ghost use Rattle.std.specs.Prelude.{◌≡◌, List, ℕ, length};
ghost use Rattle.server_reports.specs.Counting.{message_counted};
ghost use Rattle.server.specs.Counted.{AreCounted, AnswerCounted, StreamCounted, number_counted, one_counted};

use crate::frames::whole_message;
use crate::told::DONE;
use server_reports::{Counters, Unanswered};

/// Counts a message that came over a stream, or a reply.
fn count_one(counters: &mut Counters, came: bool, message: &[u8])
    ensures { counters.new ≡ one_counted came counters.old message.now }
{
    if came {
        counters.count_message(true, message.len());
    } else {
        counters.count_reply(message);
    }
}

/// Counts each of the messages that are whole at the front of bytes, after their lengths: as ones that came over a
/// stream, or as replies.
pub fn count_frames(counters: &mut Counters, came: bool, frames: &[u8])
    ensures { AreCounted (one_counted came) frames.now counters.old counters.new }
{
    let mut at = 0;
    // Each turn takes two bytes at least.
    for _ in 0..frames.len() {
        let Some(message) = whole_message(&frames[at..]) else {
            return;
        };
        count_one(counters, came, message);
        at += 2 + message.len();
        // speed: served, an address
        if at >= frames.len() {
            return;
        }
    }
}

/// Counts why a message got no reply, if its number says so.
#[inline(never)]
fn count_number(counters: &mut Counters, number: u32)
    ensures { counters.new ≡ number_counted counters.old number }
{
    let reason = match number {
        1 => Unanswered::Denied,
        2 => Unanswered::Response,
        3 => Unanswered::Unreadable,
        4 | 5 => Unanswered::Dropped,
        8 => Unanswered::Limited,
        _ => return,
    };
    counters.count_unanswered(reason);
}

/// Counts a message of so many bytes that came over a stream or as a datagram, the number that it was answered with,
/// and the replies that were written.
// speed: served, an address
#[inline(always)]
pub fn count_answer(counters: &mut Counters, stream: bool, size: usize, number: u32, written: &[u8])
    ensures { AnswerCounted stream size number written.now counters.old counters.new }
{
    counters.count_message(stream, size);
    if number != DONE {
        count_number(counters, number);
    }
    count_frames(counters, false, written);
}

/// Counts the messages that were taken of a stream, the number that they were answered with, and the replies that were
/// written.
pub fn count_stream(counters: &mut Counters, taken: &[u8], number: u32, written: &[u8])
    ensures { StreamCounted taken.now number written.now counters.old counters.new }
{
    count_frames(counters, true, taken);
    count_number(counters, number);
    count_frames(counters, false, written);
}
