//! Replies after their lengths (RFC 1035 section 4.2.2), and messages that come so in a stream.

ghost use Rattle.std.specs.Prelude.{◌≡◌, ◌≤◌, ◌+◌, ◌-◌, ◌++◌, ◌∷◌, [], ℕ, List, IfSome, IsNone, drop, length, take};
ghost use Rattle.server.specs.Frames.{ArePut, BeginsWith, HasNoRoom, IsCutShort, IsFrame};

use hickory_server::proto::Octets;

/// So many bytes a reply has at most, with its length before it.
pub const MOST_FRAME: usize = 65_537;

/// The message that is whole at the front of a stream's bytes.
pub fn whole_message(bytes: &[u8]) -> Option<&[u8]>
    ensures whole { IfSome result (λ message. BeginsWith bytes.now message.now) }
    ensures none { IsNone result → IsCutShort bytes.now }
{
    let [high, low, rest @ ..] = bytes else {
        return None;
    };
    let len = 256 * usize::from(*high) + usize::from(*low);
    if rest.len() < len {
        return None;
    }
    Some(&rest[..len])
}

/// Writes bytes at a place: the place after them.
fn put(out: &mut [u8], at: usize, bytes: &[u8]) -> usize
    requires { at + length bytes.now ≤ length out.old }
    ensures len { length out.new ≡ length out.old }
    ensures end { result ≡ at + length bytes.now }
    ensures put { take result out.new ≡ take at out.old ++ bytes.now }
{
    let end = at + bytes.len();
    out[at..end].copy_from_slice(bytes);
    end
}

/// Writes a reply after its length in two bytes at this place: the place after it, if there is room.
pub fn put_frame(out: &mut [u8], at: usize, reply: &[u8]) -> Option<usize>
    requires { at ≤ length out.old }
    ensures len { length out.new ≡ length out.old }
    ensures kept { IsNone result → out.new ≡ out.old }
    ensures no_room { IsNone result → HasNoRoom (length out.old - at) reply.now }
    ensures frame { IfSome result (λ end. (end ≤ length out.new) × (frame : List ℕ) × IsFrame frame reply.now ×
        (take end out.new ≡ take at out.old ++ frame)) }
{
    let (Ok(high), Ok(low)) = (
        u8::try_from(reply.len() / 256),
        u8::try_from(reply.len() % 256),
    ) else {
        return None;
    };
    if out.len() - at < 2 || out.len() - at - 2 < reply.len() {
        return None;
    }
    let behind = put(out, at, &[high, low]);
    Some(put(out, behind, reply))
}

/// Writes a reply at this place, as `put_frames` does several.
// speed: served, an address
#[inline(always)]
fn put_only(out: &mut [u8], at: usize, reply: &[u8]) -> (usize, usize)
    requires { at ≤ length out.old }
    ensures put { ArePut (reply.now ∷ []) out.old at out.new result.0 (drop result.1 (reply.now ∷ [])) }
    ensures count { result.1 ≤ 1 }
{
    match put_frame(out, at, reply) {
        Some(end) => (end, 1),
        None => (at, 0),
    }
}

/// Writes replies at this place, each after its length, as many as there is room for: the place after them, and how
/// many they are.
pub fn put_frames(out: &mut [u8], at: usize, replies: &[Octets]) -> (usize, usize)
    requires { at ≤ length out.old }
    ensures put { ArePut replies.now out.old at out.new result.0 (drop result.1 replies.now) }
    ensures count { result.1 ≤ length replies.now }
{
    // speed: served, an address
    if let [reply] = replies {
        return put_only(out, at, reply.as_slice());
    }
    let mut end = at;
    let mut count = 0;
    for reply in replies {
        match put_frame(out, end, reply.as_slice()) {
            Some(behind) => end = behind,
            None => return (end, count),
        }
        count += 1;
    }
    (end, count)
}
