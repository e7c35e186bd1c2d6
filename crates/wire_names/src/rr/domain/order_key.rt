//! Names in a form that is compared byte by byte.

ghost use Rattle.std.specs.Prelude.{◌≡◌, ℕ, ◌+◌, ◌*◌, ◌<◌, ◌≤◌, List, ◌∷◌, ◌++◌, length, take, drop, IfOk, OnOk, IfSome, IsTrue};
ghost use Rattle.wire_names.specs.rr.domain.DomainName.{IsWire, cut, wire_form};
ghost use Rattle.wire_names.specs.representation.NameBytes.{wire_bytes};
ghost use Rattle.wire_names.specs.representation.OrderKey.{IsSharedFront, escaped, order_key};

use crate::values::wire::{SHORT_LEN, ShortBytes, Wire};
use std::alloc::{AllocError, Global};

/// At least as many bytes as the key of any name has: each byte of a label takes two at most, and each label one more.
const KEY_ROOM: usize = 512;

/// Puts a label, and the byte that ends it, in front of what stands in the room from a place on. Returns where it
/// begins.
fn put_label(room: &mut [u8], end: usize, label: &[u8]) -> usize
    requires enough { 2 * length label.now < end }
    requires within { end ≤ length room.old }
    ensures put { drop result room.new ≡ escaped label.now ++ 0 ∷ drop end room.old }
    ensures before { result < end }
    ensures few { end ≤ result + 2 * length label.now + 1 }
{
    let mut start = end - 1;
    room[start] = 0;
    let mut left = label.len();
    while left > 0 {
        left -= 1;
        let byte = label[left];
        start -= 1;
        if byte < 2 {
            room[start] = byte + 1;
            start -= 1;
            room[start] = 1;
        } else {
            room[start] = byte;
        }
    }
    start
}

/// How many bytes a label takes in a key, without the byte that ends it.
pub(crate) fn escaped_len(label: &[u8]) -> usize
    requires { length label.now < 256 }
    ensures { result ≡ length (escaped label.now) }
{
    let mut count = label.len();
    let mut left = label.len();
    while left > 0 {
        left -= 1;
        if label[left] < 2 {
            count += 1;
        }
    }
    count
}

/// How many bytes at the front of a key are of whole labels that the other key begins with too: of as many labels as
/// do, but not of all that the key has.
pub(crate) fn shared_len(key: &[u8], other: &[u8]) -> usize
    ensures { IsSharedFront key.now other.now result }
{
    let mut shared = 0;
    let mut place = 0;
    while place + 1 < key.len() && place < other.len() && key[place] == other[place] {
        if key[place] == 0 {
            shared = place + 1;
        }
        place += 1;
    }
    shared
}

/// How many bytes the labels with this key take in wire form.
pub(crate) fn wire_len(key: &[u8]) -> usize
    ensures { (labels : List (List ℕ)) → key.now ≡ order_key labels → result ≡ length (wire_form labels) }
{
    let mut len = 0;
    let mut place = 0;
    while place < key.len() {
        // The byte 1 stands for one byte with the byte behind it.
        place += if key[place] == 1 { 2 } else { 1 };
        len += 1;
    }
    len
}

/// The key of the name whose labels these are, made at the end of a room.
#[inline(never)]
fn make_key_in(room: &mut [u8], alloc: Global, wire: &[u8]) -> Result<Wire, AllocError>
    requires wire { IsWire wire.now }
    requires enough { 2 * length wire.now ≤ length room.old }
    ensures { IfOk result (λ key. wire_bytes key ≡ order_key (cut wire.now)) }
{
    let mut start = room.len();
    let mut place = 0;
    while place < wire.len() {
        let first = place + 1;
        let next = first + usize::from(wire[place]);
        start = put_label(room, start, &wire[first..next]);
        place = next;
    }
    Wire::from_slice(alloc, &room[start..])
}

/// Puts a label without a byte below 2, as nearly all are, and the byte that ends it in front of what stands in the
/// room from a place on, and returns where it begins. For any other label it returns nothing.
// speed: served, an address of 120 labels
#[inline(always)]
fn put_plain(room: &mut [u8], end: usize, label: &[u8]) -> Option<usize>
    requires some { 0 < length label.now }
    requires enough { length label.now < end }
    requires within { end ≤ length room.old }
    ensures { IfSome result (λ start. (start + length label.now + 1 ≡ end) ×
        (drop start room.new ≡ escaped label.now ++ 0 ∷ drop end room.old)) }
{
    room[end - 1] = 0;
    let mut start = end - 1;
    let mut left = label.len();
    loop {
        left -= 1;
        let plain = label[left];
        if plain < 2 {
            return None;
        }
        start -= 1;
        room[start] = plain;
        if left == 0 {
            return Some(start);
        }
    }
}

/// Makes the key in a room of as many bytes as the labels take, where none of theirs is below 2. Returns whether none
/// is.
#[inline(always)]
fn fill_plain_key(room: &mut [u8], wire: &[u8]) -> bool
    requires wire { IsWire wire.now }
    requires exact { length room.old ≡ length wire.now }
    ensures { IsTrue result → room.new ≡ order_key (cut wire.now) }
{
    let mut start = room.len();
    let mut place = 0;
    while place < wire.len() {
        let first = place + 1;
        let next = first + usize::from(wire[place]);
        let Some(before) = put_plain(room, start, &wire[first..next]) else {
            return false;
        };
        start = before;
        place = next;
    }
    true
}

/// Makes the key in the place of the bytes of a vector, where no byte of a label is below 2. Returns whether it did.
fn set_plain_bytes(key: &mut Vec<u8>, wire: &[u8]) -> Result<bool, AllocError>
    requires { IsWire wire.now }
    ensures { IfOk result (λ done. IsTrue done → key.new.items ≡ order_key (cut wire.now)) }
{
    key.resize(wire.len(), 0)?;
    Ok(fill_plain_key(key, wire))
}

/// The key of the name whose labels these are. Keys compare as the labels of the names do, from the last one on.
pub(crate) fn make_order_key(alloc: Global, wire: &[u8]) -> Result<Wire, AllocError>
    requires { IsWire wire.now }
    ensures { IfOk result (λ key. wire_bytes key ≡ order_key (cut wire.now)) }
{
    // Nearly all names have a key as long as they are, which is made where it stays.
    if wire.len() <= SHORT_LEN {
        let mut room = [0; SHORT_LEN];
        if fill_plain_key(&mut room[..wire.len()], wire) {
            return Ok(Wire::Short(ShortBytes::from_array(room, wire.len())));
        }
    } else {
        let mut key = Vec::new(alloc);
        if set_plain_bytes(&mut key, wire)? {
            return Ok(Wire::Long(key));
        }
    }
    make_key_in(&mut [0; KEY_ROOM], alloc, wire)
}

/// Makes the key in the place of another, in the memory that this one has where it is enough.
pub(crate) fn set_order_key(key: &mut Wire, alloc: Global, wire: &[u8]) -> Result<(), AllocError>
    requires { IsWire wire.now }
    ensures { OnOk result (wire_bytes key.new ≡ order_key (cut wire.now)) }
{
    if wire.len() > SHORT_LEN {
        if let Wire::Long(own) = key {
            if set_plain_bytes(own, wire)? {
                return Ok(());
            }
        }
    }
    *key = make_order_key(alloc, wire)?;
    Ok(())
}

/// Makes the key in the place of another, where both are short and no byte of a label is below 2. Returns whether it
/// did.
#[inline(always)]
pub(crate) fn set_plain_key(key: &mut Wire, wire: &[u8]) -> bool
    requires { IsWire wire.now }
    ensures { IsTrue result → wire_bytes key.new ≡ order_key (cut wire.now) }
{
    if let Wire::Short(short) = key {
        let mut room = [0; SHORT_LEN];
        if wire.len() <= SHORT_LEN && fill_plain_key(&mut room[..wire.len()], wire) {
            *short = ShortBytes::from_array(room, wire.len());
            return true;
        }
    }
    false
}
