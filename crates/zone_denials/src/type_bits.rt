//! Type bit maps (RFC 4034 section 4.1.2).

ghost use Rattle.std.specs.Prelude.{◌≡◌, ◌≤◌, ◌<◌, ◌+◌, ◌++◌, ◌^◌, IfOk, IfSome, OnOk};
ghost use Rattle.std.specs.Option.{option_map};
ghost use Rattle.zone_denials.specs.TypeBits.{IsPart, has_bit, next_part, listed_by, listed_in, types_in};

use std::alloc::{AllocError, Global};
use wire_messages::rr::record_type::RecordType;

/// The octet of a type bit map that is read next.
#[derive(Clone, Copy, Debug, PartialEq, Eq)]
pub enum Part {
    /// The number of a window, which is at least this.
    Window(u16),
    /// The length of the window with this number.
    Length(u8),
    /// An octet of this window, after so many others; so many octets of it are left.
    Bits {
        /// The number of the window.
        window: u8,
        /// How many octets of it were read.
        before: u8,
        /// How many octets of it are left.
        left: u8,
    },
}

/// Whether a bit of an octet is set; bit 0 is the highest.
fn has_bit(octet: u8, place: u16) -> bool
    requires { place < 8 }
    ensures { result ≡ has_bit octet place }
{
    (octet >> (7 - u32::from(place))) % 2 == 1
}

/// Appends the types that an octet of a window lists, of which the first is this one.
fn push_types(types: &mut Vec<RecordType>, first: u16, octet: u8) -> Result<(), AllocError>
    requires { first + 8 ≤ 2 ^ 16 }
    ensures { OnOk result (types.new.items ≡ types.old.items ++ listed_in first octet 8) }
{
    for place in 0..8 {
        if has_bit(octet, place) {
            types.push(RecordType::new(first + place))?;
        }
    }
    Ok(())
}

/// Appends the types that an octet of a type bit map lists.
fn push_listed(types: &mut Vec<RecordType>, part: Part, octet: u8) -> Result<(), AllocError>
    requires { IsPart part }
    ensures { OnOk result (types.new.items ≡ types.old.items ++ listed_by part octet) }
{
    match part {
        Part::Bits { window, before, .. } => {
            push_types(
                types,
                u16::from(window) * 256 + u16::from(before) * 8,
                octet,
            )
        }
        _ => Ok(()),
    }
}

/// What is read after an octet, if the octet may be there.
fn next_part(part: Part, octet: u8) -> Option<Part>
    requires { IsPart part }
    ensures next { result ≡ next_part part octet }
    ensures is_part { IfSome result IsPart }
{
    match part {
        Part::Window(least) => {
            if u16::from(octet) < least {
                None
            } else {
                Some(Part::Length(octet))
            }
        }
        Part::Length(window) => {
            if octet == 0 || 32 < octet {
                None
            } else {
                Some(Part::Bits {
                    window,
                    before: 0,
                    left: octet,
                })
            }
        }
        Part::Bits {
            window,
            before,
            left,
        } => {
            if left == 1 {
                Some(Part::Window(u16::from(window) + 1))
            } else {
                Some(Part::Bits {
                    window,
                    before: before + 1,
                    left: left - 1,
                })
            }
        }
    }
}

/// The types that a type bit map lists, if the octets have the form of one: windows in ascending order, each of 1 to 32
/// octets.
///
/// # Errors
///
/// The only error is that an allocation fails.
pub fn types_of(alloc: Global, octets: &[u8]) -> Result<Option<Vec<RecordType>>, AllocError>
    ensures { IfOk result (λ found. option_map (λ types. types.items) found ≡ types_in octets.now) }
{
    let mut types = Vec::new(alloc);
    let mut part = Part::Window(0);
    for octet in octets {
        let Some(next) = next_part(part, *octet) else {
            return Ok(None);
        };
        push_listed(&mut types, part, *octet)?;
        part = next;
    }
    match part {
        Part::Window(_) => Ok(Some(types)),
        _ => Ok(None),
    }
}
