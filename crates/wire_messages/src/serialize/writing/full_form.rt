//! Names and numbers in bytes, in full.

ghost use Rattle.std.specs.Prelude.{◌≡◌, ◌≤◌, ◌++◌, OnOk};
ghost use Rattle.std.specs.Int.{w16, to_be_bytes};
ghost use Rattle.wire_names.specs.rr.domain.DomainName.{name_len, AreLabels};
ghost use Rattle.wire_messages.specs.serialize.writing.FullForm.{name_octets};

use std::alloc::AllocError;
use wire_names::rr::domain::name::Name;

/// How many bytes a name takes in full.
pub fn full_name_len(name: &Name) -> u16
    ensures len { result ≡ name_len name.now.labels }
    ensures small { result ≤ 255 }
    ensures labels { AreLabels name.now.labels }
{
    name.as_wire().len() as u16 + 1
}

/// Puts a name in full behind the bytes.
pub fn write_name(bytes: &mut Vec<u8>, name: &Name) -> Result<(), AllocError>
    ensures { OnOk result (bytes.new.items ≡ bytes.old.items ++ name_octets name.now.labels) }
{
    bytes.extend_from_slice(name.as_wire())?;
    bytes.push(0)?;
    Ok(())
}

/// Puts a number of 16 bits behind the bytes, the high byte first.
pub fn write_u16(bytes: &mut Vec<u8>, number: u16) -> Result<(), AllocError>
    ensures { OnOk result (bytes.new.items ≡ bytes.old.items ++ to_be_bytes w16 number) }
{
    bytes.extend_from_slice(&number.to_be_bytes())
}
