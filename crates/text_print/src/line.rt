//! Whole records, printed.

ghost use Rattle.std.specs.Prelude.{string_bytes, OnOk};
ghost use Rattle.text_print.specs.PrintedData.{IsLineOf, PutsText};

use crate::data::put_record_data;
use crate::error::PrintError;
use crate::text::{put_class, put_number, put_type};
use hickory_wire::Record;
use std::alloc::Global;

/// Puts a record behind text as a line of a zone file, without its end (RFC 1035 section 5.1): owner name, TTL in
/// seconds, class, type and data, with a space between. The name is printed in full, with a dot at its end where it is
/// fully qualified. What the data are made of, and which are refused, is told at
/// [`put_record_data`](crate::put_record_data). Behind an error, some text may have been put.
pub fn put_record(alloc: Global, record: &Record, out: &mut String) -> Result<(), PrintError>
    ensures { OnOk result (PutsText (IsLineOf «record».now) (string_bytes out.old) (string_bytes out.new)) }
{
    write!(out, "{}", &record.name)?;
    put_number(record.ttl, out)?;
    put_class(record.dns_class, out)?;
    put_type(record.rdata.record_type().value(), out)?;
    put_record_data(alloc, &record.rdata, out)
}
