//! Serials of SOA records (RFC 1982).

ghost use Rattle.std.specs.Prelude.{◌≡◌};
ghost use Rattle.hickory_base.specs.zone_store.Serials.{is_greater};

/// Whether a serial is greater than another (RFC 1982 section 3.2). Of two that are 2147483648 apart none is.
pub fn is_greater(a: u32, b: u32) -> bool
    ensures { result ≡ is_greater a b }
{
    const HALF: u32 = 1 << 31;
    (a < b && HALF < b - a) || (b < a && a - b < HALF)
}
