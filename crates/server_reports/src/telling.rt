//! The text in which monitoring reads numbers (Prometheus, "Text-based format", version 0.0.4).

ghost use Rattle.std.specs.Prelude.{◌≡◌, ◌++◌, ◌<◌, IfOk, OnOk, get_or, string_bytes};
ghost use Rattle.server_reports.specs.Exposition.{code_line, code_lines, code_name, exposition_of, line_of, message_lines, reply_lines, unanswered_lines};

use crate::counters::Counters;
use std::alloc::{AllocError, Global};

/// Puts a piece of text.
fn put(text: &mut String, piece: &str) -> Result<(), AllocError>
    ensures { OnOk result (string_bytes text.new ≡ string_bytes text.old ++ piece.now) }
{
    text.push_str(piece)
}

/// Puts a line: what is counted, and how many there were.
fn put_line(alloc: Global, text: &mut String, what: &str, count: u64) -> Result<(), AllocError>
    ensures { OnOk result (string_bytes text.new ≡ string_bytes text.old ++ line_of what.now count) }
{
    let number = format!(in alloc; "{count}")?;
    text.push_str(what)?;
    text.push_str(" ")?;
    text.push_str(&number)?;
    text.push_str("\n")
}

/// How many messages came.
fn put_messages(alloc: Global, text: &mut String, counters: &Counters) -> Result<(), AllocError>
    ensures { OnOk result (string_bytes text.new ≡ string_bytes text.old ++ message_lines counters.now) }
{
    put(text, "# TYPE zoned_queries_total counter\n")?;
    put_line(
        alloc,
        text,
        "zoned_queries_total{transport=\"udp\"}",
        counters.udp,
    )?;
    put_line(
        alloc,
        text,
        "zoned_queries_total{transport=\"tcp\"}",
        counters.tcp,
    )?;
    put(text, "# TYPE zoned_received_bytes_total counter\n")?;
    put_line(alloc, text, "zoned_received_bytes_total", counters.received)?;
    Ok(())
}

/// How many got no reply.
fn put_unanswered(alloc: Global, text: &mut String, counters: &Counters) -> Result<(), AllocError>
    ensures { OnOk result (string_bytes text.new ≡ string_bytes text.old ++ unanswered_lines counters.now) }
{
    put(text, "# TYPE zoned_unanswered_total counter\n")?;
    put_line(
        alloc,
        text,
        "zoned_unanswered_total{reason=\"denied\"}",
        counters.denied,
    )?;
    put_line(
        alloc,
        text,
        "zoned_unanswered_total{reason=\"response\"}",
        counters.responses,
    )?;
    put_line(
        alloc,
        text,
        "zoned_unanswered_total{reason=\"unreadable\"}",
        counters.unreadable,
    )?;
    put_line(
        alloc,
        text,
        "zoned_unanswered_total{reason=\"memory\"}",
        counters.dropped,
    )?;
    put_line(
        alloc,
        text,
        "zoned_unanswered_total{reason=\"limited\"}",
        counters.limited,
    )?;
    Ok(())
}

/// How many replies there were, without their codes.
fn put_replies(alloc: Global, text: &mut String, counters: &Counters) -> Result<(), AllocError>
    ensures { OnOk result (string_bytes text.new ≡ string_bytes text.old ++ reply_lines counters.now) }
{
    put(text, "# TYPE zoned_truncated_total counter\n")?;
    put_line(alloc, text, "zoned_truncated_total", counters.truncated)?;
    put(text, "# TYPE zoned_sent_bytes_total counter\n")?;
    put_line(alloc, text, "zoned_sent_bytes_total", counters.sent)?;
    Ok(())
}

/// The name of a response code (RFC 1035 section 4.1.1, RFC 2136 section 2.2), or its number where it has none there.
fn code_name(code: usize) -> &'static str
    ensures { result.now ≡ code_name code }
{
    match code {
        0 => "NOERROR",
        1 => "FORMERR",
        2 => "SERVFAIL",
        3 => "NXDOMAIN",
        4 => "NOTIMP",
        5 => "REFUSED",
        6 => "YXDOMAIN",
        7 => "YXRRSET",
        8 => "NXRRSET",
        9 => "NOTAUTH",
        10 => "NOTZONE",
        11 => "11",
        12 => "12",
        13 => "13",
        14 => "14",
        _ => "15",
    }
}

/// How many replies have a code.
fn put_code(alloc: Global, text: &mut String, code: usize, count: u64) -> Result<(), AllocError>
    ensures { OnOk result (string_bytes text.new ≡ string_bytes text.old ++ code_line code count) }
{
    put(text, "zoned_replies_total{code=\"")?;
    put(text, code_name(code))?;
    put_line(alloc, text, "\"}", count)?;
    Ok(())
}

/// How many replies have each code.
fn put_codes(alloc: Global, text: &mut String, codes: &[u64; 16]) -> Result<(), AllocError>
    ensures { OnOk result (string_bytes text.new ≡ string_bytes text.old ++ code_lines codes.now) }
{
    put(text, "# TYPE zoned_replies_total counter\n")?;
    for code in 0..16 {
        put_code(alloc, text, code, codes[code])?;
    }
    Ok(())
}

/// The text in which monitoring reads what was counted. An error says that memory was refused.
pub fn exposition(alloc: Global, counters: &Counters) -> Result<String, AllocError>
    ensures { IfOk result (λ text. string_bytes text ≡ exposition_of counters.now) }
{
    let mut text = String::new(alloc);
    put_messages(alloc, &mut text, counters)?;
    put_unanswered(alloc, &mut text, counters)?;
    put_codes(alloc, &mut text, &counters.codes)?;
    put_replies(alloc, &mut text, counters)?;
    Ok(text)
}
