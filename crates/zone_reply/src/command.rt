//! What the command is given and what it prints.

ghost use Rattle.std.specs.Prelude.{◌≡◌, IfOk, map, string_bytes};
ghost use Rattle.zone_reply.specs.Command.{IsPrinted, command_of, command_named, help_lines, refusal_line, refusal_status, version_line};
ghost use Rattle.zone_reply.specs.declared.command.Refusal.TheVariants as refusal;

use hickory_server::VERSION;
use hickory_server::proto::{NameError, Protocol};
use std::alloc::{AllocError, AllocFailed, Global};
use std::io::Write;

/// What the arguments ask for.
#[derive(Clone, Copy, Debug, PartialEq, Eq)]
pub enum Command {
    /// The replies to a message that comes over this transport.
    Answer(Protocol),
    /// The program's name and version.
    Version,
    /// How the program is started.
    Help,
}

/// Why there is no reply.
#[derive(Clone, Copy, Debug, PartialEq, Eq)]
pub enum Refusal {
    /// There is not exactly one argument, `udp`, `tcp`, `--version`, `--help` or `-h`.
    Usage,
    /// The line cannot be read, or is not an even number of hex digits.
    NotHex,
    /// The bytes begin with no DNS message.
    Unreadable,
    /// Memory was refused.
    Memory,
}

impl Refusal {
    /// The line that tells it.
    pub fn line(self) -> &'static [u8]
        ensures { result.now ≡ refusal_line self }
    {
        match self {
            Refusal::Usage => b"expected one argument: udp, tcp, --version or --help\n",
            Refusal::NotHex => b"not hex\n",
            Refusal::Unreadable => b"unreadable\n",
            Refusal::Memory => b"no memory\n",
        }
    }

    /// The status that tells it.
    pub fn status(self) -> u8
        ensures { result ≡ refusal_status self }
    {
        match self {
            Refusal::Usage | Refusal::NotHex => 2,
            Refusal::Unreadable => 1,
            Refusal::Memory => 3,
        }
    }
}

impl From<AllocError> for Refusal {
    ghost from_gives = { λ _ e. e ≡ refusal.Memory };

    fn from(_e: AllocError) -> Refusal {
        Refusal::Memory
    }
}

impl<T: Drop> From<AllocFailed<T>> for Refusal {
    ghost from_gives = { λ _ e. e ≡ refusal.Memory };

    fn from(_e: AllocFailed<T>) -> Refusal {
        Refusal::Memory
    }
}

// The texts of names are names, so that only memory can have been refused.
impl From<NameError> for Refusal {
    ghost from_gives = { λ _ e. e ≡ refusal.Memory };

    fn from(_e: NameError) -> Refusal {
        Refusal::Memory
    }
}

/// The command of this name.
fn command_named(name: &str) -> Option<Command>
    ensures { result ≡ command_named name.now }
{
    if name == "udp" {
        Some(Command::Answer(Protocol::Udp))
    } else if name == "tcp" {
        Some(Command::Answer(Protocol::Tcp))
    } else if name == "--version" {
        Some(Command::Version)
    } else if name == "--help" || name == "-h" {
        Some(Command::Help)
    } else {
        None
    }
}

/// The command that the arguments name.
pub fn command_of(arguments: &[String]) -> Option<Command>
    ensures { result ≡ command_of (map string_bytes arguments.now) }
{
    match arguments {
        [name] => command_named(name.as_str()),
        _ => None,
    }
}

/// The line of the program's name and version.
pub fn version_line(alloc: Global) -> Result<Vec<u8>, AllocError>
    ensures { IfOk result (λ line. line.items ≡ version_line) }
{
    let mut line = b"zone_reply ".to_vec(alloc)?;
    line.extend_from_slice(VERSION.as_bytes())?;
    line.push(b'\n')?;
    Ok(line)
}

/// How the program is started.
pub const HELP: &str = "\
zone_reply udp|tcp|--version|--help
  udp        answers a message that came over UDP, a line of hex digits, by a line of hex digits
  tcp        the same over TCP, by a line for each reply
  --version  name and version
  --help     this";

/// The lines that tell how the program is started.
pub fn help_lines(alloc: Global) -> Result<Vec<u8>, AllocError>
    ensures { IfOk result (λ lines. lines.items ≡ help_lines) }
{
    let mut lines = HELP.as_bytes().to_vec(alloc)?;
    lines.push(b'\n')?;
    Ok(lines)
}

/// Prints a line and answers the status, or 4 where printing fails.
pub fn print<W: Write>(writer: &mut W, line: &[u8], status: u8) -> u8
    ensures { IsPrinted (W.contents writer.old) (W.contents writer.new) line.now status result }
{
    if writer.write_all(line).is_ok() && writer.flush().is_ok() {
        status
    } else {
        4
    }
}
