//! The handler, and how its lists are filled.

ghost use Rattle.std.specs.Prelude.{◌≡◌, [], length, IfOk};
ghost use Rattle.wire_names.specs.rr.domain.NameOrder.{lower_name};
ghost use Rattle.hickory_store.specs.blocklist.AddedLists.{Adds};
ghost use Rattle.hickory_store.specs.blocklist.Readers.{CountsIo};
ghost use Rattle.hickory_store.specs.blocklist.Entries.{AreEntries};
ghost use Rattle.hickory_store.specs.declared.blocklist.handler.AddError.TheVariants as add_error;

use crate::blocklist::config::BlocklistConfig;
use crate::blocklist::entries::Entries;
use crate::blocklist::reader::{ListReader, read_all};
use hickory_wire::{LowerName, Name};
use std::alloc::{AllocError, Global};
use std::marker::Model;
use std::{io, str};
use thiserror::Error;

/// Why a list was not added, or not all of it.
#[derive(Clone, Copy, Debug, PartialEq, Eq, Error)]
pub enum AddError {
    /// The list could not be read. Nothing was added.
    #[error("the list could not be read")]
    Io,
    /// The list is not UTF-8. Nothing was added.
    #[error("the list is not UTF-8")]
    NotUtf8,
    /// Memory was refused. What a front of the lines lists may have been added.
    #[error("out of memory")]
    Memory,
}

impl From<io::Error> for AddError {
    ghost from_gives = { λ _ e. e ≡ add_error.Io };

    fn from(_e: io::Error) -> AddError {
        AddError::Io
    }
}

impl From<AllocError> for AddError {
    ghost from_gives = { λ _ e. e ≡ add_error.Memory };

    fn from(_e: AllocError) -> AddError {
        AddError::Memory
    }
}

/// A zone handler that answers for blocked names, and skips all others.
///
/// It is asked before the handlers that would resolve the names, or it is consulted about what they answered.
///
/// Only names that are fully qualified are blocked, as all are that a message holds: a name without its final dot never
/// is, whatever the lists have. [`add`](BlocklistZoneHandler::add) tells which lines of a list are names, and which are
/// skipped without a word; [`entry_count`](BlocklistZoneHandler::entry_count) then tells whether as many names came as
/// were expected.
#[derive(Drop)]
pub struct BlocklistZoneHandler {
    // What the entries are made with.
    alloc: Global,
    pub(crate) origin: LowerName,
    pub(crate) config: BlocklistConfig,
    pub(crate) entries: Entries,
}

impl Model for BlocklistZoneHandler {
    ghost use Rattle.hickory_store.specs.blocklist.BlockAnswers.{Blocklist};

    ghost Value = { Blocklist };

    ghost view = { λ list. record { origin = list.origin; config = list.config; entries = list.entries } };
}

impl BlocklistZoneHandler {
    /// A handler without entries, for the zone of this name.
    pub fn new(
        alloc: Global,
        origin: Name,
        config: BlocklistConfig,
    ) -> Result<BlocklistZoneHandler, AllocError>
        ensures { IfOk result (λ list. list ≡ record { origin = lower_name origin; config = config; entries = [] }) }
    {
        let origin = LowerName::new(alloc, &origin)?;
        Ok(BlocklistZoneHandler {
            alloc,
            origin,
            config,
            entries: Entries::new(alloc),
        })
    }

    /// Adds the names that a list has, to those that are there. The reader is read to its end before anything is added.
    ///
    /// Each line lists a name, or the address `0.0.0.0`, one blank and a name. A `#` begins a comment; white space
    /// around what stands before it does not matter. The final dot of a name may be missing, letter case does not
    /// matter, and `*` may stand as a label; as the first one it makes a wildcard. Any other line is skipped without a
    /// word, so that these are:
    ///
    /// - a line that begins or ends with a blank, unless a comment stands behind it: ` foo.com`, ` 0.0.0.0 foo.com`,
    ///   `foo.com `;
    /// - an address and a name with a tab or with several blanks between them;
    /// - a name behind any other address, as `127.0.0.1 foo.com` and `:: foo.com`, and several names on one line;
    /// - a name with other characters than letters, digits, `-` and `_`, or with too long a label, or too long itself.
    ///
    /// An address alone has the form of a name and counts as one: `0.0.0.0` on a line lists the name `0.0.0.0.`.
    ///
    /// # Errors
    ///
    /// A read that fails ends the call with `Io`, and nothing is added; so does one that was only interrupted, which is
    /// not tried again.
    pub fn add<R: ListReader>(&mut self, reader: &mut R) -> Result<(), AddError>
        ensures added { Adds result (R.remaining reader.old) (R.remaining reader.new) self.old.entries
            self.new.entries }
        ensures kept { self.new ≡ record self.old { entries = self.new.entries } }
        ensures failures { CountsIo result (R.failures reader.old) (R.failures reader.new) }
    {
        let bytes = read_all(self.alloc, reader)?;
        let Ok(text) = str::from_utf8(&bytes) else {
            return Err(AddError::NotUtf8);
        };
        self.entries.add_lines(self.alloc, text)?;
        Ok(())
    }

    /// How many names are on its lists, each counted once.
    pub fn entry_count(&self) -> usize
        ensures count { result ≡ length self.now.entries }
        ensures entries { AreEntries self.now.entries }
    {
        self.entries.len()
    }
}
